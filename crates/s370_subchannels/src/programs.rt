//! The programs on which devices work.
ghost use Rattle.std.specs.Prelude.{◌≡◌};
ghost use Rattle.s370_subchannels.specs.Programs.{program_ended, program_of};

use crate::subchannel::DeviceState;
use crate::subchannels::Subchannels;
use s370_channel::{Caw, Csw};
use s370_num::AccessKey;
use s370_walk::Ending;

impl Subchannels {
    /// Returns the channel address word of the program on which a device works, if there is such a
    /// device and it works.
    pub fn program(&self, device: u16) -> Option<Caw>
        ensures { result ≡ program_of device self.now }
    {
        match self.get(device) {
            Some(s) => match s.state {
                DeviceState::Working(caw) => Caw::from_word(caw),
                DeviceState::Idle | DeviceState::Pending(_) => None,
            },
            None => None,
        }
    }

    /// Makes the channel status word of an ended program pending at its device; if there is no such
    /// device, nothing changes.
    pub fn end_program(&mut self, device: u16, key: AccessKey, ending: Ending)
        ensures { self.new ≡ program_ended device key ending self.old }
    {
        let csw = Csw::of_ending(key, ending).to_bytes();
        let status = u64::from_be_bytes(csw);
        match self.get(device) {
            Some(s) => self.set_state(device, s.ended(status)),
            None => {}
        }
    }
}
