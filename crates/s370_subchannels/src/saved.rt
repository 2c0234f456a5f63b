//! Subchannels as the bytes of a saved state, and back.
ghost use Rattle.std.specs.Prelude.{◌≡◌, ◌++◌, OnOk};
ghost use Rattle.s370_subchannels.specs.Saved.{addresses, state_bytes, state_kind, state_word};
ghost use Rattle.s370_subchannels.specs.Saved.{subchannel_bytes, subchannels_bytes};

use crate::subchannel::{DeviceState, Subchannel};
use crate::subchannels::Subchannels;
use saved_bytes::{Input, RestoreError, put_flag, put_number, put_one, put_zero};
use std::alloc::AllocError;

/// Returns the number for the kind of a state: 0 idle, 1 working, 2 pending.
fn kind_of(state: DeviceState) -> u64
    ensures { result ≡ state_kind state }
{
    match state {
        DeviceState::Idle => 0,
        DeviceState::Working(_) => 1,
        DeviceState::Pending(_) => 2,
    }
}

/// Returns the channel address word or channel status word in a device's state, or zero if it is
/// idle.
fn word_of(state: DeviceState) -> u64
    ensures { result ≡ state_word state }
{
    match state {
        DeviceState::Idle => 0,
        DeviceState::Working(caw) => u64::from(caw),
        DeviceState::Pending(csw) => csw,
    }
}

/// Appends to `out` the kind of a device's state and its word, as two numbers.
fn put_state(out: &mut Vec<u8>, state: DeviceState) -> Result<(), AllocError>
    ensures { OnOk result (out.new.items ≡ out.old.items ++ state_bytes state) }
{
    put_number(out, kind_of(state))?;
    put_number(out, word_of(state))
}

/// Appends to `out` a subchannel's address, state, attention and number of its last start.
fn put_subchannel(out: &mut Vec<u8>, s: Subchannel) -> Result<(), AllocError>
    ensures { OnOk result (out.new.items ≡ out.old.items ++ subchannel_bytes s) }
{
    // Exhaustive: a new field fails to compile here.
    let Subchannel {
        address,
        state,
        attention,
        last_start,
    } = s;
    put_number(out, u64::from(address.get()))?;
    put_state(out, state)?;
    put_flag(out, attention)?;
    put_number(out, last_start)
}

/// Appends subchannels to `out`, each after a byte of 1, and then a byte of 0.
fn put_subchannels(out: &mut Vec<u8>, list: &[Subchannel]) -> Result<(), AllocError>
    ensures { OnOk result (out.new.items ≡ out.old.items ++ subchannels_bytes list.now) }
{
    for subchannel in list {
        put_one(out)?;
        put_subchannel(out, *subchannel)?;
    }
    put_zero(out)
}

/// Returns the state of a device that works on the program at this address word.
///
/// # Errors
///
/// `Malformed` if the word does not fit 32 bits.
fn working(word: u64) -> Result<DeviceState, RestoreError> {
    match u32::try_from(word) {
        Ok(word) => Ok(DeviceState::Working(word)),
        Err(_) => Err(RestoreError::Malformed),
    }
}

/// Takes a device's state from `input`, two numbers, and returns it.
///
/// # Errors
///
/// `Malformed` if they are no state.
fn state_of(input: &mut Input<'_>) -> Result<DeviceState, RestoreError> {
    let kind = input.number()?;
    let word = input.number()?;
    match kind {
        0 => Ok(DeviceState::Idle),
        1 => working(word),
        2 => Ok(DeviceState::Pending(word)),
        _ => Err(RestoreError::Malformed),
    }
}

impl Subchannels {
    /// Appends all subchannels to `out`, each after a byte of 1, and then a byte of 0.
    ///
    /// # Errors
    ///
    /// `AllocError` if memory is refused; `out` may have a part of it then.
    pub fn save(&self, out: &mut Vec<u8>) -> Result<(), AllocError>
        ensures { OnOk result (out.new.items ≡ out.old.items ++ subchannels_bytes self.now) }
    {
        put_subchannels(out, self.list())
    }

    /// Takes as many subchannels from `input` as there are devices, and sets the devices of their
    /// addresses, if there are such.
    ///
    /// No device is added or removed, whatever the input has.
    ///
    /// # Errors
    ///
    /// `Malformed`, perhaps after some were set, if `input` has fewer, more or bad ones.
    pub fn restore(&mut self, input: &mut Input<'_>) -> Result<(), RestoreError>
        ensures { addresses self.new ≡ addresses self.old }
    {
        let count = self.list().len();
        for _ in 0..count {
            self.restore_next(input)?;
        }
        if input.flag()? {
            Err(RestoreError::Malformed)
        } else {
            Ok(())
        }
    }

    /// Takes one subchannel from `input` and sets state, attention and last start of the device of
    /// its address, if there is one.
    ///
    /// # Errors
    ///
    /// `Malformed` if it is bad or missing; nothing is set then.
    #[tactic(auto, using(crate::proofs::Kept::state_kept, crate::proofs::Kept::attention_kept, crate::proofs::Kept::last_start_kept))]
    fn restore_next(&mut self, input: &mut Input<'_>) -> Result<(), RestoreError>
        ensures { addresses self.new ≡ addresses self.old }
    {
        if !input.flag()? {
            return Err(RestoreError::Malformed);
        }
        let device = input.next_u16()?;
        let state = state_of(input)?;
        let attention = input.flag()?;
        let last_start = input.number()?;
        self.set_state(device, state);
        self.set_attention(device, attention);
        self.set_last_start(device, last_start);
        Ok(())
    }
}
