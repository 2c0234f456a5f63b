//! Pairs of registers.
ghost use Rattle.std.specs.Prelude.{◌≡◌, ℕ, ◌<◌};
ghost use Rattle.s370_rows.specs.Pair.{pair_of, with_pair};

use crate::cpu::Cpu;
use s370_num::Register;

impl Cpu {
    /// Returns a register and the next one as one number of 64 bits.
    #[inline(always)]
    pub fn pair(&self, register: Register) -> u64
        requires { register < 15 }
        ensures { result ≡ pair_of self.now register }
    {
        let high = self.general[register.index()] as u64;
        high << 32 | self.general[register.index() + 1] as u64
    }

    /// Sets a register to the high half of a 64-bit number, and the next one to its low half.
    #[inline(always)]
    pub fn set_pair(&mut self, register: Register, value: u64)
        requires { register < 15 }
        ensures { self.new ≡ with_pair self.old register value }
    {
        self.general[register.index()] = (value >> 32) as u32;
        self.general[register.index() + 1] = (value & 0xFFFF_FFFF) as u32;
    }
}
