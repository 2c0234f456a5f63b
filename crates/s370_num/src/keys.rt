//! Keys of protection (GA22-7000, "Protection") and the condition code.

ghost use Rattle.std.specs.Prelude.{◌≡◌, ℕ, ◌<◌};

use std::marker::Model;

/// The key of an access, that of a PSW or of a channel program: 0 to 15. Key 0 passes every block.
#[derive(Clone, Copy, PartialEq, Eq, Debug)]
pub struct AccessKey {
    key: u8,
}

impl Model for AccessKey {
    ghost use Rattle.std.specs.Prelude.{ℕ, ◌<◌};

    ghost Value = { ℕ };

    ghost view = { λ k. k.key };

    ghost invariant = { λ k. k.key < 16 };

    ghost inverse = { λ n. record { key = n } };
}

impl AccessKey {
    /// The key that passes every block.
    pub const ZERO: AccessKey = AccessKey { key: 0 };

    /// Returns the access key with this number, which is below 16.
    #[inline(always)]
    pub fn new(key: u8) -> AccessKey
        requires { key < 16 }
        ensures { result ≡ key }
    {
        AccessKey { key }
    }

    /// Returns the access key as a number below 16.
    #[inline(always)]
    pub fn get(self) -> u8
        ensures value { result ≡ self }
        ensures below { result < 16 }
    {
        self.key
    }
}

/// The key of a block of storage: four bits of access control and, last, the bit of fetch
/// protection.
#[derive(Clone, Copy, PartialEq, Eq, Debug)]
pub struct StorageKey {
    bits: u8,
}

impl Model for StorageKey {
    ghost use Rattle.std.specs.Prelude.{ℕ, ◌<◌};

    ghost Value = { ℕ };

    ghost view = { λ k. k.bits };

    ghost invariant = { λ k. k.bits < 32 };

    ghost inverse = { λ n. record { bits = n } };
}

impl StorageKey {
    /// Access control zero, and no fetch protection.
    pub const ZERO: StorageKey = StorageKey { bits: 0 };

    /// Returns the storage key with these five bits: four of access control, then fetch protection.
    #[inline(always)]
    pub fn new(bits: u8) -> StorageKey
        requires { bits < 32 }
        ensures { result ≡ bits }
    {
        StorageKey { bits }
    }

    /// Returns the storage key's five bits: four of access control, then fetch protection.
    #[inline(always)]
    pub fn get(self) -> u8
        ensures value { result ≡ self }
        ensures below { result < 32 }
    {
        self.bits
    }
}

/// The condition code, 0 to 3.
#[derive(Clone, Copy, PartialEq, Eq, Debug)]
pub struct ConditionCode {
    code: u8,
}

impl Model for ConditionCode {
    ghost use Rattle.std.specs.Prelude.{ℕ, ◌<◌};

    ghost Value = { ℕ };

    ghost view = { λ c. c.code };

    ghost invariant = { λ c. c.code < 4 };

    ghost inverse = { λ n. record { code = n } };
}

impl ConditionCode {
    pub const ZERO: ConditionCode = ConditionCode { code: 0 };

    pub const ONE: ConditionCode = ConditionCode { code: 1 };

    pub const TWO: ConditionCode = ConditionCode { code: 2 };

    pub const THREE: ConditionCode = ConditionCode { code: 3 };

    /// Returns the condition code with this number, which is below 4.
    #[inline(always)]
    pub fn new(code: u8) -> ConditionCode
        requires { code < 4 }
        ensures { result ≡ code }
    {
        ConditionCode { code }
    }

    /// Returns the condition code as a number below 4.
    #[inline(always)]
    pub fn get(self) -> u8
        ensures value { result ≡ self }
        ensures below { result < 4 }
    {
        self.code
    }
}
