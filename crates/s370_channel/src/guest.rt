//! How a guest writes its channel programs: eight bytes a word, and with indirect data addressing
//! (GA22-7000, "Channel Indirect Data Addressing") a list of words of four bytes that say where the
//! data lie.
ghost use Rattle.std.specs.Prelude.{IfOk, IfSome, [], ◌∷◌, ◌≡◌, ◌≤◌, ◌+◌, ◌*◌, true, false, Bool};
ghost use Rattle.std.specs.Prelude.{Option, length, ℕ, ◌<◌, ◌^◌};
ghost use Rattle.s370_walk.specs.Hardware.{FetchTells, area};
ghost use Rattle.s370_walk.specs.Blocks.{straight};
ghost use Rattle.s370_walk.specs.Walk.{is_indirect, is_jump, chains_data, chains_command};
ghost use Rattle.s370_store.specs.declared.Access.TheVariants as access;
ghost use Rattle.s370_channel.specs.Guest.{guest_text, word_at, later, list_of, list_word, said};
ghost use Rattle.s370_channel.specs.Guest.{block_asks, area_block};

use crate::words::StoredCcw;
use s370_num::AccessKey;
use s370_store::{Access, Fault, Page, Range, Storage, load_word};
use s370_walk::{Ccw, Flags, Position, WordForm};

/// The words of a guest.
#[derive(Clone, Copy, PartialEq, Eq)]
pub struct Guest;

/// Returns the 24-bit address that is `bytes` bytes further on; past the last address it goes on at
/// zero.
fn further(at: u32, bytes: u32) -> u32
    ensures value { result ≡ later at bytes }
    ensures below { result < 2 ^ 24 }
{
    ((at as u64 + bytes as u64) % 0x100_0000) as u32
}

/// Returns a stored command word with the addresses of the words that may follow it; the flags of a
/// transfer in channel are dropped.
fn with_next_addresses(at: u32, ccw: StoredCcw) -> Ccw
    ensures word { result ≡ word_at at ccw }
    ensures next { result.next < 2 ^ 24 }
    ensures skipped { result.skipped < 2 ^ 24 }
{
    let StoredCcw {
        command,
        address,
        flags,
        count,
    } = ccw;
    let address = address.get();
    if command.is_transfer_in_channel() {
        return Ccw {
            command,
            address,
            flags: Flags::NONE,
            count,
            next: address,
            skipped: 0,
        };
    }
    if flags.has(Flags::CHAIN_COMMAND) {
        return Ccw {
            command,
            address,
            flags,
            count,
            next: further(at, 8),
            skipped: further(at, 16),
        };
    }
    let next = if flags.has(Flags::CHAIN_DATA) {
        further(at, 8)
    } else {
        0
    };
    Ccw {
        command,
        address,
        flags,
        count,
        next,
        skipped: 0,
    }
}

/// Returns the word at an address of an indirect data address list, or `None` if it may not be
/// fetched.
fn fetch_list_word<S: Storage>(storage: &S, at: u32) -> Result<Option<u32>, Page>
    ensures { FetchTells (length (S.memory storage.now).bytes) (S.present storage.now)
        (area access.Fetch at 4 ∷ [])
        (list_word (S.memory storage.now) at) result }
{
    match storage.check(
        Range {
            start: at,
            count: 4,
        },
        Access::Fetch,
        AccessKey::ZERO,
    ) {
        Ok(()) => Ok(Some(load_word(storage, at))),
        Err(Fault::Absent(page)) => Err(page),
        Err(Fault::Addressing) => Ok(None),
        Err(Fault::Protection) => Ok(None),
    }
}

/// Returns a list word's value as the address of block `number`, or `None` if it has over 24 bits
/// or, past block 0, begins no block.
fn address_said(number: u32, value: u32) -> Option<u32>
    ensures { result ≡ said number value }
{
    if value < 0x100_0000 && (number == 0 || value % 2048 == 0) {
        Some(value)
    } else {
        None
    }
}

/// Returns where block `number` of a data area in one piece begins, or `None` past 2^32.
fn block_start(address: u32, number: u32) -> Option<u32>
    ensures { result ≡ straight address number }
{
    if number == 0 {
        return Some(address);
    }
    let start = (address as u64 / 2048 + number as u64) * 2048;
    if start < 0x1_0000_0000 {
        Some(start as u32)
    } else {
        None
    }
}

/// Returns the guest's channel command word at an address, or `None` if it may not be fetched.
///
/// The addresses of the words after it have 24 bits.
///
/// # Errors
///
/// A page that is needed and absent.
pub fn fetch_word<S: Storage>(storage: &S, at: u32) -> Result<Option<Ccw>, Page>
    ensures word { FetchTells (length (S.memory storage.now).bytes) (S.present storage.now)
        (area access.Fetch at 8 ∷ []) (guest_text (S.memory storage.now) at) result }
    ensures next { IfOk result (λ found. IfSome found (λ word. word.next < 2 ^ 24)) }
    ensures skipped { IfOk result (λ found. IfSome found (λ word. word.skipped < 2 ^ 24)) }
{
    match storage.check(
        Range {
            start: at,
            count: 8,
        },
        Access::Fetch,
        AccessKey::ZERO,
    ) {
        Ok(()) => {
            let mut bytes = [0u8; 8];
            storage.load(at, &mut bytes);
            Ok(Some(with_next_addresses(at, StoredCcw::from_bytes(&bytes))))
        }
        Err(Fault::Absent(page)) => Err(page),
        Err(Fault::Addressing) => Ok(None),
        Err(Fault::Protection) => Ok(None),
    }
}

/// Returns where block `number` of the data area of a guest's word begins, or `None` if it has
/// none.
///
/// With the flag for indirect addresses, the list of addresses says it.
///
/// # Errors
///
/// A page that is needed and absent.
pub fn fetch_block<S: Storage>(storage: &S, word: &Ccw, number: u32) -> Result<Option<u32>, Page>
    requires { number ≤ 64 }
    ensures { FetchTells (length (S.memory storage.now).bytes) (S.present storage.now)
        (block_asks word.now number)
        (area_block (S.memory storage.now) word.now number) result }
{
    if !word.flags.has(Flags::INDIRECT) {
        return Ok(block_start(word.address, number));
    }
    match fetch_list_word(storage, further(word.address, 4 * number)) {
        Ok(Some(value)) => Ok(address_said(number, value)),
        Ok(None) => Ok(None),
        Err(page) => Err(page),
    }
}

impl WordForm for Guest {
    ghost use Rattle.s370_channel.specs.Guest.{guest_written};

    ghost written = { λ _. guest_written };

    /// Returns the guest's channel command word at an address, as `fetch_word` does.
    fn fetch<S: Storage>(&self, storage: &S, at: u32) -> Result<Option<Ccw>, Page> {
        fetch_word(storage, at)
    }

    /// Returns where a block of the data area of a guest's word begins, as `fetch_block` does.
    fn block<S: Storage>(
        &self,
        storage: &S,
        position: &Position,
        number: u32,
    ) -> Result<Option<u32>, Page> {
        fetch_block(storage, &position.word, number)
    }
}
