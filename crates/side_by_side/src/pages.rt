//! A quick comparison of storage, page by page.
use crate::machines::{SideBySide, same};
use crate::view::{SideError, View};
use cp_core::{FRAME_SIZE, System};
use s370_store::Page;
use user_names::UserNo;

/// A page of zeros.
const ZEROS: [u8; FRAME_SIZE] = [0; FRAME_SIZE];

/// Returns whether two lists of bytes are the same.
///
/// Eight are compared at a time, and all of them, which takes less time than to look for the first
/// that differs.
fn are_same_bytes(one: &[u8], other: &[u8]) -> bool {
    let (words, rest) = one.as_chunks::<8>();
    let (other_words, other_rest) = other.as_chunks::<8>();
    let mut differing = 0u64;
    for (word, other_word) in words.iter().zip(other_words.iter()) {
        differing |= u64::from_be_bytes(*word) ^ u64::from_be_bytes(*other_word);
    }
    differing == 0 && one.len() == other.len() && rest == other_rest
}

/// Returns whether each byte of a user's page, as the system shows it one by one, is that of
/// `wanted`.
fn shows_page(system: &System, user: UserNo, page: u32, wanted: &[u8]) -> bool {
    let mut address = page.wrapping_mul(FRAME_SIZE as u32);
    for byte in wanted {
        if system.storage(user, address) != Some(*byte) {
            return false;
        }
        address = address.wrapping_add(1);
    }
    true
}

/// Returns whether a user's page has these bytes: in its frame, in its slot, or zeros if it is in
/// neither.
fn has_page(system: &mut System, user: UserNo, page: u32, wanted: &[u8]) -> bool {
    if let Some(frame) = system.frame_of(user, Page(page)) {
        return match system.frame_mut(frame) {
            Some(bytes) => are_same_bytes(bytes.as_slice(), wanted),
            None => false,
        };
    }
    match system.slot_of(user, Page(page)) {
        Some(_) => shows_page(system, user, page, wanted),
        None => are_same_bytes(wanted, &ZEROS),
    }
}

impl SideBySide {
    /// Compares the bytes of a user's storage and its keys with those of his bare machine; the
    /// error is the first view that differs.
    ///
    /// It does the same as [`SideBySide::compare_storage`], but compares a page that is in a frame
    /// at once.
    pub fn compare_pages(&mut self, user: UserNo) -> Result<(), SideError> {
        let Some(other_users) = self.machines.get(user.index()) else {
            return Err(SideError::NoSuchUser);
        };
        let mut page = 0u32;
        for wanted in other_users.bare.storage().chunks(FRAME_SIZE) {
            same(
                has_page(&mut self.system, user, page, wanted),
                View::Storage,
            )?;
            page = page.wrapping_add(1);
        }
        let end = page.wrapping_mul(FRAME_SIZE as u32);
        same(self.system.storage(user, end).is_none(), View::Storage)?;
        self.compare_keys(user, page.wrapping_mul(2))
    }

    /// Compares the keys of so many blocks of a user with those of his bare machine, and that there
    /// are no more; the error is that they differ.
    pub(crate) fn compare_keys(&self, user: UserNo, blocks: u32) -> Result<(), SideError> {
        let bare = self.bare(user)?;
        for block in 0..=blocks {
            same(self.system.key(user, block) == bare.key(block), View::Keys)?;
        }
        Ok(())
    }
}
