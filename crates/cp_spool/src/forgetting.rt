//! Closed files whose entries are dropped, since they were written elsewhere.
//!
//! The place of such a file stays, and for whom it is: only its entries are gone, and every other
//! file is as it was. A file that is also a deck in a reader keeps them, since the reader is to read
//! them.
ghost use Rattle.std.specs.Prelude.{◌≡◌, ◌≢◌, ℕ, false, slice_get, true};
ghost use Rattle.std.specs.List.{list_any};
ghost use Rattle.std.specs.Option.{option_map};
ghost use Rattle.slab.specs.Slab.{get};
ghost use Rattle.cp_spool.specs.Forgotten.{IsGone, LosesAtMost, emptied, has_key, without_printed};
ghost use Rattle.cp_spool.specs.Forgotten.{without_punched};
ghost use Rattle.cp_spool.specs.Queues.{files_of};

use crate::file::SpoolFile;
use crate::keeping::queue_at;
use crate::queue::UserQueue;
use crate::queues::Queues;
use slab::Slab;
use user_names::UserNo;

/// Returns whether a reader of one of these users has the file of this key as a deck.
fn is_waiting(users: &[UserQueue], key: usize) -> bool
    ensures { result ≡ list_any (has_key key) users.now }
{
    users.iter().any(|queue| queue.has_key(key))
}

/// Drops the entries of the file of this key, if there is one.
fn empty_file(files: &mut Slab<SpoolFile>, key: usize)
    ensures others { (other : ℕ) → other ≢ key → get files.new other ≡ get files.old other }
    ensures here { get files.new key ≡ option_map emptied (get files.old key) }
{
    if let Some(file) = files.try_remove(key) {
        let _key = files.insert_reserved(file.without_entries());
    }
}

/// Drops the entries of the file of this key, unless a reader of one of these users has it as a
/// deck.
fn forget_file(files: &mut Slab<SpoolFile>, users: &[UserQueue], key: usize)
    ensures waiting { list_any (has_key key) users.now ≡ true → files.new ≡ files.old }
    ensures others { list_any (has_key key) users.now ≡ false
        → (other : ℕ) → other ≢ key → get files.new other ≡ get files.old other }
    ensures here { list_any (has_key key) users.now ≡ false
        → get files.new key ≡ option_map emptied (get files.old key) }
{
    if !is_waiting(users, key) {
        empty_file(files, key);
    }
}

impl Queues {
    /// Drops the entries of the file of this index among those that this user's punch closed,
    /// unless a reader has it as a deck. Its place stays.
    pub fn forget_punched(&mut self, user: UserNo, index: usize)
        ensures lost { LosesAtMost user (without_punched index) self.old.users self.new.users }
        ensures gone { IsGone self.new.users
            (slice_get (files_of self.new.users user).punched index) }
    {
        if user.index() >= self.users.len() {
            return;
        }
        if let Some(key) = queue_at(&self.users, user).punched(index) {
            forget_file(&mut self.files, &self.users, key);
        }
    }

    /// Drops the entries of the file of this index among those that this user's printer closed,
    /// unless a reader has it as a deck. Its place stays.
    pub fn forget_printed(&mut self, user: UserNo, index: usize)
        ensures lost { LosesAtMost user (without_printed index) self.old.users self.new.users }
        ensures gone { IsGone self.new.users
            (slice_get (files_of self.new.users user).printed index) }
    {
        if user.index() >= self.users.len() {
            return;
        }
        if let Some(key) = queue_at(&self.users, user).printed(index) {
            forget_file(&mut self.files, &self.users, key);
        }
    }
}
