//! How files are kept: under keys, which the queues of users hold.
ghost use Rattle.std.specs.Prelude.{◌≡◌, ℕ, ◌<◌, ◌≤◌, [], None, true, false, map, length};
ghost use Rattle.std.specs.Prelude.{replicate, slice_index_or, IfOk, OnErr, OnOk};
ghost use Rattle.slab.specs.Slab.{get, Updates, Slab as Files};
ghost use Rattle.cp_spool.specs.File.{SpoolFileValue};
ghost use Rattle.cp_spool.specs.Keys.{AreApart, is_given, keys_in, no_keys, queue_of, user_files};
ghost use Rattle.cp_spool.specs.Keys.{with_printed_key, with_punched_key, with_queue, with_waiting};
ghost use Rattle.cp_spool.specs.Keys.{without_waiting};
ghost use Rattle.cp_spool.specs.Queues.{no_files};

use crate::file::SpoolFile;
use crate::queue::{UserQueue, Waiting};
use slab::Slab;
use std::alloc::{AllocError, Global};
use user_names::UserNo;

/// Appends a deck to the queue of this user's reader.
pub(crate) fn push_waiting(
    users: &mut Vec<UserQueue>,
    user: UserNo,
    waiting: Waiting,
) -> Result<(), AllocError>
    requires { user < length users.old.items }
    ensures ok { OnOk result
        (users.new.items ≡ with_queue user (with_waiting waiting (queue_of users.old.items user))
        users.old.items) }
    ensures err { OnErr result (users.new.items ≡ users.old.items) }
{
    users[user.index()].push(waiting)
}

/// Appends the key of a file that this user's punch closed to his list of them, for which memory
/// was reserved.
pub(crate) fn push_punched(users: &mut Vec<UserQueue>, user: UserNo, key: usize)
    requires { 1 ≤ (queue_of users.old.items user).punch_room }
    ensures { users.new.items
        ≡ with_queue user (with_punched_key key (queue_of users.old.items user)) users.old.items }
{
    users[user.index()].push_punched(key);
}

/// Appends the key of a file that this user's printer closed to his list of them, for which memory
/// was reserved.
pub(crate) fn push_printed(users: &mut Vec<UserQueue>, user: UserNo, key: usize)
    requires { 1 ≤ (queue_of users.old.items user).print_room }
    ensures { users.new.items
        ≡ with_queue user (with_printed_key key (queue_of users.old.items user)) users.old.items }
{
    users[user.index()].push_printed(key);
}

/// Reserves memory for the key of one more file that this user's punch closes, and of one that his
/// printer closes.
pub(crate) fn reserve_closed(users: &mut Vec<UserQueue>, user: UserNo) -> Result<(), AllocError>
    requires { user < length users.old.items }
    ensures rest { let queue = queue_of users.new.items user in
        users.new.items ≡ with_queue user (record (queue_of users.old.items user) {
          punch_room = queue.punch_room;
          print_room = queue.print_room;
        }) users.old.items }
    ensures punched { OnOk result (1 ≤ (queue_of users.new.items user).punch_room) }
    ensures printed { OnOk result (1 ≤ (queue_of users.new.items user).print_room) }
{
    users[user.index()].reserve()
}

/// Removes the deck of this index from the queue of this user's reader, and returns its file's key.
pub(crate) fn take_waiting(users: &mut Vec<UserQueue>, user: UserNo, index: usize) -> usize
    requires user { user < length users.old.items }
    requires index { index < length (queue_of users.old.items user).decks }
    ensures key { result ≡ slice_index_or (keys_in (queue_of users.old.items user)) index 0 }
    ensures after { users.new.items
        ≡ with_queue user (without_waiting index (queue_of users.old.items user)) users.old.items }
{
    users[user.index()].remove(index)
}

/// Sets how many cards of this user's first deck were read; with None no deck of his is current.
pub(crate) fn place_reader(users: &mut Vec<UserQueue>, user: UserNo, place: Option<usize>)
    requires { user < length users.old.items }
    ensures { users.new.items
        ≡ with_queue user (record (queue_of users.old.items user) { place = place })
        users.old.items }
{
    users[user.index()].set_place(place);
}

/// Returns the decks and the closed files of this user, who has to be there.
pub(crate) fn queue_at(users: &[UserQueue], user: UserNo) -> &UserQueue
    requires { user < length users.now }
    ensures { result.now ≡ queue_of users.now user }
{
    &users[user.index()]
}

/// Removes the file of this key if it is a deck that was given; one that a punch or a printer made
/// stays.
pub(crate) fn discard(files: &mut Slab<SpoolFile>, key: usize)
    ensures given { is_given (get files.old key) ≡ true → Updates files.old files.new key None }
    ensures made { is_given (get files.old key) ≡ false → files.new ≡ files.old }
{
    if is_given(files, key) {
        let _gone = files.try_remove(key);
    }
}

/// Returns whether the file of this key is a deck that was given; false if there is no such file.
fn is_given(files: &Slab<SpoolFile>, key: usize) -> bool
    ensures { result ≡ is_given (get files.now key) }
{
    match files.get(key) {
        Some(file) => file.is_deck(),
        None => false,
    }
}

/// Returns a new list of this many queues without files.
pub(crate) fn empty_queues(alloc: Global, count: usize) -> Result<Vec<UserQueue>, AllocError>
    ensures decks { IfOk result (λ queues. (user : ℕ) → (queue_of queues.items user).decks ≡ []) }
    ensures punched { IfOk result
        (λ queues. (user : ℕ) → (queue_of queues.items user).punched ≡ []) }
    ensures printed { IfOk result
        (λ queues. (user : ℕ) → (queue_of queues.items user).printed ≡ []) }
    ensures apart { IfOk result (λ queues. AreApart queues.items) }
    ensures files { (files : Files SpoolFileValue)
        → IfOk result (λ queues. map (user_files files) queues.items ≡ replicate count no_files) }
{
    let mut queues = Vec::with_capacity(alloc, count)?;
    for _made in 0..count {
        queues.push(UserQueue::new(alloc))?;
    }
    Ok(queues)
}
