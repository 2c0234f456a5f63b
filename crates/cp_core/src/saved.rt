//! A system as the bytes of a saved state, and back.
//!
//! Bytes are those of one system of a directory, but for the programs that it keeps
//! ([`one_by_saved`]). A system that is restored keeps its invariant whatever the bytes are.
//! Nothing else is proved of it: save it again, and compare.
ghost use Rattle.std.specs.Prelude.{◌≡◌, ◌<◌, ◌++◌, ℕ, IfOk, List, OnOk, length, map};
ghost use Rattle.std.specs.Prelude.{option_copied};
ghost use Rattle.std.specs.Prelude.{true};
ghost use Rattle.saved_bytes.specs.Codes.{each, number};
ghost use Rattle.ckd_saved.specs.Saved.{volume_bytes};
ghost use Rattle.cp_volumes.specs.Saved.{disk_bytes};
ghost use Rattle.cp_volumes.specs.Shared.{AreThere, placements_of, volume_or_none};
ghost use Rattle.machine_devices.specs.Saved.{note_bytes};
ghost use Rattle.cp_core.specs.Saved.{AreAlike, HasSameBase, IsOneBySaved, IsSaved, IsUserSaved};
ghost use Rattle.cp_core.specs.Saved.{base_of};
ghost use Rattle.cp_core.specs.Saved.{devices_part_bytes, lists_bytes, saved_user, seat_bytes};

use crate::system::System;
use crate::user_machine::UserMachine;
use ckd_saved::{put_volume, volume_of};
use ckd_volume::Volume;
use cp_spool::Queues;
use cp_volumes::{SharedDisk, Volumes};
use machine_devices::FileNote;
use machine_devices::saved::{note_of, put_note};
use s370_num::StorageKey;
use saved_bytes::{Input, RestoreError, put_flag, put_number, put_one, put_zero};
use std::alloc::{AllocError, Global};
use user_names::UserNo;

/// Appends the addresses, volumes, extents, arms and senses of these minidisks, but not their
/// cylinders, each minidisk after a byte of 1, and then a byte of 0.
fn put_minidisks(out: &mut Vec<u8>, minidisks: &[SharedDisk]) -> Result<(), AllocError>
    ensures { OnOk result (out.new.items ≡ out.old.items ++ each disk_bytes minidisks.now) }
{
    for disk in minidisks {
        put_one(out)?;
        disk.save(out)?;
    }
    put_zero(out)
}

/// Reads the arm and the sense of each of these minidisks from the input and sets them.
///
/// # Errors
///
/// `Malformed` if the input is bad, or has more or fewer.
fn restore_minidisks(
    minidisks: &mut [SharedDisk],
    input: &mut Input<'_>,
) -> Result<(), RestoreError>
    ensures { placements_of minidisks.new ≡ placements_of minidisks.old }
{
    for disk in minidisks.iter_mut() {
        if !input.flag()? {
            return Err(RestoreError::Malformed);
        }
        disk.restore(input)?;
    }
    if input.flag()? {
        Err(RestoreError::Malformed)
    } else {
        Ok(())
    }
}

/// Appends these storage keys, in order, each after a byte of 1, and then a byte of 0.
#[tactic(auto, using(saved_bytes::proofs::Codes::each_on))]
fn put_keys(out: &mut Vec<u8>, keys: &[StorageKey]) -> Result<(), AllocError>
    ensures { OnOk result (out.new.items ≡ out.old.items ++ each number keys.now) }
{
    for key in keys {
        put_one(out)?;
        put_number(out, u64::from(key.get()))?;
    }
    put_zero(out)
}

/// Reads a storage key from the input.
///
/// # Errors
///
/// `Malformed` if it is not below 32, or none.
fn key_of(input: &mut Input<'_>) -> Result<StorageKey, RestoreError> {
    let key = input.next_u8()?;
    if key < 32 {
        Ok(StorageKey::new(key))
    } else {
        Err(RestoreError::Malformed)
    }
}

/// Reads a key for each of these storage keys from the input and sets it.
///
/// # Errors
///
/// `Malformed` if the input is bad, or has more or fewer.
fn restore_keys(keys: &mut [StorageKey], input: &mut Input<'_>) -> Result<(), RestoreError>
    ensures { length keys.new ≡ length keys.old }
{
    for key in keys.iter_mut() {
        if !input.flag()? {
            return Err(RestoreError::Malformed);
        }
        *key = key_of(input)?;
    }
    if input.flag()? {
        Err(RestoreError::Malformed)
    } else {
        Ok(())
    }
}

impl UserMachine {
    /// Appends the states of the machine and of its devices, and the user's files, which are in
    /// `queues`.
    fn put_devices(&self, queues: &Queues, out: &mut Vec<u8>) -> Result<(), AllocError>
        ensures { OnOk result (out.new.items
            ≡ out.old.items ++ devices_part_bytes (saved_user queues.now self.now)) }
    {
        self.machine.save(out)?;
        self.devices.save(out)?;
        queues.save(self.devices.user(), out)
    }

    /// Appends the minidisks, without their cylinders, and the storage keys.
    fn put_lists(&self, out: &mut Vec<u8>) -> Result<(), AllocError>
        ensures { OnOk result (out.new.items
            ≡ out.old.items ++ (each disk_bytes self.now.minidisks ++ each number self.now.keys)) }
    {
        put_minidisks(out, &self.minidisks)?;
        put_keys(out, &self.keys)
    }

    /// Appends a user's machine, devices, files, minidisks and storage keys, but neither storage,
    /// nor cylinders, nor cached programs.
    fn save(&self, queues: &Queues, out: &mut Vec<u8>) -> Result<(), AllocError>
        ensures { OnOk result (out.new.items ≡ out.old.items ++ seat_bytes queues.now self.now) }
    {
        // Exhaustive: a new field fails to compile here.
        let UserMachine {
            machine: _,
            devices: _,
            minidisks: _,
            keys: _,
            reuse: _,
        } = self;
        self.put_devices(queues, out)?;
        self.put_lists(out)
    }

    /// Reads a user's machine, devices, files, minidisks and keys from the input into a machine
    /// that was never switched on.
    ///
    /// Its user, the places of its minidisks and the number of its keys stay the same, whatever the
    /// bytes are.
    ///
    /// # Errors
    ///
    /// `Malformed` if the input is bad, `Memory` if memory is refused.
    fn restore(
        &mut self,
        alloc: Global,
        queues: &mut Queues,
        input: &mut Input<'_>,
    ) -> Result<(), RestoreError>
        ensures base { base_of self.new ≡ base_of self.old }
        ensures queues { length queues.new.users ≡ length queues.old.users }
    {
        self.machine.restore(input)?;
        self.devices.restore(alloc, input)?;
        queues.restore(alloc, self.devices.user(), input)?;
        restore_minidisks(&mut self.minidisks, input)?;
        restore_keys(&mut self.keys, input)
    }
}

/// Appends these users' machines, devices, files, minidisks and storage keys, in order, each user
/// after a byte of 1, and then a byte of 0.
fn put_users(out: &mut Vec<u8>, users: &[UserMachine], queues: &Queues) -> Result<(), AllocError>
    ensures { OnOk result (out.new.items ≡ out.old.items
        ++ each (seat_bytes queues.now) users.now) }
{
    for user in users {
        put_one(out)?;
        user.save(queues, out)?;
    }
    put_zero(out)
}

/// Reads each of these users' machines, devices, files, minidisks and keys from the input.
///
/// # Errors
///
/// `Malformed` if the input is bad, or has more or fewer; `Memory` if memory is refused.
fn restore_users(
    alloc: Global,
    users: &mut [UserMachine],
    queues: &mut Queues,
    input: &mut Input<'_>,
) -> Result<(), RestoreError>
    ensures bases { map base_of users.new ≡ map base_of users.old }
    ensures queues { length queues.new.users ≡ length queues.old.users }
{
    for user in users.iter_mut() {
        if !input.flag()? {
            return Err(RestoreError::Malformed);
        }
        user.restore(alloc, queues, input)?;
    }
    if input.flag()? {
        Err(RestoreError::Malformed)
    } else {
        Ok(())
    }
}

/// Appends the user, kind and place of each of these files, in order, each file after a byte of 1,
/// and then a byte of 0.
fn put_notes(out: &mut Vec<u8>, notes: &[FileNote]) -> Result<(), AllocError>
    ensures { OnOk result (out.new.items ≡ out.old.items ++ each note_bytes notes.now) }
{
    for note in notes {
        put_one(out)?;
        put_note(out, *note)?;
    }
    put_zero(out)
}

/// Reads a list of the users, kinds and places of files from the input.
///
/// # Errors
///
/// `Malformed` if the input is bad, `Memory` if memory is refused.
fn notes_of(alloc: Global, input: &mut Input<'_>) -> Result<Vec<FileNote>, RestoreError> {
    let mut notes = Vec::new(alloc);
    for _ in 0..u64::MAX {
        if !input.flag()? {
            break;
        }
        notes.push(note_of(input)?)?;
    }
    Ok(notes)
}

/// Appends these volumes with their cylinders, in order, each after a byte of 1, and then a byte of
/// 0.
fn put_volumes(out: &mut Vec<u8>, volumes: &Volumes) -> Result<(), AllocError>
    requires { AreThere volumes.now }
    ensures { OnOk result (out.new.items ≡ out.old.items ++ each volume_bytes volumes.now) }
{
    for index in 0..volumes.count() {
        put_one(out)?;
        match volumes.volume(index) {
            Some(volume) => put_volume(out, volume)?,
            None => unreachable!(),
        }
    }
    put_zero(out)
}

/// Reads a list of volumes from the input.
///
/// # Errors
///
/// `Malformed` if the input is bad, `Memory` if memory is refused.
fn volumes_of(alloc: Global, input: &mut Input<'_>) -> Result<Vec<Volume>, RestoreError> {
    let mut volumes = Vec::new(alloc);
    for _ in 0..u64::MAX {
        if !input.flag()? {
            break;
        }
        volumes.push(volume_of(alloc, input)?)?;
    }
    Ok(volumes)
}

/// Returns whether a volume has the size and the serial number of another; false if there is no
/// other.
fn is_alike(volume: &Volume, other: Option<&Volume>) -> bool
    ensures size { result ≡ true
        → length volume.now.cylinders
        ≡ length (volume_or_none (option_copied other.entry)).cylinders }
    ensures volser { result ≡ true
        → volume.now.volser ≡ (volume_or_none (option_copied other.entry)).volser }
{
    match other {
        Some(other) => other.count() == volume.count() && other.volser() == volume.volser(),
        None => false,
    }
}

/// Returns whether volumes have the sizes and the serial numbers of others, in the same order.
fn are_alike(volumes: &[Volume], old: &Volumes) -> bool
    ensures { result ≡ true → AreAlike old.now volumes.now }
{
    if volumes.len() != old.count() {
        return false;
    }
    for index in 0..volumes.len() {
        if !is_alike(&volumes[index], old.volume(index)) {
            return false;
        }
    }
    true
}

/// Reads volumes from the input.
///
/// # Errors
///
/// `Malformed` if their sizes and serial numbers are not those of `old`, `Memory` if memory is
/// refused.
fn restored_volumes(
    alloc: Global,
    old: &Volumes,
    input: &mut Input<'_>,
) -> Result<Volumes, RestoreError>
    ensures there { IfOk result (λ made. AreThere made) }
    ensures alike { IfOk result (λ made. AreAlike old.now made) }
{
    let volumes = volumes_of(alloc, input)?;
    if !are_alike(&volumes, old) {
        return Err(RestoreError::Malformed);
    }
    Ok(Volumes::new(alloc, volumes)?)
}

impl System {
    /// Appends the state of the system: volumes, users, storage, notes of files and whether it is
    /// spent.
    ///
    /// The directory and the programs that are kept are not in them.
    ///
    /// # Errors
    ///
    /// `AllocError` if memory is refused; `out` may have a part of it then.
    pub fn save(&self, out: &mut Vec<u8>) -> Result<(), AllocError>
        ensures { OnOk result
            ((bytes : List ℕ) × IsSaved self.now bytes × (out.new.items ≡ out.old.items ++ bytes)) }
    {
        // Exhaustive: a new field fails to compile here.
        let System {
            alloc: _,
            directory: _,
            users,
            frames,
            files,
            queues,
            volumes,
            is_spent,
        } = self;
        put_volumes(out, volumes)?;
        put_users(out, users, queues)?;
        frames.save(out)?;
        put_notes(out, files)?;
        put_flag(out, *is_spent)
    }

    /// Appends what a state has of one user: his machine, devices, files, minidisks and storage
    /// keys, and after them the frames and his storage, as [`System::save`] writes them.
    ///
    /// # Errors
    ///
    /// `AllocError` if memory is refused; `out` may have a part of it then.
    pub fn save_user(&self, user: UserNo, out: &mut Vec<u8>) -> Result<(), AllocError>
        requires { user < length self.now.users }
        ensures { OnOk result
            ((bytes : List ℕ) × IsUserSaved self.now user bytes
            × (out.new.items ≡ out.old.items ++ bytes)) }
    {
        self.users[user.index()].save(&self.queues, out)?;
        self.frames.save_supply(out)?;
        self.frames.save_storage(user, out)
    }

    /// Reads a state from the input into this system, to which no event was applied, and returns
    /// it.
    ///
    /// Nothing is proved of what the bytes hold: save the system again, and compare.
    ///
    /// # Errors
    ///
    /// `Malformed` if the input has no state of such a system, `Memory` if memory is refused.
    pub fn restore(self, input: &mut Input<'_>) -> Result<System, RestoreError>
        ensures { IfOk result (λ made. HasSameBase self made) }
    {
        let System {
            alloc,
            directory,
            mut users,
            mut frames,
            files: _,
            mut queues,
            volumes,
            is_spent: _,
        } = self;
        let volumes = restored_volumes(alloc, &volumes, input)?;
        restore_users(alloc, &mut users, &mut queues, input)?;
        frames.restore(alloc, input)?;
        let files = notes_of(alloc, input)?;
        let is_spent = input.flag()?;
        Ok(System {
            alloc,
            directory,
            users,
            frames,
            files,
            queues,
            volumes,
            is_spent,
        })
    }
}

/// States that the saved bytes of two systems of one directory are equal only if the systems are,
/// except for their cached programs.
pub fn one_by_saved()
    ensures { IsOneBySaved }
{}
