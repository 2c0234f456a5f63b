//! A directory that was read, and its users.
ghost use Rattle.std.specs.Prelude.{◌≡◌, ◌==◌, ◌<◌, ◌≤◌, ◌++◌, ◌∷◌, [], length, None, IfOk, IfSome};
ghost use Rattle.std.specs.Prelude.{MatchOption, OnErr};
ghost use Rattle.std.specs.List.{list_any};
ghost use Rattle.cp_directory.specs.Statements.{has_name};
ghost use Rattle.cp_directory.specs.Users.{AreApart, first_conflict, has_device, is_full};
ghost use Rattle.cp_directory.specs.Users.{last_user, minidisks_of};
ghost use Rattle.cp_directory.specs.Users.{new_user, with_device, with_last, with_minidisk};

use crate::devices::{DeviceKind, UserDevices};
use crate::extent::DiskExtent;
use crate::minidisk::MinidiskStatement;
use crate::name::UserName;
use crate::storage::StorageSize;
use s370_num::DevAddr;
use std::alloc::{AllocError, Global};
use std::marker::Model;
use user_names::{MOST_USERS, Named};

/// The most devices of one user.
pub const MOST_DEVICES: usize = 32;

/// A user that a directory states.
#[derive(Debug, Drop)]
pub struct User {
    name: UserName,
    storage: StorageSize,
    devices: UserDevices,
    minidisks: Vec<MinidiskStatement>,
}

impl Model for User {
    ghost use Rattle.cp_directory.specs.Users.{DirectoryUser};

    ghost Value = { DirectoryUser };

    ghost view = { λ user. record {
      name = user.name;
      pages = user.storage;
      devices = user.devices;
      minidisks = user.minidisks.items;
    } };
}

impl User {
    /// Returns a user of this name with storage of this size and no device.
    pub fn new(alloc: Global, name: UserName, storage: StorageSize) -> User
        ensures { result ≡ new_user name storage }
    {
        User {
            name,
            storage,
            devices: UserDevices::NONE,
            minidisks: Vec::new(alloc),
        }
    }

    /// Returns the characters of the user's name.
    pub fn name(&self) -> &[u8]
        ensures { result.now ≡ self.now.name }
    {
        self.name.as_bytes()
    }

    /// Returns the size of the user's storage.
    pub fn storage(&self) -> StorageSize
        ensures { result ≡ self.now.pages }
    {
        // Exhaustive: a new field fails to compile here.
        let User {
            name: _,
            storage,
            devices: _,
            minidisks: _,
        } = self;
        *storage
    }

    /// Returns the addresses of the user's console, reader, punch and printer.
    pub fn devices(&self) -> UserDevices
        ensures { result ≡ self.now.devices }
    {
        self.devices
    }

    /// Returns the minidisks, in the order of their lines.
    pub fn minidisks(&self) -> &[MinidiskStatement]
        ensures { result.now ≡ self.now.minidisks }
    {
        self.minidisks.as_slice()
    }

    /// Returns whether a device or a minidisk of the user has this address.
    pub fn has_device(&self, address: DevAddr) -> bool
        ensures { result ≡ has_device address self.now }
    {
        self.devices.has(address) || self.minidisks.iter().any(|disk| disk.address == address)
    }

    /// Returns whether the user has 32 devices and minidisks: as many as a user may have.
    pub fn is_full(&self) -> bool
        ensures { result ≡ is_full self.now }
    {
        self.minidisks.len() >= MOST_DEVICES - self.devices.count()
    }

    /// Returns the number of the line that states the first of the user's minidisks that conflicts
    /// with an extent, if one does.
    fn first_conflict(&self, extent: &DiskExtent) -> Option<usize>
        ensures { result ≡ first_conflict extent.now self.now.minidisks }
    {
        for disk in &self.minidisks {
            // Exhaustive: a new field fails to compile here.
            let MinidiskStatement {
                line,
                address: _,
                extent: other,
            } = disk;
            if extent.conflicts_with(other) {
                return Some(*line);
            }
        }
        None
    }

    /// Sets the address of the user's device of this kind, in place of one that it had.
    fn put(&mut self, kind: DeviceKind, address: DevAddr)
        ensures { self.new ≡ with_device kind address self.old }
    {
        self.devices.put(kind, address);
    }

    /// Appends a minidisk to those of the user, without any test; if the growth is refused, nothing
    /// is added.
    fn add_minidisk(&mut self, disk: MinidiskStatement) -> Result<(), AllocError>
        ensures ok { IfOk result (λ _. self.new ≡ with_minidisk disk self.old) }
        ensures err { OnErr result (self.new ≡ self.old) }
    {
        self.minidisks.push(disk)?;
        Ok(())
    }

    /// Returns whether this is the user's name.
    pub fn has_name(&self, name: &[u8]) -> bool
        ensures { result ≡ has_name name.now self.now }
    {
        self.name() == name
    }
}

impl Named for User {
    ghost name = { λ user. user.name };

    /// Returns the characters of the user's name.
    fn name(&self) -> &[u8] {
        self.name.as_bytes()
    }
}

/// The users of a directory, in the order of their lines: at most [`MOST_USERS`], no two of whose
/// minidisks conflict.
#[derive(Debug, Drop)]
pub struct Directory {
    users: Vec<User>,
}

impl Model for Directory {
    ghost use Rattle.std.specs.Prelude.{◌≤◌, List, length};
    ghost use Rattle.cp_directory.specs.Users.{AreApart, DirectoryUser};

    ghost Value = { List DirectoryUser };

    ghost view = { λ directory. directory.users.items };

    ghost invariant = { λ directory. (length directory.users.items ≤ 64)
        × AreApart directory.users.items };
}

impl Directory {
    /// Returns a directory without users.
    pub fn new(alloc: Global) -> Directory
        ensures { result ≡ [] }
    {
        Directory {
            users: Vec::new(alloc),
        }
    }

    /// Appends a user, who must not have minidisks; if the growth is refused, nothing is added.
    ///
    /// # Errors
    ///
    /// `AllocError` if memory is refused; nothing has changed.
    pub fn push(&mut self, user: User) -> Result<(), AllocError>
        requires room { length self.old < MOST_USERS }
        requires none { user.minidisks ≡ [] }
        ensures ok { IfOk result (λ _. self.new ≡ self.old ++ user ∷ []) }
        ensures err { OnErr result (self.new ≡ self.old) }
    {
        self.users.push(user)?;
        Ok(())
    }

    /// Returns the users of the directory, in the order of their lines.
    pub fn users(&self) -> &[User]
        ensures users { result.now ≡ self.now }
        ensures few { length result.now ≤ MOST_USERS }
        ensures apart { AreApart self.now }
    {
        // Exhaustive: a new field fails to compile here.
        let Directory { users } = self;
        users.as_slice()
    }

    /// Returns how many users the directory has.
    pub fn len(&self) -> usize
        ensures value { result ≡ length self.now }
        ensures few { result ≤ MOST_USERS }
    {
        self.users.len()
    }

    /// Returns whether the directory has no user.
    pub fn is_empty(&self) -> bool
        ensures { result ≡ (length self.now == 0) }
    {
        self.users.is_empty()
    }

    /// Returns the last user, if there is one: device statements belong to him.
    pub(crate) fn last(&self) -> Option<&User>
        ensures { MatchOption result (self.now ≡ [])
            (λ user. (0 < length self.now) × (user.now ≡ last_user self.now)) }
    {
        self.users.as_slice().last()
    }

    /// Sets the address of the last user's device of this kind, in place of one that it had.
    pub(crate) fn put_device(&mut self, kind: DeviceKind, address: DevAddr)
        requires { 0 < length self.old }
        ensures { self.new ≡ with_last (with_device kind address) self.old }
    {
        let last = self.users.len() - 1;
        self.users[last].put(kind, address);
    }

    /// Appends a minidisk to those of the last user; it must conflict with no other.
    ///
    /// If the growth is refused, nothing is added.
    pub(crate) fn add_minidisk(&mut self, disk: MinidiskStatement) -> Result<(), AllocError>
        requires some { 0 < length self.old }
        requires free { first_conflict disk.extent (minidisks_of self.old) ≡ None }
        ensures ok { IfOk result (λ _. self.new ≡ with_last (with_minidisk disk) self.old) }
    {
        let last = self.users.len() - 1;
        self.users[last].add_minidisk(disk)
    }

    /// Returns the number of the line that states the first minidisk of any user that conflicts
    /// with an extent, if one does.
    pub(crate) fn first_conflict(&self, extent: &DiskExtent) -> Option<usize>
        ensures { result ≡ first_conflict extent.now (minidisks_of self.now) }
    {
        for user in &self.users {
            if let Some(line) = user.first_conflict(extent) {
                return Some(line);
            }
        }
        None
    }

    /// Returns whether a user of the directory has this name.
    pub fn contains(&self, name: &[u8]) -> bool
        ensures { result ≡ list_any (has_name name.now) self.now }
    {
        self.users.iter().any(|user| user.has_name(name))
    }
}
