//! The system: its users, their machines with their devices, and the frames that they share.
ghost use Rattle.std.specs.Prelude.{◌≡◌, ◌<◌, ◌≤◌, ◌↔◌, [], ◌∷◌, ◌++◌, ◌^◌, Err, Some, true};
ghost use Rattle.std.specs.Prelude.{false, IsOk, IfOk, OnErr, OnOk, length, map};
ghost use Rattle.std.specs.Prelude.{option_copied, slice_get, slice_set};
ghost use Rattle.s370_channel.specs.Reading.{as_reached};
ghost use Rattle.cp_dat.specs.Supplied.{IsBetweenUnits};
ghost use Rattle.machine_devices.specs.Events.{user_of};
ghost use Rattle.machine_devices.specs.Life.{Leaves};
ghost use Rattle.machine_devices.specs.declared.reply.Ended.TheVariants.{Done};
ghost use Rattle.machine_devices.specs.Notes.{next_file};
ghost use Rattle.cp_core.specs.Histories.{EachIsBare, IsReplied};
ghost use Rattle.cp_core.specs.Applied.{IsOutOfMemory, IsRefused};
ghost use Rattle.cp_core.specs.Keeps.{EventKeeps, KeepsCutShort};
ghost use Rattle.cp_core.specs.Local.{IsApplied};
ghost use Rattle.cp_core.specs.Memory.{IsCutShort};
ghost use Rattle.cp_core.specs.Parcels.{IsThere, contents};
ghost use Rattle.cp_core.specs.Stated.{states_device};
ghost use Rattle.cp_core.specs.Supply.{IsSupplied};
ghost use Rattle.cp_volumes.specs.Shared.{IsConfined};
ghost use Rattle.cp_core.specs.System.{SystemView, kept_at, machine_at, reuses_in, placements_at};
ghost use Rattle.cp_core.specs.System.{user_at};
ghost use Rattle.cp_core.specs.LineOutcome.{IsReply};

use crate::delivery::Parcel;
use crate::events::CpError;
use crate::user_machine::UserMachine;
use crate::work::{Service, Shared, Tick, Units, UserOp, with_storage};
use ckd_volume::Volume;
use cp_directory::Directory;
use cp_frames::Frames;
use cp_spool::Queues;
use cp_volumes::Volumes;
use machine_devices::{Ended, Event, FileKind, FileNote, Reply, SeenDevices, UserResponse};
use machine_panel::{LineError, notice_of};
use s370_num::DevAddr;
use std::alloc::{AllocError, Global};
use std::marker::Model;
use user_names::UserNo;

/// Many users' machines with their devices, on shared frames.
#[derive(Drop)]
pub struct System {
    pub(crate) alloc: Global,
    pub(crate) directory: Directory,
    pub(crate) users: Vec<UserMachine>,
    pub(crate) frames: Frames,
    pub(crate) files: Vec<FileNote>,
    pub(crate) queues: Queues,
    pub(crate) volumes: Volumes,
    pub(crate) is_spent: bool,
}

impl Model for System {
    ghost use Rattle.cp_core.specs.System.{SystemView, kept_of, placements_among, users_of};
    ghost use Rattle.cp_core.specs.Owners.{AreOwners};
    ghost use Rattle.cp_core.specs.UserMachines.{seats_on};
    ghost use Rattle.cp_core.specs.Whole.{IsSystem};

    ghost Value = { SystemView };

    ghost view = { λ s. record {
      users = users_of (seats_on s.queues s.users.items) s.volumes s.frames.storages;
      directory = s.directory;
      supply = s.frames.supply;
      files = s.files.items;
      volumes = s.volumes;
      placements = placements_among (seats_on s.queues s.users.items);
      kept = kept_of (seats_on s.queues s.users.items);
      is_spent = s.is_spent;
    } };

    ghost invariant = { λ s.
        IsSystem (seats_on s.queues s.users.items) s.volumes s.frames s.directory
        × AreOwners s.users.items s.queues };
}

impl System {
    /// Returns how many users the directory has.
    pub fn users(&self) -> usize
        ensures value { result ≡ length self.now.users }
        ensures directory { result ≡ length self.now.directory }
        ensures few { result ≤ 64 }
    {
        self.users.len()
    }

    /// Returns the directory from which the system was booted.
    pub fn directory(&self) -> &Directory
        ensures { result.now ≡ self.now.directory }
    {
        &self.directory
    }

    /// Returns whether the system has run out of memory once, and so applies no more events.
    pub fn is_spent(&self) -> bool
        ensures { result ≡ self.now.is_spent }
    {
        // Exhaustive: a new field fails to compile here. Storage of guests is in the frames alone.
        let System {
            alloc: _,
            directory: _,
            users: _,
            frames: _,
            files: _,
            queues: _,
            volumes: _,
            is_spent,
        } = self;
        *is_spent
    }

    /// Returns how many pages have been paged in since boot.
    pub fn page_ins(&self) -> u64
        ensures { result ≡ self.now.supply.page_ins }
    {
        self.frames.page_ins()
    }

    /// Returns how many times a cached program of a device was run again since boot.
    ///
    /// It stays at its greatest value. Nothing is said of the work that was saved.
    pub fn reuses(&self) -> u64
        ensures { result ≡ reuses_in self.now.kept }
    {
        reuses_of(&self.users)
    }

    /// Returns the owner and the kind of each file, in the order of their numbers: the first has
    /// number 1.
    pub fn files(&self) -> &[FileNote]
        ensures { result.now ≡ self.now.files }
    {
        &self.files
    }

    /// Returns how many volumes the system was booted with.
    pub fn volumes(&self) -> usize
        ensures { result ≡ length self.now.volumes }
    {
        self.volumes.count()
    }

    /// Returns the volume of this index, if there is one, in the order of the boot, as users have
    /// written to it.
    pub fn volume(&self, index: usize) -> Option<&Volume>
        ensures { option_copied result ≡ slice_get self.now.volumes index }
    {
        self.volumes.volume(index)
    }

    /// Returns the number that the next file gets. A list ends before numbers do, so none is used
    /// again.
    pub(crate) fn next_file(&self) -> u64
        ensures value { result ≡ next_file self.now.files }
        ensures fits { result ≤ 2 ^ 63 }
        ensures between { IsBetweenUnits self.now.supply }
    {
        self.files.len() as u64 + 1
    }

    /// Marks the system as spent because memory was refused, and returns that error.
    fn spend(&mut self) -> CpError
        ensures error { result ≡ CpError.Memory }
        ensures spent { self.new ≡ record self.old { is_spent = true } }
    {
        self.is_spent = true;
        CpError::Memory
    }

    /// Returns the index of a user's machine; an error if the system is spent, or there is no such
    /// user.
    fn place_of(&self, user: UserNo) -> Result<usize, CpError>
        ensures place { IfOk result (λ place. place ≡ user) }
        ensures inside { IsOk result → user < length self.now.users }
        ensures alive { IsOk result → self.now.is_spent ≡ false }
        ensures spent { (result ≡ Err CpError.Spent) ↔ (self.now.is_spent ≡ true) }
        ensures no_such_user { (result ≡ Err CpError.NoSuchUser)
            ↔ ((self.now.is_spent ≡ false) × (length self.now.users ≤ user)) }
        ensures not_stated { result ≡ Err CpError.NoSuchUser → length self.now.directory ≤ user }
        ensures memory { result ≡ Err CpError.Memory → ⊥ }
        ensures no_device { result ≡ Err CpError.NoSuchDevice → ⊥ }
    {
        if self.is_spent() {
            return Err(CpError::Spent);
        }
        let place = user.index();
        if place >= self.users() {
            return Err(CpError::NoSuchUser);
        }
        Ok(place)
    }

    /// Returns whether the directory gives a user a device or a minidisk of this address.
    fn states_device(&self, user: usize, device: DevAddr) -> bool
        ensures { result ≡ states_device device (slice_get self.now.directory user) }
    {
        match self.directory.users().get(user) {
            Some(user) => user.has_device(device),
            None => false,
        }
    }

    /// Returns the user of this index.
    pub(crate) fn number_of(&self, user: usize) -> UserNo
        requires { user < length self.now.users }
        ensures { result ≡ user }
    {
        // There are at most 64.
        let _users = self.users();
        UserNo::new(user as u8)
    }

    /// Returns the devices of the user of this index, with their files.
    pub(crate) fn devices_of(&self, user: usize) -> SeenDevices<'_>
        requires { user < length self.now.users }
        ensures { result ≡ (user_at self.now user).devices }
    {
        SeenDevices::new(&self.users[user].devices, &self.queues)
    }

    /// Returns how many lines the console of the user of this index has printed since they were
    /// last dropped.
    pub(crate) fn printed_by(&self, user: usize) -> usize
        requires { user < length self.now.users }
        ensures { result ≡ length (machine_at self.now user).output }
    {
        self.users[user].machine.printed()
    }

    /// Does an operation with the machine of the user of this index, whose storage is borrowed from
    /// the frames, and returns its answer.
    #[inline(always)]
    pub(crate) fn with_user<W: UserOp>(&mut self, user: usize, work: &W) -> W::Answer
        requires { user < length self.old.users }
        ensures does { W.Does work.now self.old.directory user (user_at self.old user)
            self.old.supply result
            (user_at self.new user) self.new.supply }
        ensures rest { self.new ≡ record self.old {
          users = slice_set self.old.users user (user_at self.new user);
          supply = self.new.supply;
          volumes = self.new.volumes;
          kept = self.new.kept;
        } }
        ensures keeps { W.Keeps work.now user (user_at self.old user) self.old.supply result
            (kept_at self.old user) (kept_at self.new user) }
        ensures others_kept { self.new.kept ≡ slice_set self.old.kept user (kept_at self.new user) }
        ensures confined { IsConfined (placements_at self.old user) self.old.volumes
            self.new.volumes }
        ensures between_before { IsBetweenUnits self.old.supply }
        ensures between { IsBetweenUnits self.new.supply }
    {
        let number = self.number_of(user);
        let mut shared = Shared {
            user: number,
            directory: &self.directory,
            queues: &mut self.queues,
            volumes: &mut self.volumes,
            frames: &mut self.frames,
        };
        let seat = &mut self.users[user];
        // Exhaustive: a new field fails to compile here.
        let UserMachine {
            machine,
            devices,
            minidisks,
            keys,
            reuse,
        } = seat;
        with_storage(machine, devices, minidisks, keys, reuse, &mut shared, work)
    }

    /// Delivers a deck to the reader's queue of a user, or a message to the lines that his console
    /// has printed; if memory is refused, each user's machine stays.
    pub(crate) fn deliver(&mut self, to: usize, parcel: Parcel) -> Result<(), AllocError>
        requires to { to < length self.old.users }
        requires there { IsThere self.old parcel }
        ensures ok { OnOk result
            (Leaves as_reached (contents self.old parcel) (user_at self.old to)
            (user_at self.new to)) }
        ensures rest { OnOk result (self.new
            ≡ record self.old { users = slice_set self.old.users to (user_at self.new to) }) }
        ensures err { OnErr result (self.new ≡ self.old) }
    {
        self.users[to].receive(&mut self.queues, parcel)
    }

    /// Appends a file of this user and this kind to the list of files, by which it has the next
    /// number.
    pub(crate) fn number_file(&mut self, user: UserNo, kind: FileKind) -> Result<(), AllocError>
        ensures ok { OnOk result (self.new
            ≡ record self.old {
              files = self.old.files
                  ++ record { user = user; kind = kind } ∷ [];
            }) }
        ensures err { OnErr result (self.new ≡ self.old) }
    {
        self.files.push(FileNote { user, kind })?;
        Ok(())
    }

    /// Applies an event to the machine of the user whom it names, delivers what it sends to another
    /// user, and returns the reply.
    ///
    /// To the user whom it names, and to whom it delivers something, it is what happens to a
    /// machine of his own; every other user's machine stays.
    ///
    /// A system for which memory was refused is spent: from then on it answers nothing else.
    ///
    /// # Errors
    ///
    /// A `CpError`: no such user or device, a spent system, or refused memory, which ends the
    /// system.
    ///
    /// # Examples
    ///
    /// ```
    /// use cp_console::responses::Response;
    /// use cp_core::{CpError, Event, Sizes, System};
    /// use cp_directory::read_directory;
    /// use machine_devices::UserResponse;
    /// use user_names::UserNo;
    ///
    /// let directory = read_directory(alloc, b"USER A PW 8K\n")?;
    /// let sizes = Sizes::new(16, 0).ok_or("too many frames")?;
    /// let mut system = System::boot(alloc, directory, Vec::new(alloc), sizes)?;
    /// let reply = system.apply(&Event::Line(UserNo::new(0), b"LOGON"))?;
    /// assert_eq!(rt; reply.said, UserResponse::Said(Response::LogonOk));
    /// let nobody = system.apply(&Event::Tick(UserNo::new(7))).err();
    /// assert_eq!(rt; nobody, Some(CpError::NoSuchUser));
    /// ```
    #[inline(always)]
    pub fn apply(&mut self, event: &Event<'_>) -> Result<Reply, CpError>
        ensures views { IfOk result
            (λ reply. IsApplied self.old
            (record { event = event.now; reply = reply; seen = self.new })) }
        ensures reported { IfOk result
            (λ reply. IsReply self.old
            (record { event = event.now; reply = reply; seen = self.new })) }
        ensures supplied { IfOk result
            (λ reply. IsSupplied self.old event.now reply.ended self.new) }
        ensures user { IsOk result → user_of event.now < length self.old.users }
        ensures directory { self.new.directory ≡ self.old.directory }
        ensures confined { IsConfined (placements_at self.old (user_of event.now))
            self.old.volumes
            self.new.volumes }
        ensures placements { self.new.placements ≡ self.old.placements }
        ensures kept { IfOk result (λ reply. EventKeeps self.old event.now reply.ended self.new) }
        ensures alive { IsOk result → self.new.is_spent ≡ false }
        ensures refused { IsRefused self.old event.now self.new result }
        ensures out_of_memory { IsOutOfMemory self.old event.now self.new result }
    {
        // All events but a run are out of line, so that a run need not make room for them.
        match *event {
            Event::Run(user, units) => {
                let place = self.place_of(user)?;
                Ok(self.run(place, units))
            }
            Event::Line(user, typed) => {
                let place = self.place_of(user)?;
                match self.line(place, typed) {
                    Ok(reply) => Ok(reply),
                    Err(_) => Err(self.spend()),
                }
            }
            Event::Tick(user) => {
                let place = self.place_of(user)?;
                Ok(self.tick(place))
            }
            Event::Deck(user, cards) => {
                let place = self.place_of(user)?;
                match self.deck(place, cards) {
                    Ok(reply) => Ok(reply),
                    Err(_) => Err(self.spend()),
                }
            }
            Event::Serve(user, device) => {
                let place = self.place_of(user)?;
                if !self.states_device(place, device) {
                    return Err(CpError::NoSuchDevice);
                }
                match self.serve(place, device) {
                    Ok(reply) => Ok(reply),
                    Err(_) => Err(self.spend()),
                }
            }
            Event::Transfer(user, id, to) => {
                let place = self.place_of(user)?;
                let receiver = to.index();
                if receiver >= self.users() {
                    return Err(CpError::NoSuchDevice);
                }
                match self.transfer(place, id, receiver) {
                    Ok(reply) => Ok(reply),
                    Err(_) => Err(self.spend()),
                }
            }
        }
    }

    /// Lets a user's machine run for at most so many units, and returns the reply. This takes no
    /// memory.
    #[inline(always)]
    fn run(&mut self, user: usize, units: u32) -> Reply
        requires { user < length self.old.users }
        ensures step { IsReplied self.old
            (record { event = Event.Run user units; reply = result; seen = self.new }) }
        ensures directory { self.new.directory ≡ self.old.directory }
        ensures confined { IsConfined (placements_at self.old user) self.old.volumes
            self.new.volumes }
        ensures placements { self.new.placements ≡ self.old.placements }
        ensures kept { self.new.kept ≡ self.old.kept }
        ensures spent { self.new.is_spent ≡ self.old.is_spent }
    {
        let before = self.printed_by(user);
        let ran = self.with_user(user, &Units(units));
        Reply {
            ended: Ended::Ran(ran),
            said: UserResponse::of(notice_of(ran.reason)),
            lines: self.printed_by(user).saturating_sub(before),
            delivered: None,
        }
    }

    /// Steps the interval timer of a user's machine, if it runs, and returns the reply. This takes
    /// no memory.
    #[inline(never)]
    fn tick(&mut self, user: usize) -> Reply
        requires { user < length self.old.users }
        ensures step { IsReplied self.old
            (record { event = Event.Tick user; reply = result; seen = self.new }) }
        ensures directory { self.new.directory ≡ self.old.directory }
        ensures confined { IsConfined (placements_at self.old user) self.old.volumes
            self.new.volumes }
        ensures placements { self.new.placements ≡ self.old.placements }
        ensures kept { self.new.kept ≡ self.old.kept }
        ensures spent { self.new.is_spent ≡ self.old.is_spent }
    {
        match self.with_user(user, &Tick) {
            Ok(()) => Reply::silent(Ended::Done),
            Err(_) => Reply::silent(Ended::FramesOut),
        }
    }

    /// Runs the channel program that was started on a device of a user, if there is one, and
    /// returns the reply.
    #[inline(never)]
    fn serve(&mut self, user: usize, device: DevAddr) -> Result<Reply, AllocError>
        requires { user < length self.old.users }
        ensures step { IfOk result
            (λ reply. IsReplied self.old
            (record { event = Event.Serve user device; reply = reply; seen = self.new })) }
        ensures cut { OnErr result (IsCutShort self.old (Event.Serve user device) self.new) }
        ensures directory { self.new.directory ≡ self.old.directory }
        ensures confined { IsConfined (placements_at self.old user) self.old.volumes
            self.new.volumes }
        ensures placements { self.new.placements ≡ self.old.placements }
        ensures kept { IfOk result
            (λ reply. EventKeeps self.old (Event.Serve user device) reply.ended self.new) }
        ensures kept_without_memory { OnErr result
            (KeepsCutShort self.old (Event.Serve user device) self.new) }
        ensures spent { self.new.is_spent ≡ self.old.is_spent }
    {
        let before = self.printed_by(user);
        let service = Service {
            alloc: self.alloc,
            device,
        };
        match self.with_user(user, &service) {
            Ok(done) => Ok(Reply {
                ended: Ended::Served(done),
                said: UserResponse::Nothing,
                lines: self.printed_by(user).saturating_sub(before),
                delivered: None,
            }),
            Err(LineError::FramesOut) => Ok(Reply::silent(Ended::FramesOut)),
            Err(LineError::Memory) => Err(AllocError),
        }
    }
}

/// Returns the sum of how often cached programs of these users' devices were run again.
fn reuses_of(users: &[UserMachine]) -> u64
    ensures { result ≡ reuses_in (map (λ user. user.reuse) users.now) }
{
    let mut sum = 0u64;
    for user in users {
        sum = sum.saturating_add(user.reuse.reuses());
    }
    sum
}

/// States that after any events each user's machine is the bare machine that was given that user's
/// own events.
pub fn each_is_bare()
    ensures { EachIsBare }
{}
