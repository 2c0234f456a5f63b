//! Who runs the programs of a machine's devices, and has its disks.
ghost use Rattle.std.specs.Prelude.{◌≡◌, ◌*◌, ◌<◌, ℕ, Bool, true, false, Err, List, [], length};
ghost use Rattle.std.specs.Prelude.{map, slice_get, is_ok, IfErr, IfOk, IfSome, OnErr, OnOk};
ghost use Rattle.std.specs.List.{position};
ghost use Rattle.s370_store.specs.Memory.{Memory};
ghost use Rattle.s370_channel.specs.Guest.{guest_written};
ghost use Rattle.s370_channel.specs.Loading.{MatchLoading};
ghost use Rattle.s370_channel.specs.Reading.{Reading};
ghost use Rattle.s370_channel.specs.Runs.{IsStopped, ReportsAbsent, Walks};
ghost use Rattle.s370_channel.specs.declared.running.ChannelError.TheVariants as errors;
ghost use Rattle.s370_walk.specs.Hardware.{Machine};
ghost use Rattle.machine_channels.specs.Channels.{Brings, DiskHadRoom, DiskHadRoomToLoad};
ghost use Rattle.machine_channels.specs.Channels.{DiskLoads, DiskNeeds, LacksPage, LoadNeeds};
ghost use Rattle.machine_channels.specs.Channels.{LoadsDisk, NoRoom, ProgramNeeds, RefusesWhole};
ghost use Rattle.machine_channels.specs.Channels.{StopsDisk, WalksDisk, WalksLoading};
ghost use Rattle.machine_channels.specs.Channels.{load_times, serve_times};
ghost use Rattle.machine_channels.specs.Disks.{DiskAt, cleared_disk, is_disk_at, reset_disk};
ghost use Rattle.machine_channels.specs.declared.channels.UnitRecord.{UnitRecord};
ghost use Rattle.s370_channel.specs.declared.words.Caw.{Caw};

use channel_trial::{DryRun, TriedLoading};
use s370_channel::{Caw, ChannelError};
use s370_store::Storage;
use s370_walk::Ending;

/// The disks of a machine, in the order in which they were attached.
pub trait Disks {
    /// The disks.
    ghost disks: { Self → List DiskAt };

    /// What is next to the disks stays: the other cylinders of the volumes on which they are.
    ghost KeepsOthers: { Self → Self → Type 0 };

    /// The programs that are kept of those that ran are dropped.
    ghost Forgets: { Self → Self → Type 0 };

    /// Returns the index of the first disk with this address, if there is one.
    fn disk_at(&self, device: u16) -> Option<usize>
        ensures index { result ≡ position (is_disk_at device) (disks self.now) }
        ensures inside { IfSome result (λ index. index < length (disks self.now)) };

    /// Resets the disks: they have no sense and no command under way, and their arms stay.
    fn reset_disks(&mut self)
        ensures reset { disks self.new ≡ map reset_disk (disks self.old) }
        ensures others { KeepsOthers self.old self.new }
        ensures dropped { Forgets self.old self.new };

    /// Clears the disks, as for a LOGON: they are reset, and the arms are over cylinder 0, with
    /// head 0 chosen.
    fn clear_disks(&mut self)
        ensures cleared { disks self.new ≡ map cleared_disk (disks self.old) }
        ensures others { KeepsOthers self.old self.new }
        ensures dropped { Forgets self.old self.new };

    /// All stays where nothing changes.
    ghost others_same: { (d : Self) → KeepsOthers d d };

    /// What stays twice stays.
    ghost others_on: { (d e f : Self) → KeepsOthers d e → KeepsOthers e f → KeepsOthers d f };
}

/// A device of a machine that is no disk.
#[derive(Clone, Copy, PartialEq, Eq)]
pub enum UnitRecord {
    Console,
    Reader,
    Punch,
    Printer,
}

/// The channels of a machine with this storage, which have its disks.
pub trait Channels<S: Storage>: Disks {
    /// How a program is read that begins with this storage.
    ghost reads: { Reading };

    /// Whether a program is run as a whole or not at all, with the pages that it needs: one that is
    /// refused for lack of room has done nothing. If it is not so, a program stops at the step that
    /// needs a page which is not present.
    ghost is_whole: { Bool };

    /// Which pages are held together for a program that is copied before it runs, and begins at an
    /// address of this storage.
    ghost holds: { Memory → ℕ → ℕ → Type 0 };

    /// A program may begin.
    ghost IsReady: { S → Type 0 };

    /// There is no room for this page: neither a place for it, nor one for what it would take the
    /// place of.
    ghost IsOut: { S → ℕ → Type 0 };

    /// This page is not present, and wherever one could be is one of this storage.
    ghost IsFilled: { S → ℕ → Type 0 };

    /// From one storage to the other just these pages were brought, in these units, each at most so
    /// often.
    ghost Came: { ℕ → S → List (List ℕ) → S → Type 0 };

    /// Memory was refused to a program of such a device with this start, with room for its pages:
    /// either no page has moved, or each that it needs has its place.
    ghost HadRoom: { (D : Type 0) → Machine D → S → Caw → D → S → Type 0 };

    /// The same of the program of an initial program loading.
    ghost HadRoomToLoad: { (D : Type 0) → Machine D → S → D → S → Type 0 };

    /// What is kept of a program that starts so over this storage, for a device that is no disk;
    /// whether it ran to its end.
    ghost Reuses: { Self → S → Caw → UnitRecord → Bool → Self → Type 0 };

    /// The same for the disk of this index.
    ghost ReusesDisk: { Self → S → Caw → ℕ → Bool → Self → Type 0 };

    /// Runs the program with this start for a device that is no disk, whose kind is `unit`, and
    /// returns how it ended.
    ///
    /// # Errors
    ///
    /// A `ChannelError`: refused memory that a command or the analysis needs, or an absent page.
    fn run<D: DryRun>(
        &mut self,
        storage: &mut S,
        start: Caw,
        unit: UnitRecord,
        device: &mut D,
    ) -> Result<Ending, ChannelError>
        requires { IsReady storage.old }
        ensures walk { IfOk result (λ ending. Walks reads D.Device.machine start
            (S.memory storage.old) device.old ending (S.memory storage.new) device.new) }
        ensures disks { Self.disks self.new ≡ Self.disks self.old }
        ensures stopped { is_whole ≡ false
            → IfErr result (IsStopped D.Device.machine D.Device.needs_memory (S.present storage.old)
            start (S.memory storage.old) device.old) }
        ensures whole { RefusesWhole is_whole S.memory (NoRoom IsOut IsFilled S.present)
            storage.old device.old (ProgramNeeds holds D.Device.machine start
            (S.memory storage.old) device.old) result storage.new device.new }
        ensures roomy { is_whole ≡ true → result ≡ Err errors.Memory
            → HadRoom _ D.Device.machine storage.old start device.old storage.new }
        ensures paged_in { Brings (Came serve_times) storage.old (ProgramNeeds holds
            D.Device.machine start (S.memory storage.old) device.old) storage.new }
        ensures ready { IsReady storage.new }
        ensures others { Self.KeepsOthers self.old self.new }
        ensures kept { Reuses self.old storage.old start unit (is_ok result) self.new };

    /// Runs the program with this start for the disk of this index, which is at rest after it, and
    /// returns how it ended.
    ///
    /// # Errors
    ///
    /// A `ChannelError`: refused memory that a command or the analysis needs, or an absent page.
    fn run_disk(
        &mut self,
        storage: &mut S,
        start: Caw,
        index: usize,
    ) -> Result<Ending, ChannelError>
        requires inside { index < length (Self.disks self.old) }
        requires ready { IsReady storage.old }
        ensures walk { IfOk result (λ ending. WalksDisk reads start (S.memory storage.old)
            (Self.disks self.old) index ending (S.memory storage.new) (Self.disks self.new)) }
        ensures stopped { is_whole ≡ false → IfErr result (StopsDisk (S.present storage.old) start
            (S.memory storage.old) (slice_get (Self.disks self.old) index)) }
        ensures whole { RefusesWhole is_whole S.memory (NoRoom IsOut IsFilled S.present)
            storage.old (Self.disks self.old) (DiskNeeds holds start (S.memory storage.old)
            (slice_get (Self.disks self.old) index)) result storage.new (Self.disks self.new) }
        ensures roomy { is_whole ≡ true → result ≡ Err errors.Memory
            → DiskHadRoom HadRoom storage.old start (slice_get (Self.disks self.old) index)
            storage.new }
        ensures paged_in { Brings (Came serve_times) storage.old (DiskNeeds holds start
            (S.memory storage.old) (slice_get (Self.disks self.old) index)) storage.new }
        ensures ready { IsReady storage.new }
        ensures others { Self.KeepsOthers self.old self.new }
        ensures kept { ReusesDisk self.old storage.old start index (is_ok result) self.new };

    /// Runs the program of an initial program loading for a device that is no disk, and returns how
    /// it ended.
    ///
    /// Nothing is kept of it, and what is kept of other programs stays.
    ///
    /// # Errors
    ///
    /// A `ChannelError`: refused memory that a command or the analysis needs, or an absent page.
    fn load<D: TriedLoading>(
        &mut self,
        storage: &mut S,
        device: &mut D,
    ) -> Result<Ending, ChannelError>
        requires { IsReady storage.old }
        ensures walk { IfOk result (λ ending. WalksLoading D.Device.machine
            (S.memory storage.old) device.old ending (S.memory storage.new) device.new) }
        ensures disks { Self.disks self.new ≡ Self.disks self.old }
        ensures kept { self.new ≡ self.old }
        ensures stopped { is_whole ≡ false
            → IfErr result (MatchLoading guest_written D.Device.machine D.Device.needs_memory
            (S.present storage.old) (S.memory storage.old) device.old) }
        ensures whole { RefusesWhole is_whole S.memory (NoRoom IsOut IsFilled S.present)
            storage.old device.old (LoadNeeds D.Device.machine (S.memory storage.old) device.old)
            result storage.new device.new }
        ensures roomy { is_whole ≡ true → result ≡ Err errors.Memory
            → HadRoomToLoad _ D.Device.machine storage.old device.old storage.new }
        ensures there { is_whole ≡ true → OnOk result (S.present storage.new 0 ≡ true) }
        ensures pages_unchanged { is_whole ≡ false → S.present storage.new ≡ S.present storage.old }
        ensures paged_in { Brings (Came load_times) storage.old (LoadNeeds D.Device.machine
            (S.memory storage.old) device.old) storage.new }
        ensures ready { IsReady storage.new }
        ensures others { Self.KeepsOthers self.old self.new };

    /// Resets the disks, runs the program of an initial program loading on that of this index,
    /// which is at rest after it, and returns how it ended.
    ///
    /// If that is refused for lack of room the disks aren't reset either, and what is kept of
    /// programs stays.
    ///
    /// # Errors
    ///
    /// A `ChannelError`: refused memory that a command or the analysis needs, or an absent page.
    fn load_disk(&mut self, storage: &mut S, index: usize) -> Result<Ending, ChannelError>
        requires inside { index < length (Self.disks self.old) }
        requires ready { IsReady storage.old }
        ensures walk { IfOk result (λ ending. LoadsDisk (S.memory storage.old)
            (map reset_disk (Self.disks self.old)) index ending (S.memory storage.new)
            (Self.disks self.new)) }
        ensures lacks { is_whole ≡ false → IfErr result
            (LacksPage (length (S.memory storage.old).bytes) (S.present storage.old)) }
        ensures whole { RefusesWhole is_whole S.memory (NoRoom IsOut IsFilled S.present)
            storage.old (Self.disks self.old) (DiskLoads (S.memory storage.old)
            (slice_get (map reset_disk (Self.disks self.old)) index)) result storage.new
            (Self.disks self.new) }
        ensures roomy { is_whole ≡ true → result ≡ Err errors.Memory
            → DiskHadRoomToLoad HadRoomToLoad storage.old
            (slice_get (map reset_disk (Self.disks self.old)) index) storage.new }
        ensures there { is_whole ≡ true → OnOk result (S.present storage.new 0 ≡ true) }
        ensures pages_unchanged { is_whole ≡ false → S.present storage.new ≡ S.present storage.old }
        ensures paged_in { Brings (Came load_times) storage.old (DiskLoads (S.memory storage.old)
            (slice_get (map reset_disk (Self.disks self.old)) index)) storage.new }
        ensures ready { IsReady storage.new }
        ensures others { Self.KeepsOthers self.old self.new }
        ensures dropped { OnOk result (Self.Forgets self.old self.new) }
        ensures kept { is_whole ≡ true → OnErr result (self.new ≡ self.old) };

    /// If nothing is done, nothing comes.
    ghost came_none: { (n : ℕ) (s : S) → IsReady s → Came n s [] s };

    /// What an access keeps brings nothing.
    ghost came_kept: { (n : ℕ) (s t u : S) (units : List (List ℕ)) → Came n s units t → S.Keeps t u
        → Came n s units u };

    /// An access holds nothing.
    ghost ready_kept: { (s t : S) → S.Keeps s t → IsReady s → IsReady t };

    /// A storage has always as many bytes.
    ghost came_size: { (n : ℕ) (s t : S) (units : List (List ℕ)) → Came n s units t
        → length (S.memory t).bytes ≡ length (S.memory s).bytes };

    /// No program sets a key.
    ghost came_keys: { (n : ℕ) (s t : S) (units : List (List ℕ)) → Came n s units t
        → (S.memory t).keys ≡ (S.memory s).keys };
}
