//! A machine with its devices, and nobody else.
ghost use Rattle.std.specs.Prelude.{Err, IsOk, None, false, map, ◌++◌, ◌≡◌, ◌-◌, ◌<◌, ◌≤◌, ◌^◌, []};
ghost use Rattle.std.specs.Prelude.{List, Option, true, IfOk, IsSome, OnErr, OnOk, length};
ghost use Rattle.std.specs.Prelude.{slice_get};
ghost use Rattle.std.specs.Option.{option_map};
ghost use Rattle.s370_store.specs.Plain.{plain_bytes, plain_memory};
ghost use Rattle.s370_channel.specs.Reading.{as_reached};
ghost use Rattle.machine_panel.specs.Machine.{unused};
ghost use Rattle.machine_panel.specs.Ready.{is_ready};
ghost use Rattle.machine_panel.specs.Run.{notice_of, run};
ghost use Rattle.machine_panel.specs.Tick.{ticked};
ghost use Rattle.s370_subchannels.specs.Subchannels.{AreAscending};
ghost use Rattle.s370_subchannels.specs.declared.subchannel.Subchannel.{Subchannel};
ghost use Rattle.machine_devices.specs.Devices.{AreAttached, can_attach, devices_new, no_places};
ghost use Rattle.machine_devices.specs.Devices.{places_of};
ghost use Rattle.machine_devices.specs.declared.attaching.AttachError.TheVariants as errors;
ghost use Rattle.machine_devices.specs.Lent.{devices_on};
ghost use Rattle.machine_devices.specs.Notes.{next_file};
ghost use Rattle.machine_devices.specs.Replies.{given, moved};
ghost use Rattle.machine_devices.specs.Serve.{IsServedAt};
ghost use Rattle.machine_devices.specs.Spooling.{deck_queued};
ghost use Rattle.bare_installation.specs.Bare.{with_deck, with_deck_moved};
ghost use Rattle.bare_installation.specs.Life.{AttentionAgreesThroughout, EachIsLife, IsApplied};
ghost use Rattle.bare_installation.specs.Life.{LacksMemory, MayLackMemory};

use cp_console::responses::Response;
use cp_spool::Queues;
use machine_channels::{AttachedDisk, DedicatedChannels};
use machine_devices::{
    AttachError, Delivered, Delivery, Devices, Ended, Event, FileKind, FileNote, Places, Reply,
    SeenDevices, UserResponse, copy_of,
};
use machine_panel::{Machine, MachineRan, Mode};
use s370_channel::ChannelError;
use s370_intr::{Pending, RealCpu};
use s370_num::{DevAddr, StorageKey};
use s370_psw::Psw;
use s370_store::{PlainStorage, Supply};
use s370_subchannels::{Subchannel, Subchannels};
use std::alloc::{AllocError, Global};
use std::marker::Model;
use unit_record::{Card, Sender};
use user_names::UserNo;

/// One System/370 with its panel, its own storage and its devices. Its user is `BARE`.
#[derive(Drop)]
pub struct Bare {
    pub(crate) machine: Machine,
    pub(crate) devices: Devices,
    pub(crate) queues: Queues,
    pub(crate) channels: DedicatedChannels,
    pub(crate) storage: PlainStorage,
    pub(crate) files: Vec<FileNote>,
}

impl Model for Bare {
    ghost use Rattle.std.specs.Prelude.{◌≡◌, ◌<◌, ◌≤◌, length};
    ghost use Rattle.s370_store.specs.Plain.{plain_bytes, plain_memory};
    ghost use Rattle.machine_channels.specs.DedicatedChannels.{disks_of};
    ghost use Rattle.machine_devices.specs.Equipped.{equipped};
    ghost use Rattle.machine_devices.specs.Lent.{devices_on};
    ghost use Rattle.bare_installation.specs.Bare.{Bare as Whole};

    ghost Value = { Whole };

    ghost view = { λ b. record {
      equipped = equipped b.machine (devices_on b.devices b.queues) (disks_of b.channels)
          (plain_memory b.storage);
      files = b.files.items;
    } };

    ghost invariant = { λ b. (8192 ≤ length (plain_bytes b.storage))
        × (b.devices.user < length b.queues.users) × (length b.queues.users ≡ 1) };
}

impl Bare {
    /// Returns a machine that is off, with this storage, which is cleared, devices at these places
    /// and these disks.
    ///
    /// The storage has at least 8 KiB, and each device and disk has an address of its own, on one
    /// of channels 0 to 5.
    ///
    /// # Errors
    ///
    /// An `AttachError`: refused memory, or addresses that conflict.
    pub fn new(
        alloc: Global,
        storage: PlainStorage,
        places: Places,
        disks: Vec<AttachedDisk>,
    ) -> Result<Bare, AttachError>
        requires { 8192 ≤ length (plain_bytes storage) }
        ensures machine { IfOk result
            (λ bare. (subchannels : List Subchannel)
            × AreAttached (devices_new places) disks.items subchannels
            × (bare.equipped.machine ≡ unused (plain_memory storage) subchannels)) }
        ensures devices { IfOk result (λ bare. bare.equipped.devices ≡ devices_new places) }
        ensures disks { IfOk result (λ bare. bare.equipped.disks ≡ disks.items) }
        ensures files { IfOk result (λ bare. bare.files ≡ []) }
        ensures apart { IsOk result
            → can_attach (places_of places ++ map (λ disk. disk.address) disks.items) ≡ true }
        ensures address { result ≡ Err errors.Address
            → can_attach (places_of places ++ map (λ disk. disk.address) disks.items) ≡ false }
    {
        let devices = Devices::new(alloc, places, UserNo::new(0));
        let subchannels = devices.subchannels(alloc, &disks)?;
        match Queues::new(alloc, 1) {
            Ok(queues) => Ok(Bare::with_subchannels(
                alloc,
                storage,
                subchannels,
                devices,
                queues,
                disks,
            )),
            Err(_) => Err(AttachError::Memory),
        }
    }

    /// Returns a machine that is off, with this storage, which is cleared, and these devices,
    /// queues and disks, whose subchannels these have to be.
    fn with_subchannels(
        alloc: Global,
        mut storage: PlainStorage,
        subchannels: Subchannels,
        devices: Devices,
        queues: Queues,
        disks: Vec<AttachedDisk>,
    ) -> Bare
        requires size { 8192 ≤ length (plain_bytes storage) }
        requires user { devices.user < length queues.users }
        requires one { length queues.users ≡ 1 }
        ensures machine { result.equipped.machine ≡ unused (plain_memory storage) subchannels }
        ensures devices { result.equipped.devices ≡ devices_on devices queues }
        ensures disks { result.equipped.disks ≡ disks.items }
        ensures files { result.files ≡ [] }
    {
        Supply::clear(&mut storage);
        Bare {
            machine: Machine::new(alloc, subchannels),
            devices,
            queues,
            channels: DedicatedChannels::new(disks),
            storage,
            files: Vec::new(alloc),
        }
    }

    /// Returns a machine that is off, with this storage, which is cleared, and without devices.
    ///
    /// The storage has at least 8 KiB.
    ///
    /// # Errors
    ///
    /// `AllocError` if memory is refused.
    pub fn without_devices(alloc: Global, storage: PlainStorage) -> Result<Bare, AllocError>
        requires { 8192 ≤ length (plain_bytes storage) }
        ensures machine { IfOk result
            (λ bare. bare.equipped.machine ≡ unused (plain_memory storage) []) }
        ensures devices { IfOk result (λ bare. bare.equipped.devices ≡ devices_new no_places) }
        ensures disks { IfOk result (λ bare. bare.equipped.disks ≡ []) }
        ensures files { IfOk result (λ bare. bare.files ≡ []) }
    {
        let queues = Queues::new(alloc, 1)?;
        Ok(Bare::with_subchannels(
            alloc,
            storage,
            Subchannels::new(alloc),
            Devices::new(alloc, Places::NONE, UserNo::new(0)),
            queues,
            Vec::new(alloc),
        ))
    }

    /// Applies an event to the machine, whichever user it names, and returns the reply. If memory
    /// is refused, nothing is said of the machine.
    ///
    /// # Errors
    ///
    /// `AllocError` if memory is refused; what this is then is not specified.
    pub fn apply(&mut self, alloc: Global, event: &Event<'_>) -> Result<Reply, AllocError>
        ensures applied { IfOk result (λ reply. IsApplied self.old event.now reply self.new) }
        ensures memory { OnErr result (MayLackMemory self.old event.now) }
    {
        let printed = self.printed();
        match *event {
            Event::Run(_, count) => {
                let reported = self.units(count);
                Ok(self.reply(
                    printed,
                    Ended::Ran(reported.ran),
                    UserResponse::of(reported.notice),
                ))
            }
            Event::Line(_, typed) => self.line(alloc, typed),
            Event::Serve(_, device) => match self.serve(device) {
                Ok(done) => Ok(self.reply(printed, Ended::Served(done), UserResponse::Nothing)),
                Err(error) => Err(error),
            },
            Event::Tick(_) => {
                self.tick();
                Ok(self.reply(printed, Ended::Done, UserResponse::Nothing))
            }
            Event::Deck(_, cards) => self.give(alloc, cards),
            Event::Transfer(_, id, _) => self.transfer(alloc, id),
        }
    }

    /// Returns the reply to an event that ended so, shows this and delivers nothing, if the console
    /// had printed so many lines before it.
    pub(crate) fn reply(&self, printed: usize, ended: Ended, said: UserResponse) -> Reply
        ensures { result ≡ record {
          ended = ended;
          said = said;
          lines = length self.now.equipped.machine.output - printed;
          delivered = None;
        } }
    {
        Reply {
            ended,
            said,
            lines: self.printed().saturating_sub(printed),
            delivered: None,
        }
    }

    /// Numbers a copy of these cards as a deck of the operator, appends it to the queue of the
    /// reader, and returns the reply; without cards it does nothing.
    ///
    /// If memory is refused, nothing is said of the machine.
    fn give(&mut self, alloc: Global, cards: &[Card]) -> Result<Reply, AllocError>
        ensures after { OnOk result (self.new ≡ with_deck cards.now self.old) }
        ensures reply { IfOk result
            (λ reply. reply ≡ record {
              ended = Ended.Done;
              said = UserResponse.Nothing;
              lines = length self.new.equipped.machine.output - length
                  self.old.equipped.machine.output;
              delivered = given 0 (next_file self.old.files) cards.now;
            }) }
        ensures memory { OnErr result (0 < length cards.now) }
    {
        let printed = self.printed();
        let number = self.next_file();
        if cards.is_empty() {
            return Ok(self.reply(printed, Ended::Done, UserResponse::Nothing));
        }
        self.deck(copy_of(alloc, cards)?)?;
        let reply = self.reply(printed, Ended::Done, UserResponse::Nothing);
        Ok(Reply {
            delivered: Some(Delivered {
                to: UserNo::new(0),
                what: Delivery::Deck(number),
            }),
            ..reply
        })
    }

    /// Moves the deck of this number, unless it is current, to the end of the reader's queue, as a
    /// deck with the next number, and returns the reply; without such a deck it does nothing.
    ///
    /// If memory is refused, nothing is said of the machine.
    fn transfer(&mut self, alloc: Global, id: u64) -> Result<Reply, AllocError>
        ensures after { OnOk result (self.new ≡ with_deck_moved id self.old) }
        ensures reply { IfOk result
            (λ reply. reply ≡ record {
              ended = Ended.Done;
              said = UserResponse.Nothing;
              lines = length self.new.equipped.machine.output - length
                  self.old.equipped.machine.output;
              delivered = moved 0 (next_file self.old.files)
                  (deck_queued self.old.equipped.devices id);
            }) }
        ensures memory { OnErr result (IsSome (deck_queued self.old.equipped.devices id)) }
    {
        let printed = self.printed();
        let number = self.next_file();
        let devices = self.devices();
        let Some(deck) = devices.queued(id) else {
            return Ok(self.reply(printed, Ended::Done, UserResponse::Nothing));
        };
        let (sender, cards) = (deck.sender(), deck.to_vec(alloc)?);
        self.devices.purge(&mut self.queues, id);
        self.devices.deck(&mut self.queues, number, sender, cards)?;
        self.files.push(FileNote {
            user: UserNo::new(0),
            kind: FileKind::Deck,
        })?;
        let reply = self.reply(printed, Ended::Done, UserResponse::Nothing);
        Ok(Reply {
            delivered: Some(Delivered {
                to: UserNo::new(0),
                what: Delivery::Deck(number),
            }),
            ..reply
        })
    }

    /// Lets the machine run for at most so many units, and returns how many it did and why it
    /// ended. This takes no memory.
    pub fn units(&mut self, count: u32) -> MachineRan
        ensures machine { run count self.old.equipped.machine
            ≡ record {
              machine = self.new.equipped.machine;
              units = result.ran.units;
              reason = result.ran.reason;
              notice = result.notice;
            } }
        ensures notice { result.notice ≡ notice_of result.ran.reason }
        ensures devices { self.new.equipped.devices ≡ self.old.equipped.devices }
        ensures disks { self.new.equipped.disks ≡ self.old.equipped.disks }
        ensures files { self.new.files ≡ self.old.files }
    {
        let ran = self
            .machine
            .run::<RealCpu, PlainStorage>(&mut self.storage, count);
        MachineRan::reported(ran)
    }

    /// Steps the interval timer of the machine, if it runs. This takes no memory.
    pub fn tick(&mut self)
        ensures machine { self.new.equipped.machine ≡ ticked self.old.equipped.machine }
        ensures devices { self.new.equipped.devices ≡ self.old.equipped.devices }
        ensures disks { self.new.equipped.disks ≡ self.old.equipped.disks }
        ensures files { self.new.files ≡ self.old.files }
    {
        match self.machine.tick(&mut self.storage) {
            Ok(()) => {}
            // Every page of its storage is present.
            Err(_) => unreachable!(),
        }
    }

    /// Runs the channel program that was started on the device of this address, if there is one, as
    /// a whole, and makes its status pending; returns whether there was one.
    ///
    /// If memory is refused, nothing is said of the machine.
    ///
    /// # Errors
    ///
    /// `AllocError` if memory is refused; what this is then is not specified.
    pub fn serve(&mut self, device: DevAddr) -> Result<bool, AllocError>
        ensures served { IfOk result
            (λ done. IsServedAt as_reached device self.old.equipped done self.new.equipped) }
        ensures files { self.new.files ≡ self.old.files }
        ensures memory { OnErr result (LacksMemory device self.old) }
    {
        match self.devices.serve(
            &mut self.queues,
            &mut self.machine,
            &mut self.storage,
            &mut self.channels,
            device,
        ) {
            Ok(done) => Ok(done),
            Err(ChannelError::Memory) => Err(AllocError),
            // Every page of its storage is present.
            Err(ChannelError::Absent(_)) => unreachable!(),
        }
    }

    /// Numbers a deck of the operator and appends it to the queue of the reader; without cards it
    /// does nothing.
    ///
    /// If memory is refused, nothing is said of the machine.
    ///
    /// # Errors
    ///
    /// `AllocError` if memory is refused; what this is then is not specified.
    pub fn deck(&mut self, cards: Vec<Card>) -> Result<(), AllocError>
        ensures after { OnOk result (self.new ≡ with_deck cards.items self.old) }
        ensures memory { OnErr result (0 < length cards.items) }
    {
        if cards.is_empty() {
            return Ok(());
        }
        let number = self.next_file();
        self.devices
            .deck(&mut self.queues, number, Sender::System, cards)?;
        self.files.push(FileNote {
            user: UserNo::new(0),
            kind: FileKind::Deck,
        })?;
        Ok(())
    }

    /// Returns the number that the next file gets. A list ends before numbers do, so none is used
    /// again.
    pub(crate) fn next_file(&self) -> u64
        ensures value { result ≡ next_file self.now.files }
        ensures fits { result ≤ 2 ^ 63 }
    {
        self.files.len() as u64 + 1
    }

    /// Returns the general registers.
    pub fn general(&self) -> &[u32; 16]
        ensures { result.now ≡ self.now.equipped.machine.core.processor.cpu.general }
    {
        &self.machine.cpu().general
    }

    /// Returns the control registers.
    pub fn control(&self) -> &[u32; 16]
        ensures { result.now ≡ self.now.equipped.machine.core.processor.cpu.control }
    {
        &self.machine.cpu().control
    }

    /// Returns the PSW.
    pub fn psw(&self) -> Psw
        ensures { result ≡ self.now.equipped.machine.core.processor.cpu.psw }
    {
        self.machine.cpu().psw
    }

    /// Returns the bytes of the machine's storage.
    pub fn storage(&self) -> &[u8]
        ensures { result.now ≡ self.now.equipped.machine.core.processor.bytes }
    {
        self.storage.bytes()
    }

    /// Returns the storage key of a block of 2048 bytes; None past storage.
    pub fn key(&self, block: u32) -> Option<StorageKey>
        ensures { result ≡ slice_get self.now.equipped.machine.core.processor.keys block }
    {
        self.storage.keys().get(block as usize).copied()
    }

    /// Returns the subchannels of the devices, in the order of their addresses.
    pub fn subchannels(&self) -> &[Subchannel]
        ensures list { result.now ≡ self.now.equipped.machine.core.subchannels }
        ensures order { AreAscending result.now }
    {
        self.machine.subchannels()
    }

    /// Returns the external conditions that are pending.
    pub fn pending(&self) -> Pending
        ensures { result ≡ self.now.equipped.machine.core.pending }
    {
        self.machine.pending()
    }

    /// Returns whether the machine is on, and whether it runs.
    pub fn mode(&self) -> Mode
        ensures { result ≡ self.now.equipped.machine.mode }
    {
        self.machine.mode()
    }

    /// Returns whether the machine would do something with a slice of the processor.
    pub fn is_ready(&self) -> bool
        ensures { result ≡ is_ready self.now.equipped.machine }
    {
        self.machine.is_ready()
    }

    /// Returns how many lines the console has printed since they were last dropped.
    pub fn printed(&self) -> usize
        ensures { result ≡ length self.now.equipped.machine.output }
    {
        self.machine.printed()
    }

    /// Returns the text of a line that the console has printed; None past the last line.
    pub fn console_output(&self, line: usize) -> Option<&[u8]>
        ensures { option_map (λ text. text.now) result
            ≡ slice_get self.now.equipped.machine.output line }
    {
        self.machine.console_output(line)
    }
    /// Returns the devices of the machine, with their files.
    pub fn devices(&self) -> SeenDevices<'_>
        ensures { result ≡ self.now.equipped.devices }
    {
        SeenDevices::new(&self.devices, &self.queues)
    }

    /// Returns the disks of the machine, in the order in which they were attached.
    pub fn disks(&self) -> &[AttachedDisk]
        ensures { result.now ≡ self.now.equipped.disks }
    {
        self.channels.disks()
    }

    /// Returns the owner and the kind of each file, in the order of their numbers, from 1 on. All
    /// are files of user 0.
    pub fn files(&self) -> &[FileNote]
        ensures { result.now ≡ self.now.files }
    {
        self.files.as_slice()
    }
}

/// States that a machine with its devices is what its own events leave, in order, with each message
/// and each deck for its own user right after the line that sent or closed it.
pub fn each_is_life()
    ensures { EachIsLife }
{}

/// States that attention agrees with the waiting lines after any events
/// ([`machine_devices::attention_agrees`]).
pub fn attention_agrees_throughout()
    ensures { AttentionAgreesThroughout }
{}
