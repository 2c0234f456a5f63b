//! A card reader that feeds from the queue of its user.
ghost use Rattle.std.specs.Prelude.{◌≡◌, ◌∷◌, [], drop, length, slice_index, true, IsOk, IfOk};
ghost use Rattle.std.specs.Prelude.{OnOk, OnErr};
ghost use Rattle.unit_record.specs.Front.{is_sense};
ghost use Rattle.unit_record.specs.Reader.{read_answer};
ghost use Rattle.cp_spool.specs.Queues.{files_of};
ghost use Rattle.cp_spool.specs.Reader.{fed_by, part_new};

use crate::progress::ReaderProgress;
use crate::queues::Queues;
use channel_trial::{DryRun, TrialSupply, TriedLoading, try_loading, try_program};
use s370_channel::Caw;
use s370_walk::{Answer, Device, Flags, Order, UnitStatus};
use std::alloc::AllocError;
use std::marker::Model;
use unit_record::{COMMAND_REJECT, INTERVENTION_REQUIRED, RECORD_LENGTH, RecordBytes};
use user_names::UserNo;

/// The command that reads a card.
const READ: u8 = 0x02;
/// The command that does nothing.
const NO_OPERATION: u8 = 0x03;
/// The command that reads the sense byte.
const SENSE: u8 = 0x04;
/// Chain data and chain command.
const CHAINING: Flags = Flags { bits: 0xC0 };

/// What a card reader keeps next to its decks: its sense byte, and the bytes that are still to be
/// given.
#[derive(Drop)]
pub struct SpoolReader {
    pub(crate) sense: u8,
    pub(crate) bytes: RecordBytes,
    pub(crate) given: usize,
}

impl Model for SpoolReader {
    ghost use Rattle.std.specs.Prelude.{drop, length, ◌≤◌};
    ghost use Rattle.cp_spool.specs.Reader.{ReaderPart};

    ghost Value = { ReaderPart };

    ghost view = { λ r. record { sense = r.sense; giving = drop r.given r.bytes } };

    ghost invariant = { λ r. r.given ≤ length r.bytes };
}

impl SpoolReader {
    /// Returns a card reader that has no sense, and no bytes to give.
    pub fn new() -> SpoolReader
        ensures { result ≡ part_new }
    {
        SpoolReader {
            sense: 0,
            bytes: RecordBytes::new(),
            given: 0,
        }
    }

    /// Returns a copy of this reader.
    fn copy(&self) -> SpoolReader
        ensures { result ≡ self.now }
    {
        SpoolReader {
            sense: self.sense,
            bytes: RecordBytes::of(self.bytes.as_slice()),
            given: self.given,
        }
    }

    /// Returns the sense byte: that of the last unit check, or zero.
    pub fn sense(&self) -> u8
        ensures { result ≡ self.now.sense }
    {
        // Exhaustive: a new field fails to compile here.
        let SpoolReader {
            sense,
            bytes: _,
            given: _,
        } = self;
        *sense
    }

    /// Sets the sense byte, for a command that is refused with a unit check.
    fn refuse(&mut self, sense: u8)
        ensures { self.new ≡ record self.old { sense = sense } }
    {
        self.sense = sense;
    }

    /// Replaces the bytes that are to be given one by one, of which none is given yet.
    fn hold(&mut self, bytes: RecordBytes)
        ensures { self.new ≡ record self.old { giving = bytes } }
    {
        self.bytes = bytes;
        self.given = 0;
    }

    /// Returns the next of the bytes to be given and moves on past it, or returns zero if none is
    /// left.
    fn give(&mut self) -> u8
        ensures byte { result ≡ slice_index self.old.giving 0 }
        ensures after { self.new ≡ record self.old { giving = drop 1 self.old.giving } }
    {
        let byte = self.bytes.byte(self.given);
        if self.given < self.bytes.len() {
            self.given += 1;
        }
        byte
    }
}

/// A card reader that feeds from the queue of one user. The queue stays as it is, and is told
/// afterwards what was read ([`Queues::remove_read`]).
#[derive(Drop)]
pub struct FedReader<'a> {
    queues: &'a Queues,
    user: UserNo,
    progress: ReaderProgress,
    reader: SpoolReader,
}

impl<'a> Model for FedReader<'a> {
    ghost use Rattle.cp_spool.specs.Queues.{files_of};
    ghost use Rattle.cp_spool.specs.Reader.{FeedState};

    ghost Value = { FeedState };

    ghost view = { λ f. record {
      decks = (files_of f.queues.now.users f.user).decks;
      ended = f.progress.ended;
      place = f.progress.place;
      part = f.reader;
    } };
}

impl<'a> Device for FedReader<'a> {
    ghost use Rattle.s370_walk.specs.Short.{nothing_needed};
    ghost use Rattle.cp_spool.specs.Reader.{feed_machine};

    ghost machine = { feed_machine };

    ghost needs_memory = { nothing_needed };

    /// Begins a read, a no-operation or a sense; refuses any other command, and a read without a
    /// card.
    ///
    /// It is never refused memory.
    fn command(&mut self, order: Order) -> Result<Answer, AllocError>
        ensures ready { IsOk result }
        ensures answer { IfOk result (λ answer. answer ≡ feed_machine.answer self.old order) }
        ensures after { OnOk result (self.new ≡ feed_machine.started self.old order) }
        ensures memory { OnErr result (self.new ≡ self.old) }
        ensures needed { OnErr result (nothing_needed self.old order ≡ true) }
    {
        Ok(match order.command.code {
            READ => self.read(),
            NO_OPERATION => Answer::Immediate,
            _ if is_sense(order) => {
                let sense = self.reader.sense();
                self.reader.hold(RecordBytes::of(&[sense]));
                Answer::Input(1)
            }
            _ => {
                self.reader.refuse(COMMAND_REJECT);
                Answer::Refused(UnitStatus::UNIT_CHECK)
            }
        })
    }

    /// Returns false: the reader gives as many bytes as it said.
    fn is_done(&self) -> bool {
        false
    }

    /// Returns the greatest number of bytes: the reader is never done before the channel is.
    fn ready(&self) -> u32 {
        u32::MAX
    }

    /// Returns the next of the bytes to be given and moves on past it, or returns zero if none is
    /// left.
    fn give(&mut self) -> u8 {
        self.reader.give()
    }

    /// Ignores a byte: no command of a reader takes any.
    fn take(&mut self, _byte: u8) {}

    /// Returns no status beyond the end of the command.
    fn finish(&mut self) -> UnitStatus {
        UnitStatus::NONE
    }
}

impl<'a> DryRun for FedReader<'a> {
    /// Makes a dry run of the program with this start on a copy of a storage, which it changes; the
    /// reader and the queue stay.
    fn dry_run<S: TrialSupply>(&self, copy: &mut S, start: Caw) -> Result<(), AllocError> {
        try_program(copy, start, &mut self.trial())
    }
}

impl<'a> TriedLoading for FedReader<'a> {
    /// Makes a dry run of the program of an initial program loading on a copy of a storage, which
    /// it changes; the reader and the queue stay.
    fn try_load<S: TrialSupply>(&self, copy: &mut S) -> Result<(), AllocError> {
        try_loading(copy, &mut self.trial())
    }
}

impl<'a> FedReader<'a> {
    ghost use Rattle.cp_spool.specs.Reader.{next_card, read_started};

    /// Returns this reader as one that feeds from the queue of this user, from his current deck on.
    pub fn new(queues: &'a Queues, user: UserNo, reader: SpoolReader) -> FedReader<'a>
        ensures { result ≡ fed_by (files_of queues.now.users user) reader }
    {
        FedReader {
            progress: ReaderProgress {
                ended: 0,
                place: queues.cards_read(user),
            },
            queues,
            user,
            reader,
        }
    }

    /// Returns a copy of this reader, which feeds from the same queue from the same place on.
    fn trial(&self) -> FedReader<'a>
        ensures { result ≡ self.now }
    {
        FedReader {
            queues: self.queues,
            user: self.user,
            progress: self.progress,
            reader: self.reader.copy(),
        }
    }

    /// Returns the reader, and how far it has read in the queue.
    pub fn into_parts(self) -> (SpoolReader, ReaderProgress)
        ensures reader { result.0 ≡ self.entry.part }
        ensures ended { result.1.ended ≡ self.entry.ended }
        ensures place { result.1.place ≡ self.entry.place }
    {
        let FedReader {
            queues: _,
            user: _,
            progress,
            reader,
        } = self;
        (reader, progress)
    }

    /// Begins to read the next card, whose 80 bytes are given then, or refuses it: at the deck's
    /// end, after which the next deck is read, or if there is no deck.
    fn read(&mut self) -> Answer
        ensures answer { result ≡ read_answer (next_card self.old) }
        ensures after { self.new ≡ read_started self.old (next_card self.old) }
    {
        let Some(deck) = self.queues.deck(self.user, self.progress.ended) else {
            self.reader.refuse(INTERVENTION_REQUIRED);
            return Answer::Refused(UnitStatus::UNIT_CHECK);
        };
        let place = self.progress.place.unwrap_or(0);
        let Some(card) = deck.card(place) else {
            self.progress.ended += 1;
            self.progress.place = None;
            return Answer::Refused(UnitStatus::UNIT_EXCEPTION);
        };
        self.reader.hold(RecordBytes::of(&card));
        self.progress.place = Some(place + 1);
        Answer::Input(80)
    }
}

/// Returns whether an order is a sense command that is the first of its program and has no chaining
/// flag.
fn is_sense(order: Order) -> bool
    ensures { result ≡ is_sense order }
{
    order.command.code == SENSE && order.first && !order.flags.has(CHAINING)
}
