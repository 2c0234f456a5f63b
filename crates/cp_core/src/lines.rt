//! Lines of users, and decks of the operator: what comes of them for the files of all, and for
//! others.
ghost use Rattle.std.specs.Prelude.{◌≡◌, ◌<◌, ◌≤◌, ◌++◌, [], ◌∷◌, None, Some, IfOk, IsSome, OnErr};
ghost use Rattle.std.specs.Prelude.{OnOk, length, map, nat_lt, if◌then◌else◌, slice_get};
ghost use Rattle.machine_devices.specs.UserDirectory.{is_logged_on};
ghost use Rattle.machine_devices.specs.declared.event.Event.TheVariants as happening;
ghost use Rattle.machine_devices.specs.Comes.{HasClosed, NeedsMemory};
ghost use Rattle.cp_core.specs.Come.{HasReceived};
ghost use Rattle.machine_devices.specs.Coming.{comes_by_line, comes_from_operator};
ghost use Rattle.machine_devices.specs.Lines.{files_closed};
ghost use Rattle.machine_devices.specs.Notes.{next_file, noted, stands_in};
ghost use Rattle.cp_core.specs.Keeps.{EventKeeps, KeepsCutShort};
ghost use Rattle.cp_core.specs.Histories.{IsReplied};
ghost use Rattle.cp_core.specs.Memory.{IsCutShort};
ghost use Rattle.cp_core.specs.Parcels.{IsThere, contents, note_of};
ghost use Rattle.cp_volumes.specs.Shared.{IsConfined};
ghost use Rattle.cp_core.specs.System.{SystemView, logged_on_of, placements_at, user_at};
ghost use Rattle.machine_devices.specs.Replies.{receiver_of, delivered_by, delivery_to, punched};
ghost use Rattle.machine_devices.specs.Replies.{said_to_line};

use crate::delivery::Parcel;
use crate::system::System;
use crate::user_machine::UserMachine;
use crate::work::{Line, Withdrawal};
use arrayvec::ArrayVec;
use machine_devices::{
    ClosedFiles, Delivered, Delivery, Ended, FileKind, LineOutcome, Reply, UserResponse, copy_of,
    is_logged_on, said_to_line,
};
use machine_panel::LineError;
use std::alloc::AllocError;
use unit_record::{Card, Sender, Target};
use user_names::UserNo;

/// Returns a list of flags, one for each of these users: whether he is logged on.
fn logged_on_among(users: &[UserMachine]) -> ArrayVec<bool, 64>
    requires { length users.now ≤ 64 }
    ensures { result.items ≡ map (λ user. is_logged_on user.parts.mode) users.now }
{
    let mut on = ArrayVec::new();
    for user in users {
        on.push(is_logged_on(user.machine.mode()));
    }
    on
}

impl System {
    /// Does what a line asks that a user typed, numbers the files that it closed, delivers what it
    /// sends to another user, and returns the reply.
    #[inline(never)]
    pub(crate) fn line(&mut self, user: usize, typed: &[u8]) -> Result<Reply, AllocError>
        requires { user < length self.old.users }
        ensures step { IfOk result
            (λ reply. IsReplied self.old
            (record { event = happening.Line user typed.entry; reply = reply; seen = self.new })) }
        ensures cut { OnErr result
            (IsCutShort self.old (happening.Line user typed.entry) self.new) }
        ensures kept { IfOk result
            (λ reply. EventKeeps self.old (happening.Line user typed.entry) reply.ended self.new) }
        ensures kept_without_memory { OnErr result
            (KeepsCutShort self.old (happening.Line user typed.entry) self.new) }
        ensures confined { IsConfined (placements_at self.old user) self.old.volumes
            self.new.volumes }
        ensures placements { self.new.placements ≡ self.old.placements }
        ensures directory { self.new.directory ≡ self.old.directory }
        ensures spent { self.new.is_spent ≡ self.old.is_spent }
    {
        let printed = self.printed_by(user);
        let number = self.next_file();
        let line = Line {
            alloc: self.alloc,
            user: self.number_of(user),
            on: self.logged_on(),
            typed,
        };
        match self.with_user(user, &line) {
            Ok(reported) => {
                let delivered = self.follow(user, &reported)?;
                Ok(Reply {
                    ended: Ended::Done,
                    said: said_to_line(number, &reported),
                    lines: self.printed_by(user).saturating_sub(printed),
                    delivered,
                })
            }
            Err(LineError::FramesOut) => Ok(Reply::silent(Ended::FramesOut)),
            Err(LineError::Memory) => Err(AllocError),
        }
    }

    /// Returns a list of flags, one for each user: whether he is logged on.
    fn logged_on(&self) -> ArrayVec<bool, 64>
        ensures { result.items ≡ logged_on_of self.now.users }
    {
        logged_on_among(&self.users)
    }

    /// Numbers each file that a line closed, delivers the deck or the message that it sends to a
    /// user, and returns what was delivered to whom, if anything was.
    fn follow(
        &mut self,
        user: usize,
        reported: &LineOutcome,
    ) -> Result<Option<Delivered>, AllocError>
        requires { user < length self.old.users }
        ensures delivered { let before = stands_in (files_closed reported.now).punched
            (user_at self.old user).devices.punched in
            IfOk result (λ delivered. delivered ≡ delivered_by (length self.old.users)
            (next_file self.old.files) before reported.now (user_at self.old user)) }
        ensures files { OnOk result
            (self.new.files ≡ self.old.files ++ noted user (files_closed reported.now)) }
        ensures come { let before = stands_in (files_closed reported.now).punched
            (user_at self.old user).devices.punched in
            IfOk result (λ delivered.
            HasReceived (comes_by_line user before (user_at self.old user)) delivered self.old
            self.new) }
        ensures err { OnErr result (self.new.users ≡ self.old.users) }
        ensures memory { OnErr result (NeedsMemory reported.now) }
        ensures supply { self.new.supply ≡ self.old.supply }
        ensures volumes { self.new.volumes ≡ self.old.volumes }
        ensures kept { self.new.kept ≡ self.old.kept }
        ensures placements { self.new.placements ≡ self.old.placements }
        ensures directory { self.new.directory ≡ self.old.directory }
        ensures spent { self.new.is_spent ≡ self.old.is_spent }
    {
        let number = self.next_file();
        let closed = reported.closed();
        self.note_closed(user, closed)?;
        match reported {
            LineOutcome::Sent(to, line) => self.deliver_to(*to, Parcel::Message(*line)),
            _ => self.deliver_punched(user, closed.punched, number),
        }
    }

    /// Appends these closed files of a user to the list of files, that of the punch first, which
    /// numbers them.
    fn note_closed(&mut self, user: usize, closed: ClosedFiles) -> Result<(), AllocError>
        requires { user < length self.old.users }
        ensures ok { OnOk result (self.new
            ≡ record self.old { files = self.old.files ++ noted user closed }) }
        ensures err { OnErr result (self.new ≡ record self.old { files = self.new.files }) }
        ensures memory { OnErr result (HasClosed closed) }
    {
        let number = self.number_of(user);
        if let Some(place) = closed.punched {
            self.number_file(number, FileKind::Punch(place))?;
        }
        if let Some(place) = closed.printed {
            self.number_file(number, FileKind::Printer(place))?;
        }
        Ok(())
    }

    /// Appends the punch's closed file at this place, which the punch keeps, to its receiver's
    /// queue, as a deck with this number, if it is for a user; returns what was delivered.
    fn deliver_punched(
        &mut self,
        user: usize,
        place: Option<usize>,
        number: u64,
    ) -> Result<Option<Delivered>, AllocError>
        requires { user < length self.old.users }
        ensures delivered { let index = stands_in place (user_at self.old user).devices.punched in
            IfOk result (λ delivered. delivered
            ≡ punched (length self.old.users) number index (user_at self.old user)) }
        ensures come { let index = stands_in place (user_at self.old user).devices.punched in
            IfOk result (λ delivered.
            HasReceived (comes_by_line user index (user_at self.old user)) delivered self.old
            self.new) }
        ensures rest { IfOk result
            (λ delivered. self.new ≡ record self.old { users = self.new.users }) }
        ensures err { OnErr result (self.new ≡ self.old) }
        ensures memory { OnErr result (IsSome place) }
    {
        let Some(index) = place else {
            return Ok(None);
        };
        let Some(to) = self.receiver_of(user, index) else {
            return Ok(None);
        };
        let from = self.number_of(user);
        self.deliver_to(to, Parcel::File(from, index, number))
    }

    /// Returns the number of the user for whom the punch's closed file of this index is, if it is
    /// for one.
    fn receiver_of(&self, user: usize, index: usize) -> Option<u8>
        requires { user < length self.now.users }
        ensures { result ≡ receiver_of (slice_get (user_at self.now user).devices.punched index) }
    {
        match self.devices_of(user).punched(index) {
            Some(file) => match file.target() {
                Target::User(to) => Some(to),
                Target::System => None,
            },
            None => None,
        }
    }

    /// Delivers a parcel to the user of this number, if there is one, and returns what was
    /// delivered.
    fn deliver_to(&mut self, to: u8, parcel: Parcel) -> Result<Option<Delivered>, AllocError>
        requires { IsThere self.old parcel }
        ensures delivered { IfOk result
            (λ delivered. delivered ≡ delivery_to (length self.old.users) to (note_of parcel)) }
        ensures come { IfOk result
            (λ delivered. HasReceived (λ note. contents self.old parcel) delivered self.old
            self.new) }
        ensures rest { IfOk result
            (λ delivered. self.new ≡ record self.old { users = self.new.users }) }
        ensures err { OnErr result (self.new ≡ self.old) }
    {
        let place = usize::from(to);
        if place >= self.users() {
            return Ok(None);
        }
        let what = parcel.to_delivery();
        self.deliver(place, parcel)?;
        Ok(Some(Delivered {
            to: UserNo::new(to),
            what,
        }))
    }

    /// Numbers a deck of these cards of the operator, delivers it to a user's reader, and returns
    /// the reply; without cards it does nothing.
    #[inline(never)]
    pub(crate) fn deck(&mut self, user: usize, cards: &[Card]) -> Result<Reply, AllocError>
        requires { user < length self.old.users }
        ensures step { IfOk result
            (λ reply. IsReplied self.old
            (record { event = happening.Deck user cards.entry; reply = reply; seen = self.new })) }
        ensures cut { OnErr result
            (IsCutShort self.old (happening.Deck user cards.entry) self.new) }
        ensures volumes { self.new.volumes ≡ self.old.volumes }
        ensures kept { self.new.kept ≡ self.old.kept }
        ensures placements { self.new.placements ≡ self.old.placements }
        ensures directory { self.new.directory ≡ self.old.directory }
        ensures spent { self.new.is_spent ≡ self.old.is_spent }
    {
        let number = self.next_file();
        if cards.is_empty() {
            return Ok(Reply::silent(Ended::Done));
        }
        let delivered = self.give(user, number, cards)?;
        Ok(Reply {
            ended: Ended::Done,
            said: UserResponse::Nothing,
            lines: 0,
            delivered: Some(delivered),
        })
    }

    /// Numbers a copy of these cards as a deck of the operator, and appends it to a user's reader's
    /// queue; `number` has to be the next.
    fn give(&mut self, user: usize, number: u64, cards: &[Card]) -> Result<Delivered, AllocError>
        requires user { user < length self.old.users }
        requires number { number ≡ next_file self.old.files }
        ensures delivered { IfOk result
            (λ delivered. delivered ≡
            record { to = user; what = Delivery.Deck (next_file self.old.files) }) }
        ensures come { IfOk result
            (λ delivered. HasReceived (comes_from_operator cards.now) (Some delivered) self.old
            self.new) }
        ensures rest { IfOk result (λ delivered. self.new ≡ record self.old {
          users = self.new.users;
          files = self.old.files ++ record { user = user; kind = FileKind.Deck } ∷ [];
        }) }
        ensures err { OnErr result (self.new ≡ record self.old { files = self.new.files }) }
    {
        let to = self.number_of(user);
        let copy = copy_of(self.alloc, cards)?;
        self.number_file(to, FileKind::Deck)?;
        self.deliver(user, Parcel::Deck(number, Sender::System, copy))?;
        Ok(Delivered {
            to,
            what: Delivery::Deck(number),
        })
    }

    /// Moves the deck of this number, unless it is current, from a user's reader to the end of
    /// another's, as a deck with the next number, and returns the reply; without such a deck it
    /// does nothing.
    #[inline(never)]
    pub(crate) fn transfer(&mut self, user: usize, id: u64, to: usize) -> Result<Reply, AllocError>
        requires user { user < length self.old.users }
        requires to { to < length self.old.users }
        ensures step { IfOk result
            (λ reply. IsReplied self.old
            (record { event = happening.Transfer user id to; reply = reply; seen = self.new })) }
        ensures cut { OnErr result
            (IsCutShort self.old (happening.Transfer user id to) self.new) }
        ensures confined { IsConfined (placements_at self.old user) self.old.volumes
            self.new.volumes }
        ensures kept { self.new.kept ≡ self.old.kept }
        ensures placements { self.new.placements ≡ self.old.placements }
        ensures directory { self.new.directory ≡ self.old.directory }
        ensures spent { self.new.is_spent ≡ self.old.is_spent }
    {
        let number = self.next_file();
        let Some(deck) = self.devices_of(user).queued(id) else {
            return Ok(Reply::silent(Ended::Done));
        };
        let (sender, cards) = (deck.sender(), deck.to_vec(self.alloc)?);
        let receiver = self.number_of(to);
        self.number_file(receiver, FileKind::Deck)?;
        // What may be refused memory comes first: a deck is lost nowhere.
        self.deliver(to, Parcel::Deck(number, sender, cards))?;
        self.with_user(user, &Withdrawal(id));
        Ok(Reply {
            ended: Ended::Done,
            said: UserResponse::Nothing,
            lines: 0,
            delivered: Some(Delivered {
                to: receiver,
                what: Delivery::Deck(number),
            }),
        })
    }
}
