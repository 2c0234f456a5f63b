//! Lines and decks, and what comes of them for others.
use crate::machines::{Beside, SideBySide, reply, same};
use crate::view::{SideError, View};
use crate::world::Others;
use bare_installation::Bare;
use cp_console::console_line::ConsoleLine;
use cp_console::responses::Response;
use cp_core::Event;
use cp_spool::SpoolFile;
use machine_devices::{
    Delivered, Delivery, Ended, LineOutcome, UserResponse, copy_of, is_logged_on,
};
use s370_num::DevAddr;
use std::alloc::{AllocError, Global};
use unit_record::{Card, Sender, Target};
use user_names::{MOST_USERS, UserNo};

/// How many lines a machine has printed, and how many files its punch and its printer have closed.
#[derive(Clone, Copy)]
struct Before {
    lines: usize,
    punched: usize,
    printed: usize,
}

impl Before {
    /// Returns how many lines, punch files and printer files a bare machine has so far.
    fn of(bare: &Bare) -> Before {
        Before {
            lines: bare.printed(),
            punched: bare.devices().punched_count(),
            printed: bare.devices().printed_count(),
        }
    }
}

/// Returns the response that a user is shown, if it is one.
fn response_of(said: &UserResponse) -> Option<Response> {
    match said {
        UserResponse::Said(response) => Some(*response),
        _ => None,
    }
}

/// Returns what a user is shown if his bare machine reports this outcome of a line and the next
/// file has this number.
fn said(reported: LineOutcome, number: u64) -> UserResponse {
    match reported {
        LineOutcome::Silent => UserResponse::Nothing,
        LineOutcome::Said(response) => UserResponse::Said(response),
        LineOutcome::Files => UserResponse::Files,
        LineOutcome::Sent(_, _) => UserResponse::Said(Response::Sent),
        LineOutcome::Closed(_) => UserResponse::Said(Response::FileClosed(number)),
        LineOutcome::LoggedOff(_) => UserResponse::Said(Response::LogoffOk),
    }
}

/// Returns a new list of whether each user's bare machine is on.
fn on_of(alloc: Global, machines: &[Beside]) -> Result<Vec<bool>, AllocError> {
    let mut on = Vec::new(alloc);
    for other_users in machines {
        on.push(is_logged_on(other_users.bare.mode()))?;
    }
    Ok(on)
}

/// Returns what a reply reports of a delivery to the user of this number; None if no user can have
/// it.
fn told_of(to: u8, what: Delivery) -> Option<Delivered> {
    if usize::from(to) >= MOST_USERS {
        return None;
    }
    let to = UserNo::new(to);
    Some(Delivered { to, what })
}

/// Returns a new list of the cards of a closed file.
fn cards_of(alloc: Global, file: &SpoolFile) -> Result<Vec<Card>, AllocError> {
    let mut cards = Vec::new(alloc);
    for index in 0..file.count() {
        if let Some(card) = file.card(index) {
            cards.push(card)?;
        }
    }
    Ok(cards)
}

impl SideBySide {
    /// Types a line of a user at the system and at his bare machine, compares the replies, and
    /// returns the response; None if there is none or it was out of frames.
    pub fn line(
        &mut self,
        alloc: Global,
        user: UserNo,
        typed: &[u8],
    ) -> Result<Option<Response>, SideError> {
        let answered = self.system.apply(&Event::Line(user, typed))?;
        if self.count_out_of_frames(answered)? {
            return Ok(None);
        }
        let before = Before::of(self.bare(user)?);
        let number = self.files.saturating_add(1);
        let reported = self.type_line(alloc, user, typed)?;
        self.delivered = self.follow(alloc, user, before, reported)?;
        let said = said(reported, number);
        let lines = self.bare(user)?.printed().saturating_sub(before.lines);
        let mut wanted = reply(Ended::Done, said, lines);
        wanted.delivered = self.delivered;
        same(answered == wanted, View::Answer)?;
        Ok(response_of(&said))
    }

    /// Types a line at the bare machine of a user, among all users, and returns its outcome.
    fn type_line(
        &mut self,
        alloc: Global,
        user: UserNo,
        typed: &[u8],
    ) -> Result<LineOutcome, SideError> {
        let on = on_of(alloc, &self.machines)?;
        let world = Others {
            users: self.system.directory().users(),
            own: user,
            on: on.as_slice(),
        };
        match self.machines.get_mut(user.index()) {
            Some(other_users) => Ok(other_users.bare.line_among(alloc, &world, typed)?),
            None => Err(SideError::NoSuchUser),
        }
    }

    /// Does what follows from a line at the bare machines: numbers the closed files, delivers the
    /// message or the punch's file to its user's machine, and returns what was delivered.
    fn follow(
        &mut self,
        alloc: Global,
        user: UserNo,
        before: Before,
        reported: LineOutcome,
    ) -> Result<Option<Delivered>, SideError> {
        if let LineOutcome::Sent(to, line) = reported {
            return self.hear(to, line);
        }
        let now = Before::of(self.bare(user)?);
        let has_punched = now.punched > before.punched;
        let number = self.files.saturating_add(1);
        self.files = self
            .files
            .saturating_add(u64::from(has_punched))
            .saturating_add(u64::from(now.printed > before.printed));
        if has_punched {
            self.send_cards(alloc, user, before.punched, number)
        } else {
            Ok(None)
        }
    }

    /// Prints a message on the console of the bare machine of the user of this number, if there is
    /// one, and returns what was delivered.
    fn hear(&mut self, to: u8, line: ConsoleLine) -> Result<Option<Delivered>, SideError> {
        match self.machines.get_mut(usize::from(to)) {
            Some(other_users) => other_users.bare.hear(line)?,
            None => return Ok(None),
        }
        Ok(told_of(to, Delivery::Message(line)))
    }

    /// Delivers a user's closed punch file of this index to its receiver's bare machine, or returns
    /// `None` if there is no such file or it is for no user.
    fn send_cards(
        &mut self,
        alloc: Global,
        user: UserNo,
        index: usize,
        number: u64,
    ) -> Result<Option<Delivered>, SideError> {
        let devices = self.bare(user)?.devices();
        let Some(file) = devices.punched(index) else {
            return Ok(None);
        };
        let Target::User(to) = file.target() else {
            return Ok(None);
        };
        let cards = cards_of(alloc, file)?;
        self.take_deck(to, number, Sender::User(user.number()), cards)
    }

    /// Appends a deck to the reader's queue of the bare machine of the user of this number, if
    /// there is one, and returns what was delivered.
    fn take_deck(
        &mut self,
        to: u8,
        number: u64,
        sender: Sender,
        cards: Vec<Card>,
    ) -> Result<Option<Delivered>, SideError> {
        match self.machines.get_mut(usize::from(to)) {
            Some(other_users) => other_users.bare.take_deck(number, sender, cards)?,
            None => return Ok(None),
        }
        Ok(told_of(to, Delivery::Deck(number)))
    }

    /// Gives a user's machine in the system and his bare one a deck of these cards of the operator,
    /// and compares the replies; without cards no deck is given.
    pub fn deck(&mut self, alloc: Global, user: UserNo, cards: &[Card]) -> Result<(), SideError> {
        // The prover finds what a reply may hold only where a function names it.
        let _device: Option<DevAddr> = None;
        let _response: Option<Response> = None;
        let answered = self.system.apply(&Event::Deck(user, cards))?;
        if self.count_out_of_frames(answered)? {
            return Err(SideError::Differs(View::Answer));
        }
        if !cards.is_empty() {
            self.files = self.files.saturating_add(1);
            let copy = copy_of(alloc, cards)?;
            self.delivered = self.take_deck(user.number(), self.files, Sender::System, copy)?;
        }
        let mut wanted = reply(Ended::Done, UserResponse::Nothing, 0);
        wanted.delivered = self.delivered;
        same(answered == wanted, View::Answer)
    }

    /// Moves the deck of this number from a user's reader to another's in the system, withdraws it
    /// from the user's bare machine and gives it to the other's, and compares the replies; a deck
    /// that does not wait is not moved.
    pub fn transfer(
        &mut self,
        alloc: Global,
        user: UserNo,
        id: u64,
        to: UserNo,
    ) -> Result<(), SideError> {
        // The prover finds what a reply may hold only where a function names it.
        let _device: Option<DevAddr> = None;
        let _response: Option<Response> = None;
        let answered = self.system.apply(&Event::Transfer(user, id, to))?;
        if self.count_out_of_frames(answered)? {
            return Err(SideError::Differs(View::Answer));
        }
        let found = match self.bare(user)?.devices().queued(id) {
            Some(deck) => Some((deck.sender(), deck.to_vec(alloc)?)),
            None => None,
        };
        self.withdraw(user, id)?;
        if let Some((sender, cards)) = found {
            self.files = self.files.saturating_add(1);
            self.delivered = self.take_deck(to.number(), self.files, sender, cards)?;
        }
        let mut wanted = reply(Ended::Done, UserResponse::Nothing, 0);
        wanted.delivered = self.delivered;
        same(answered == wanted, View::Answer)
    }

    /// Withdraws the deck of this number from the reader of a user's bare machine.
    fn withdraw(&mut self, user: UserNo, id: u64) -> Result<(), SideError> {
        match self.machines.get_mut(user.index()) {
            Some(other_users) => {
                other_users.bare.withdraw(id);
                Ok(())
            }
            None => Err(SideError::NoSuchUser),
        }
    }
}
