//! How guessing is slowed: each name waits for its own guesses from an address, and for no others.
ghost use Rattle.std.specs.Prelude.{◌≡◌, ◌≤◌, ◌<◌, ◌+◌, ◌^◌, [], count_by, nat_lt, position};
ghost use Rattle.std.specs.Result.{OnOk};
ghost use Rattle.logon_desk.specs.Guesses.{after_right, asked_of, guessed, holds_back, is_of};
ghost use Rattle.logon_desk.specs.Guesses.{is_over, remembered, right_after, wait_of};
ghost use Rattle.logon_desk.specs.Guesses.{with_name};

use std::alloc::{AllocError, Global};
use std::marker::Model;
use terminal_lines::Bytes;

/// The most names and addresses that are remembered at once.
pub const MOST_GUESSED: usize = 1024;

/// The milliseconds for which a guess is remembered.
pub const REMEMBERED: u64 = 10000;

/// No name remembers its guesses for longer, however many there were.
pub const LONGEST_REMEMBERED: u64 = 200_000;

/// The longest that a guess holds back the next one, in milliseconds.
pub const LONGEST_WAIT: u64 = 4000;

/// A name that was guessed at from an address.
#[derive(Drop)]
pub struct GuessedName {
    /// The name.
    pub name: Bytes,
    /// The address.
    pub address: u64,
    /// Until when the guesses are remembered.
    pub until: u64,
    /// When the host may be asked about the next one.
    pub free: u64,
}

/// The names that were guessed at lately, and from where: at most 1024. Nothing depends on whose
/// name one is, so a name that is no user's is like any other.
#[derive(Drop)]
pub struct Guesses {
    names: Vec<GuessedName>,
}

impl Model for Guesses {
    ghost use Rattle.std.specs.Prelude.{◌≤◌, List, length};
    ghost use Rattle.logon_desk.specs.declared.guesses.GuessedName.{GuessedName};

    ghost Value = { List GuessedName };

    ghost view = { λ g. g.names.items };

    ghost invariant = { λ g. length g.names.items ≤ 1024 };
}

impl Guesses {
    /// Returns a table that remembers no guess.
    pub fn new(alloc: Global) -> Guesses
        ensures { result ≡ [] }
    {
        Guesses {
            names: Vec::new(alloc),
        }
    }

    /// Returns whether guesses at a name from an address hold back the next one at this time.
    pub fn hold_back(&self, name: &[u8], address: u64, now: u64) -> bool
        ensures { result ≡ nat_lt 0 (count_by (holds_back name.now address now) self.now) }
    {
        self.names
            .iter()
            .filter(|guessed| holds_back(guessed, name, address, now))
            .count()
            > 0
    }

    /// Adds a guess about which the host is asked now, so that it holds back the next one at its
    /// name from its address.
    ///
    /// # Errors
    ///
    /// `AllocError` if memory is refused; what this is then is not specified.
    pub fn ask(
        &mut self,
        alloc: Global,
        name: &[u8],
        address: u64,
        now: u64,
    ) -> Result<(), AllocError>
        requires { now < 2 ^ 62 }
        ensures { OnOk result (self.new ≡ asked_of self.old name.now address now) }
    {
        match place_of(&self.names, name, address) {
            Some(place) => {
                self.names[place].guess(now);
                Ok(())
            }
            None => {
                let mut guessed = GuessedName {
                    name: Bytes::of(alloc, name)?,
                    address,
                    until: 0,
                    free: 0,
                };
                guessed.guess(now);
                self.add(guessed, now)
            }
        }
    }

    /// Adds a name, in the place of one that is over, or of the oldest if there are too many.
    fn add(&mut self, guessed: GuessedName, now: u64) -> Result<(), AllocError>
        ensures { OnOk result (self.new ≡ with_name self.old guessed now) }
    {
        if let Some(place) = over(&self.names, now) {
            self.names[place] = guessed;
            return Ok(());
        }
        self.names.push(guessed)?;
        if self.names.len() > MOST_GUESSED {
            self.names.remove(0);
        }
        Ok(())
    }

    /// Removes a guess, which was right, from what its name and address remember.
    pub fn remove_right_guess(&mut self, name: &[u8], address: u64, now: u64)
        requires { now < 2 ^ 62 }
        ensures { self.new ≡ after_right self.old name.now address now }
    {
        if let Some(place) = place_of(&self.names, name, address) {
            let guessed = &mut self.names[place];
            guessed.until = right_after(guessed.until, now);
        }
    }
}

impl GuessedName {
    /// Adds a guess about which the host is asked now.
    fn guess(&mut self, now: u64)
        requires { now < 2 ^ 62 }
        ensures { self.new ≡ guessed self.old now }
    {
        let owed = remembered(self.until, now);
        self.until = now + owed;
        self.free = now + wait(owed);
    }
}

/// Returns for how many milliseconds guesses are remembered with one more.
fn remembered(until: u64, now: u64) -> u64
    ensures value { result ≡ remembered until now }
    ensures bounded { result ≤ LONGEST_REMEMBERED }
{
    until
        .saturating_sub(now)
        .min(LONGEST_REMEMBERED - REMEMBERED)
        + REMEMBERED
}

/// Returns until when guesses are remembered with one fewer.
fn right_after(until: u64, now: u64) -> u64
    requires { now < 2 ^ 62 }
    ensures { result ≡ right_after until now }
{
    let owed = until.saturating_sub(now);
    if owed < REMEMBERED {
        now
    } else {
        now + (owed - REMEMBERED).min(LONGEST_REMEMBERED)
    }
}

/// Returns how many milliseconds the next guess is held back if guesses are remembered for `owed`
/// milliseconds.
fn wait(owed: u64) -> u64
    ensures value { result ≡ wait_of owed }
    ensures bounded { result ≤ LONGEST_WAIT }
{
    match owed {
        0..=4999 => 0,
        5000..=14999 => 250,
        15000..=24999 => 500,
        25000..=34999 => 1000,
        35000..=44999 => 2000,
        _ => LONGEST_WAIT,
    }
}

/// Returns the place of a name and an address among those that were guessed at, if it is there.
fn place_of(names: &[GuessedName], name: &[u8], address: u64) -> Option<usize>
    ensures { result ≡ position (is_of name.now address) names.now }
{
    names
        .iter()
        .position(|guessed| is_of(guessed, name, address))
}

/// Returns the first place whose guesses are over, if there is one.
fn over(names: &[GuessedName], now: u64) -> Option<usize>
    ensures { result ≡ position (is_over now) names.now }
{
    names.iter().position(|guessed| is_over(guessed, now))
}

/// Returns whether this is what was guessed at: this name, from this address.
fn is_of(guessed: &GuessedName, name: &[u8], address: u64) -> bool
    ensures { result ≡ is_of name.now address guessed.now }
{
    guessed.name.as_slice() == name && guessed.address == address
}

/// Returns whether nothing is remembered of these guesses any more, and they hold back none.
fn is_over(guessed: &GuessedName, now: u64) -> bool
    ensures { result ≡ is_over now guessed.now }
{
    guessed.until <= now && guessed.free <= now
}

/// Returns whether these guesses hold back the next one at this name from this address.
fn holds_back(guessed: &GuessedName, name: &[u8], address: u64, now: u64) -> bool
    ensures { result ≡ holds_back name.now address now guessed.now }
{
    is_of(guessed, name, address) && now < guessed.free
}
