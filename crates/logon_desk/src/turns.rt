//! Whose guess goes first: of guesses at one name from one address, one is judged after another.
ghost use Rattle.std.specs.Prelude.{◌≡◌, ◌<◌, ◌^◌, length};
ghost use Rattle.std.specs.Result.{OnOk};
ghost use Rattle.logon_desk.specs.Desk.{Does, IsStep, Wakes, asking, connection_at, is_turn};
ghost use Rattle.logon_desk.specs.Turns.{goes_before, is_behind};

use crate::connection::{Connection, Stage};
use crate::desk::LogonDesk;
use crate::output::{DeskAction, Outputs};
use std::alloc::{AllocError, Global};
use terminal_lines::Guess;

/// Returns whether the guess of a connection goes before one at this name from this address that
/// waits since then: it is being judged, or has waited for longer.
fn goes_before(connection: &Connection, name: &[u8], address: u64, since: u64) -> bool
    ensures { result ≡ goes_before name.now address since connection.now }
{
    connection.address == address
        && match &connection.stage {
            Stage::Waiting(guess) => guess.name.as_slice() == name
                && connection.patience.due < since,
            Stage::Judged(guess) => guess.name.as_slice() == name,
            _ => false,
        }
}

/// Returns whether a guess of these connections goes before one at this name from this address that
/// waits since then.
pub fn is_behind(connections: &[Connection], name: &[u8], address: u64, since: u64) -> bool
    ensures { result ≡ is_behind connections.now name.now address since }
{
    connections
        .iter()
        .filter(|connection| goes_before(connection, name, address, since))
        .count()
        > 0
}

impl LogonDesk {
    /// Asks the host about the guess that waits at a connection, if it is its turn.
    pub(crate) fn ask(
        &mut self,
        alloc: Global,
        connection: usize,
        guess: &Guess,
        now: u64,
        out: &mut Outputs,
    ) -> Result<(), AllocError>
        requires within { connection < length self.old.connections }
        requires waits { (connection_at self.old connection).stage ≡ Stage.Waiting guess.now }
        requires now { now < 2 ^ 62 }
        ensures { OnOk result (IsStep self.old (Wakes connection now) out.old self.new out.new) }
    {
        if self.is_turn(connection, guess, now) {
            self.ask_host(alloc, connection, guess, now, out)
        } else {
            Ok(())
        }
    }

    /// Asks the host about the guess of a connection, which holds back the next one.
    fn ask_host(
        &mut self,
        alloc: Global,
        connection: usize,
        guess: &Guess,
        now: u64,
        out: &mut Outputs,
    ) -> Result<(), AllocError>
        requires within { connection < length self.old.connections }
        requires now { now < 2 ^ 62 }
        ensures { OnOk result (Does
            (asking self.old connection (connection_at self.old connection) guess.now now) out.old
            self.new out.new) }
    {
        let address = self.connections[connection].address;
        self.guesses
            .ask(alloc, guess.name.as_slice(), address, now)?;
        let judged = guess.copy(alloc)?;
        self.come_to(connection, Stage::Judged(judged), now);
        let asked = guess.copy(alloc)?;
        out.push(DeskAction::Asks {
            connection,
            guess: asked,
        })
    }

    /// Returns whether it is the turn of the guess of a connection: none at its name from its
    /// address is judged or has waited for longer, and the last one was long enough ago.
    fn is_turn(&self, connection: usize, guess: &Guess, now: u64) -> bool
        requires { connection < length self.now.connections }
        ensures { result ≡ is_turn self.now (connection_at self.now connection) guess.now now }
    {
        let place = &self.connections[connection];
        let name = guess.name.as_slice();
        !self.guesses.hold_back(name, place.address, now)
            && !is_behind(&self.connections, name, place.address, place.patience.due)
    }
}
