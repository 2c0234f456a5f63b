//! Those who are about to log on, and who of them goes where there are too many.
ghost use Rattle.std.specs.Prelude.{◌≡◌, ◌+◌, ◌<◌, ◌≤◌, IfNone, IfSome, count_by, false, length};
ghost use Rattle.std.specs.Prelude.{true};
ghost use Rattle.std.specs.List.{All};
ghost use Rattle.logon_desk.specs.Strangers.{IsBusiest, comes_from, is_stranger, strangers_from};

use crate::connection::{Connection, Stage};

/// Returns whether there is a connection at a place, and nobody has logged on at it yet.
pub fn is_stranger(connection: &Connection) -> bool
    ensures { result ≡ is_stranger connection.now }
{
    !matches!(connection.stage, Stage::Gone | Stage::On(_))
}

/// Returns whether there is a connection from this address at which nobody has logged on yet.
fn comes_from(connection: &Connection, address: u64) -> bool
    ensures { result ≡ comes_from address connection.now }
{
    is_stranger(connection) && connection.address == address
}

/// Returns how many connections there are at which nobody has logged on yet.
pub fn strangers(connections: &[Connection]) -> usize
    ensures { result ≡ count_by is_stranger connections.now }
{
    connections
        .iter()
        .filter(|connection| is_stranger(connection))
        .count()
}

/// Returns how many connections there are from an address at which nobody has logged on yet.
fn strangers_from(connections: &[Connection], address: u64) -> usize
    ensures { result ≡ strangers_from connections.now address }
{
    connections
        .iter()
        .filter(|connection| comes_from(connection, address))
        .count()
}

/// Returns whether one who is about to log on is to be ended before the one who was found: from a
/// busier address, or from one as busy with as late a deadline or a later one.
fn goes_first(count: usize, most: usize, deadline: u64, latest: u64) -> bool
    ensures above { result ≡ true → most ≤ count }
    ensures later { result ≡ true → count ≡ most → latest ≤ deadline }
    ensures below { result ≡ false → count ≤ most }
    ensures earlier { result ≡ false → count ≡ most → deadline < latest }
{
    count > most || (count == most && deadline >= latest)
}

/// Returns a connection at which nobody has logged on yet, from the address from which most of them
/// are, if there is one; of these one with the latest deadline.
pub fn busiest(connections: &[Connection]) -> Option<usize>
    ensures within { IfSome result (λ c. c < length connections.now) }
    ensures busiest { IfSome result (λ c. IsBusiest connections.now c) }
    ensures none { IfNone result
        (All (λ connection. is_stranger connection ≡ false) connections.now) }
{
    let mut found = None;
    let mut most = 0;
    let mut latest = 0;
    for (place, connection) in connections.iter().enumerate() {
        if is_stranger(connection) {
            let count = strangers_from(connections, connection.address);
            let deadline = connection.patience.deadline;
            if goes_first(count, most, deadline, latest) {
                most = count;
                latest = deadline;
                found = Some(place);
            }
        }
    }
    found
}
