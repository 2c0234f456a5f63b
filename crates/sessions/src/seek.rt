//! Single units of a user, until one of them leaves what is sought.
ghost use Rattle.std.specs.Prelude.{◌≡◌, ◌<◌, ◌≤◌, ℕ, All, IfOk, IfSome, List, Ok, OnErr, OnOk};
ghost use Rattle.std.specs.Prelude.{drop, length, map};
ghost use Rattle.session_script.specs.Script.{IsOfUser, Run, ScriptTakesMemory, said};
ghost use Rattle.session_script.specs.Users.{KnownUser};
ghost use Rattle.sessions.specs.Installed.{machine_at};
ghost use Rattle.sessions.specs.Schedule.{IsOf, acts_of, scene};
ghost use Rattle.sessions.specs.Seek.{IsSought, IsSoughtPartly, is_found, seek_of, seek_run};
ghost use Rattle.sessions.specs.Seek.{sought_of, value_in, word_in};
ghost use Rattle.sessions.specs.Session.{Accounts, IsPartly, IsPlayed};

use crate::acts::play;
use crate::faults::PlayError;
use crate::installation::Installation;
use crate::known::read_events;
use crate::schedule::Detail;
use cp_dispatch::Policy;
use s370_num::Addr24;
use s370_num::host::HostWriter;
use session_script::{ScriptError, ScriptEvent};
use std::alloc::{AllocError, Global};
use text_words::numbers::hexadecimal_of;
use user_names::UserNo;

/// How many bytes the line has that says what is sought.
const SOUGHT_LINE: usize = 9;

/// What is sought in a user's machine.
#[derive(Clone, Copy, Debug, PartialEq, Eq)]
pub enum Sought {
    /// That its next instruction is at this address.
    Address(Addr24),
    /// That the general register of this number has another value.
    Register(u32),
    /// That the word of storage at this address has another value.
    Word(Addr24),
}

/// Who runs, for how many single units at most, and what is sought after each.
#[derive(Clone, Copy, Debug, PartialEq, Eq)]
pub struct Seek {
    /// Whose machine runs.
    pub user: UserNo,
    /// How many units it runs at most.
    pub units: u32,
    /// What is sought.
    pub sought: Sought,
}

/// Reads what a text asks for: a line that says what is sought, and the line `RUN` of a script; None
/// if it is anything else.
pub(crate) fn read_seek<I: Installation>(
    alloc: Global,
    installation: &I,
    text: &[u8],
) -> Result<Option<Seek>, AllocError>
    ensures value { IfOk result
        (λ seek. seek ≡ seek_of (I.goes.seen installation.now).users text.now) }
    ensures user { IfOk result (λ seek. IfSome seek
        (λ seek. seek.user < length (I.goes.seen installation.now).users)) }
    ensures memory { OnErr result
        (ScriptTakesMemory (I.goes.seen installation.now).users (drop 9 text.now)) }
{
    let Some(sought) = read_sought(text) else {
        return Ok(None);
    };
    match read_events(alloc, installation, &text[SOUGHT_LINE..]) {
        Ok(events) => Ok(single_run(sought, &events)),
        Err(ScriptError::Line(_)) => Ok(None),
        Err(ScriptError::Memory) => Err(AllocError),
    }
}

/// Reads the first line of a text: `I`, `G` or `W`, a blank and six hexadecimal digits.
fn read_sought(text: &[u8]) -> Option<Sought>
    ensures value { result ≡ sought_of text.now }
    ensures whole { IfSome result (λ sought. 9 ≤ length text.now) }
{
    if text.len() < SOUGHT_LINE || text[1] != b' ' || text[8] != b'\n' {
        return None;
    }
    let number = hexadecimal_of(6, 6, &text[2..8])?;
    match text[0] {
        b'I' => Some(Sought::Address(Addr24::new(number)?)),
        b'G' => Some(Sought::Register(number)),
        b'W' => Some(Sought::Word(Addr24::new(number)?)),
        _ => None,
    }
}

/// Returns the user and the units of these events, if they are one `RUN`.
fn single_run(sought: Sought, events: &[ScriptEvent<'_>]) -> Option<Seek>
    ensures value { result ≡ seek_run sought (Ok (map said events.now)) }
    ensures user { (users : List KnownUser) → All (λ e. IsOfUser users (said e)) events.now
        → IfSome result (λ seek. seek.user < length users) }
{
    let [event] = events else {
        return None;
    };
    match *event {
        ScriptEvent::Run(user, units) => Some(Seek {
            user,
            units,
            sought,
        }),
        _ => None,
    }
}

/// Returns the value of what is sought in a user's machine: an instruction address, a register or a
/// word of storage; None if the machine has no such register or word.
fn value_in<I: Installation>(installation: &I, user: UserNo, sought: Sought) -> Option<u32>
    requires { user < length (I.goes.seen installation.now).users }
    ensures { result ≡ value_in (machine_at (I.goes.seen installation.now) user) sought }
{
    match sought {
        Sought::Address(_) => Some(installation.psw(user).address().get()),
        Sought::Register(number) => installation.registers(user).get(number as usize).copied(),
        Sought::Word(address) => word_in(installation, user, address),
    }
}

/// Returns the word at an address of a user's storage; None if that ends before.
fn word_in<I: Installation>(installation: &I, user: UserNo, address: Addr24) -> Option<u32>
    requires { user < length (I.goes.seen installation.now).users }
    ensures { result
        ≡ word_in (machine_at (I.goes.seen installation.now) user).core.processor.bytes address }
{
    let address = address.get();
    let a = installation.storage_byte(user, address)?;
    let b = installation.storage_byte(user, address + 1)?;
    let c = installation.storage_byte(user, address + 2)?;
    let d = installation.storage_byte(user, address + 3)?;
    Some(u32::from_be_bytes([a, b, c, d]))
}

/// Returns whether a unit has left what is sought, where its value at first and now are these.
fn is_found(sought: Sought, first: Option<u32>, now: Option<u32>) -> bool
    ensures { result ≡ is_found sought first now }
{
    match sought {
        Sought::Address(address) => now == Some(address.get()),
        Sought::Register(_) | Sought::Word(_) => now != first,
    }
}

/// Runs single units of a user until one of them has left what is sought, or until he had as many as
/// were asked for; writes the lines of each, and returns whether what is sought was found.
pub(crate) fn seek_units<I: Installation, W: HostWriter>(
    alloc: Global,
    installation: &mut I,
    policy: &mut Policy,
    detail: Detail,
    seek: &Seek,
    writer: &mut W,
) -> Result<bool, PlayError>
    requires user { seek.now.user < length (I.goes.seen installation.old).users }
    requires dealing { IsOf (I.goes.seen installation.old) policy.old }
    ensures ok { IfOk result
        (λ found. IsSought I.goes seek.now found (scene installation.old policy.old detail)
        (scene installation.new policy.new detail) (W.contents writer.old)
        (W.contents writer.new)) }
    ensures err { OnErr result
        (IsSoughtPartly I.goes seek.now (scene installation.old policy.old detail)
        installation.new (W.contents writer.old) (W.contents writer.new)) }
    ensures why { Accounts result (I.goes.is_spent installation.old)
        (I.goes.is_spent installation.new)
        (W.HostFile.failures writer.old) (W.HostFile.failures writer.new) }
{
    let first = value_in(installation, seek.user, seek.sought);
    for _unit in 0..seek.units {
        run_unit(alloc, installation, policy, detail, seek.user, writer)?;
        let now = value_in(installation, seek.user, seek.sought);
        if is_found(seek.sought, first, now) {
            return Ok(true);
        }
    }
    Ok(false)
}

/// Runs one unit of a user, as the line `RUN` of a script does, and writes its lines.
fn run_unit<I: Installation, W: HostWriter>(
    alloc: Global,
    installation: &mut I,
    policy: &mut Policy,
    detail: Detail,
    user: UserNo,
    writer: &mut W,
) -> Result<(), PlayError>
    requires user { user < length (I.goes.seen installation.old).users }
    requires dealing { IsOf (I.goes.seen installation.old) policy.old }
    ensures ok { OnOk result
        (IsPlayed I.goes (acts_of (Run user 1)) (scene installation.old policy.old detail)
        (scene installation.new policy.new detail) (W.contents writer.old)
        (W.contents writer.new)) }
    ensures err { OnErr result
        (IsPartly I.goes (acts_of (Run user 1)) (scene installation.old policy.old detail)
        installation.new (W.contents writer.old) (W.contents writer.new)) }
    ensures why { Accounts result (I.goes.is_spent installation.old)
        (I.goes.is_spent installation.new)
        (W.HostFile.failures writer.old) (W.HostFile.failures writer.new) }
{
    play(
        alloc,
        installation,
        policy,
        detail,
        &[ScriptEvent::Run(user, 1)],
        writer,
    )
}
