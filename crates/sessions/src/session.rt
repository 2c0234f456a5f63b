//! A session: from a script's bytes to a transcript's bytes.
ghost use Rattle.std.specs.Prelude.{◌≡◌, ◌⊎◌, ℕ, Bool, [], Err, OnErr, OnOk};
ghost use Rattle.std.specs.Io.KnownBytes.{Appends};
ghost use Rattle.s370_num.specs.Host.{AppendsFront};
ghost use Rattle.sessions.specs.Files.{closing_lines};
ghost use Rattle.sessions.specs.Session.{Accounts, AccountsFiles, IsCut, IsRefused, IsSession};
ghost use Rattle.sessions.specs.Transcript.{ended};
ghost use Rattle.sessions.specs.declared.schedule.Detail.TheVariants.{Whole};

use crate::acts::play;
use crate::faults::{PlayError, SessionError};
use crate::files::{Telling, operator_file_lines};
use crate::installation::Installation;
use crate::known::read_events;
use crate::schedule::{Detail, first_policy};
use s370_num::host::{HostReader, HostWriter, read_all, write_all};
use std::alloc::Global;

/// Reads a whole script, applies its events and deals its turns, writes the lines of each and at
/// the end the files for the operator, and flushes the writer; if a line of it is faulty, does
/// nothing.
///
/// When it ends well, nothing that was written is held back.
///
/// Turns are dealt among the users who are on: those who are on at first, by their numbers, and
/// after them who logs on later; and among the programs that were started, in the order of their
/// starts.
///
/// # Errors
///
/// A `SessionError`: a faulty line (then nothing has happened), refused memory, a failure of the
/// writer, or a spent installation (then a beginning is written).
///
/// # Examples
///
/// ```
/// use bare370::machine_of;
/// use s370_num::host::Bytes;
/// use sessions::session::session;
///
/// let mut machine = machine_of(alloc, 4, Vec::new(alloc))?;
/// let mut transcript = Vec::new(alloc);
/// session(alloc, &mut machine, &mut Bytes::new(b"LINE BARE LOGON\n"), &mut transcript)?;
/// assert_eq!(rt; transcript.as_slice(), b"BARE: LOGON OK\n".as_slice());
/// ```
pub fn session<I: Installation, R: HostReader, W: HostWriter>(
    alloc: Global,
    installation: &mut I,
    reader: &mut R,
    writer: &mut W,
) -> Result<(), SessionError>
    ensures ok { OnOk result
        (IsSession I.goes Whole installation.old installation.new (R.remaining reader.old)
        (R.remaining reader.new) (W.contents writer.old) (W.contents writer.new)) }
    ensures line { (n : ℕ) → result ≡ Err (SessionError.Line n)
        → IsRefused (I.goes.seen installation.old).users (R.remaining reader.old)
        (R.remaining reader.new) n }
    ensures refused { (n : ℕ) → result ≡ Err (SessionError.Line n)
        → (installation.new ≡ installation.old)
        × (writer.new ≡ writer.old) }
    ensures err { OnErr result
        (((installation.new ≡ installation.old) × (writer.new ≡ writer.old))
        ⊎ IsCut I.goes Whole installation.old installation.new (R.remaining reader.old)
        (R.remaining reader.new)
        (W.contents writer.old) (W.contents writer.new)) }
    ensures flushed { OnOk result (W.held writer.new ≡ []) }
    ensures why { AccountsFiles result (I.goes.is_spent installation.old)
        (R.HostFile.failures reader.old)
        (R.HostFile.failures reader.new) (W.HostFile.failures writer.old)
        (W.HostFile.failures writer.new) }
{
    let text = read_all(alloc, reader)?;
    let events = read_events(alloc, installation, &text)?;
    let mut policy = first_policy(alloc, installation)?;
    play(
        alloc,
        installation,
        &mut policy,
        Detail::Whole,
        &events,
        writer,
    )?;
    close(alloc, installation, writer)?;
    Ok(())
}

/// Writes the lines of all files for the operator, and flushes the writer.
fn close<I: Installation, W: HostWriter>(
    alloc: Global,
    installation: &I,
    writer: &mut W,
) -> Result<(), PlayError>
    ensures ok { OnOk result (Appends (W.contents writer.old) (W.contents writer.new)
        (ended (closing_lines (I.goes.seen installation.now)))) }
    ensures err { OnErr result (AppendsFront (W.contents writer.old) (W.contents writer.new)
        (ended (closing_lines (I.goes.seen installation.now)))) }
    ensures flushed { OnOk result (W.held writer.new ≡ []) }
    ensures why { (is : Bool) → Accounts result is is (W.HostFile.failures writer.old)
        (W.HostFile.failures writer.new) }
{
    let files = operator_file_lines(alloc, installation, Telling::Transcript, 0)?;
    write_all(writer, &files)?;
    writer.flush()?;
    Ok(())
}
