//! An event that happens, its lines that are written, and the serve queue after it.
ghost use Rattle.std.specs.Prelude.{◌≡◌, ◌<◌, ◌⊎◌, OnErr, OnOk, length};
ghost use Rattle.session_script.specs.Script.{IsOfDevice, IsOfUser};
ghost use Rattle.sessions.specs.Installed.{as_said};
ghost use Rattle.sessions.specs.Schedule.{line_after, user_said};
ghost use Rattle.sessions.specs.Session.{Accounts, IsAnswered, IsAnsweredPartly, IsUnanswered};

use crate::faults::PlayError;
use crate::installation::Installation;
use crate::schedule::Detail;
use crate::starts::{next_start, update_serve_queue};
use crate::transcript::print_reply;
use cp_dispatch::Policy;
use machine_devices::Event;
use s370_num::host::{HostWriter, write_all};
use std::alloc::Global;

/// Applies an event, writes the lines of its reply, removes the programs that have ended or were
/// withdrawn by it from the serve queue, and appends those that were started by it.
pub(crate) fn apply_and_queue<I: Installation, W: HostWriter>(
    alloc: Global,
    installation: &mut I,
    policy: &mut Policy,
    detail: Detail,
    event: &Event<'_>,
    writer: &mut W,
) -> Result<(), PlayError>
    requires user { IsOfUser (I.goes.seen installation.old).users (as_said event.now) }
    requires device { IsOfDevice (I.goes.seen installation.old).users (as_said event.now) }
    ensures ok { OnOk result
        (IsAnswered I.goes detail (as_said event.now) installation.old installation.new
        (W.contents writer.old) (W.contents writer.new)) }
    ensures err { OnErr result
        (IsUnanswered I.goes (as_said event.now) installation.old installation.new
        (W.contents writer.old) (W.contents writer.new)
        ⊎ IsAnsweredPartly I.goes detail (as_said event.now) installation.old installation.new
        (W.contents writer.old) (W.contents writer.new)) }
    ensures lined { OnOk result (policy.new ≡ record policy.old {
      programs = line_after (I.goes.seen installation.old) (I.goes.seen installation.new)
          (user_said (as_said event.now)) policy.old.programs;
    }) }
    ensures rest { policy.new ≡ record policy.old { programs = policy.new.programs } }
    ensures users { (I.goes.seen installation.new).users ≡ (I.goes.seen installation.old).users }
    ensures why { Accounts result (I.goes.is_spent installation.old)
        (I.goes.is_spent installation.new)
        (W.HostFile.failures writer.old) (W.HostFile.failures writer.new) }
{
    let user = event.user();
    let number = next_start(installation, user);
    let reply = installation.apply_event(alloc, event)?;
    let lines = print_reply(alloc, installation, detail, user, event, &reply)?;
    write_all(writer, &lines)?;
    update_serve_queue(alloc, installation, policy, user, number)?;
    Ok(())
}
