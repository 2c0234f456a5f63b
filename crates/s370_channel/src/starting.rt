//! The test that SIO makes of a channel program (GA22-7000, "Start I/O").
ghost use Rattle.std.specs.Prelude.{◌≡◌, ℕ, ◌%◌, ◌^◌, IfOk, IfErr, length};
ghost use Rattle.s370_store.specs.Access.{IsAbsent, Touches};
ghost use Rattle.s370_walk.specs.Walk.{start_spot};
ghost use Rattle.s370_channel.specs.Words.{caw_of};
ghost use Rattle.s370_channel.specs.Start.{start_of};

use crate::judging::{Verdict, judge};
use crate::words::Caw;
use s370_store::{Page, Storage};
use s370_walk::{NextCcw, WordForm};

/// How many commands one program may start: the start of one more is a program check.
pub const MOST_COMMANDS: u32 = 65535;

/// Returns the place before the first command of a program, at which a jump is not allowed.
pub(crate) fn first_spot(at: u32) -> NextCcw
    ensures { result ≡ start_spot at }
{
    NextCcw {
        at,
        role: None,
        jumped: true,
        started: 0,
    }
}

/// Returns the start that the channel address word asks for, or `None` if that word or the first
/// command word is bad or not in storage.
///
/// `check_start(&Guest, &storage, load_word(&storage, 72))` is what SIO tests.
///
/// # Errors
///
/// A page that is needed and absent.
pub fn check_start<F: WordForm, S: Storage>(
    program: &F,
    storage: &S,
    caw: u32,
) -> Result<Option<Caw>, Page>
    ensures start { IfOk result
        (λ start. start ≡ start_of ((F.written program.now).text (S.memory storage.now))
        (caw_of caw)) }
    ensures absent { IfErr result
        (λ page. IsAbsent (length (S.memory storage.now).bytes) (S.present storage.now) page.0
        × Touches ((F.written program.now).word_asks (caw % 2 ^ 24)) page.0) }
{
    let Some(start) = Caw::from_word(caw) else {
        return Ok(None);
    };
    let at = start.address.get();
    let Some(word) = program.fetch(storage, at)? else {
        return Ok(None);
    };
    match judge(MOST_COMMANDS, &first_spot(at), &word) {
        Verdict::Good => Ok(Some(start)),
        Verdict::Jump => Ok(None),
        Verdict::Bad => Ok(None),
    }
}
