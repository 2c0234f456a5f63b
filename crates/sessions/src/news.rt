//! What the answer to a part of a script reports the users' machines: who has logged on or off, and
//! whose machine was started or stopped.
ghost use Rattle.std.specs.Prelude.{◌≡◌, ◌++◌, ◌∷◌, ◌<◌, [], IfOk, OnOk, Some, length, map};
ghost use Rattle.std.specs.Prelude.{slice_get};
ghost use Rattle.sessions.specs.News.{change_lines, changed_lines, modes_of};
ghost use Rattle.sessions.specs.Transcript.{ended};

use crate::installation::Installation;
use machine_panel::Mode;
use std::alloc::{AllocError, Global};
use user_names::UserNo;

/// Returns a new list of the mode of each user's machine.
pub(crate) fn modes<I: Installation>(
    alloc: Global,
    installation: &I,
) -> Result<Vec<Mode>, AllocError>
    ensures { IfOk result (λ modes. modes.items ≡ modes_of (I.goes.seen installation.now)) }
{
    let mut modes = Vec::new(alloc);
    for number in 0..installation.users() {
        modes.push(installation.mode(UserNo::new(number as u8)))?;
    }
    Ok(modes)
}

/// Returns the lines of who of these users has logged on or off, and whose machine was started or
/// stopped, from the old modes to the new ones, each ended by LF.
pub(crate) fn mode_change_lines(
    alloc: Global,
    names: &[Vec<u8>],
    olds: &[Mode],
    news: &[Mode],
) -> Result<Vec<u8>, AllocError>
    requires olds { length names.now ≡ length olds.now }
    requires news { length names.now ≡ length news.now }
    ensures { IfOk result (λ text. text.items
        ≡ ended (changed_lines (map (λ name. name.items) names.now) olds.now news.now)) }
{
    let mut text = Vec::new(alloc);
    for place in 0..names.len() {
        let old = mode_at(olds, place);
        let new = mode_at(news, place);
        append_change(&mut text, &names[place], old, new)?;
    }
    Ok(text)
}

/// Returns the mode at an index.
fn mode_at(modes: &[Mode], place: usize) -> Mode
    requires { place < length modes.now }
    ensures { Some result ≡ slice_get modes.now place }
{
    modes[place]
}

/// Appends the lines of whether the user of this name has logged on or off and whether his machine
/// was started or stopped, if so.
fn append_change(out: &mut Vec<u8>, name: &[u8], old: Mode, new: Mode) -> Result<(), AllocError>
    ensures { OnOk result (out.new.items ≡ out.old.items ++ ended (change_lines name.now old new)) }
{
    match (old, new) {
        (Mode::Off, Mode::Stopped) => append_mode_line(out, b"> ON ", name),
        (Mode::Off, Mode::Running) => {
            append_mode_line(out, b"> ON ", name)?;
            append_mode_line(out, b"> RUNS ", name)
        }
        (Mode::Stopped, Mode::Off) => append_mode_line(out, b"> OFF ", name),
        (Mode::Stopped, Mode::Running) => append_mode_line(out, b"> RUNS ", name),
        (Mode::Running, Mode::Off) => {
            append_mode_line(out, b"> STOPS ", name)?;
            append_mode_line(out, b"> OFF ", name)
        }
        (Mode::Running, Mode::Stopped) => append_mode_line(out, b"> STOPS ", name),
        (Mode::Off, Mode::Off) | (Mode::Stopped, Mode::Stopped) | (Mode::Running, Mode::Running) =>
            Ok(()),
    }
}

/// Appends a line with this word and a name.
fn append_mode_line(out: &mut Vec<u8>, word: &[u8], name: &[u8]) -> Result<(), AllocError>
    ensures { OnOk result (out.new.items ≡ out.old.items ++ ended ((word.now ++ name.now) ∷ [])) }
{
    out.extend_from_slice(word)?;
    out.extend_from_slice(name)?;
    out.push(b'\n')?;
    Ok(())
}
