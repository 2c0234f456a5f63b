//! The reader of directories: line by line, and each statement after those before it.
ghost use Rattle.std.specs.Prelude.{◌≡◌, ℕ, [], IfOk, IfErr, Ok, Err};
ghost use Rattle.text_words.specs.Lines.{lines_of};
ghost use Rattle.cp_directory.specs.Directories.{IsRefusal, MayRefuseMemory, Places, directory_of};
ghost use Rattle.cp_directory.specs.Grammar.{IsLawful, ReadsGrammar};
ghost use Rattle.cp_directory.specs.Spelled.{kilobytes, stated};
ghost use Rattle.cp_directory.specs.Statements as said;
ghost use Rattle.cp_directory.specs.Statements.{LineTakesMemory, TakesMemory};
ghost use Rattle.cp_directory.specs.Statements.{line_placed, placed};

use crate::devices::DeviceKind;
use crate::directory::{Directory, User};
use crate::extent::{DiskExtent, SpelledExtent};
use crate::faults::{DirError, LineFault, StatementError};
use crate::minidisk::MinidiskStatement;
use crate::name::UserName;
use crate::spelling::{SpelledSize, Statement, read_statement, size_of};
use s370_num::DevAddr;
use std::alloc::Global;
use text_words::lines::{is_comment, numbered_lines};
use text_words::words::next_word;
use user_names::MOST_USERS;

/// Returns the directory that a text states, or the number of its first faulty line and that line's
/// first fault.
///
/// A text outside the grammar is refused by its first faulty line and that line's first fault.
/// [`DirError::Memory`] is the answer only if a growth was refused for a user or a minidisk on a
/// line before that one. A directory has at most 64 users of different names, and of two of its
/// extents that share a cylinder both are read-only.
///
/// # Errors
///
/// A `DirError`: the first faulty line and its first fault, or refused memory.
///
/// # Examples
///
/// ```
/// use cp_directory::{DirError, read_directory};
/// use user_names::{UserNo, user_of};
///
/// let directory = read_directory(alloc, b"USER ALPHA SECRET 4M\n")?;
/// assert_eq!(rt; user_of(directory.users(), b"ALPHA"), Some(UserNo::new(0)));
/// assert_eq!(rt; directory.users()[0].storage().pages(), 1024);
/// let fault = read_directory(alloc, b"USER ALPHA SECRET 5M\n").err();
/// assert_eq!(rt; fault, Some(DirError::BadStorage(1)));
/// ```
pub fn read_directory(alloc: Global, text: &[u8]) -> Result<Directory, DirError>
    ensures ok { IfOk result (λ users. directory_of text.now ≡ Ok users) }
    ensures lawful { IfOk result IsLawful }
    ensures err { IfErr result (IsRefusal (directory_of text.now)) }
    ensures memory { result ≡ Err DirError.Memory
        → MayRefuseMemory 1 [] (lines_of text.now) }
{
    let mut directory = Directory::new(alloc);
    for line in numbered_lines(text) {
        match read_line(alloc, &mut directory, line.number, line.text) {
            Ok(()) => {}
            Err(StatementError::Memory) => return Err(DirError::Memory),
            Err(StatementError::Fault(fault)) => return Err(fault.at(line.number)),
        }
    }
    Ok(directory)
}

/// Adds what the line of this number states to the directory, or returns its first fault; a comment
/// or an empty line adds nothing.
fn read_line(
    alloc: Global,
    directory: &mut Directory,
    number: usize,
    line: &[u8],
) -> Result<(), StatementError>
    ensures places { Places (line_placed number directory.old line.now) directory.new result }
    ensures memory { result ≡ Err StatementError.Memory
        → LineTakesMemory directory.old line.now }
{
    if is_comment(line) {
        return Ok(());
    }
    let Some((verb, operands)) = next_word(line) else {
        return Ok(());
    };
    match read_statement(verb, operands) {
        Ok(statement) => place(alloc, directory, number, statement),
        Err(fault) => Err(StatementError::Fault(fault)),
    }
}

/// Adds what a statement states to the directory, or returns its first fault by what the directory
/// has.
fn place(
    alloc: Global,
    directory: &mut Directory,
    line: usize,
    statement: Statement<'_>,
) -> Result<(), StatementError>
    ensures places { Places (placed line directory.old (stated statement.entry)) directory.new
        result }
    ensures memory { result ≡ Err StatementError.Memory
        → TakesMemory directory.old (stated statement.entry) }
{
    match statement {
        Statement::User(name, size) => place_user(alloc, directory, name, size),
        Statement::Device(kind, address) => place_device(directory, kind, address),
        Statement::Minidisk(address, extent) => place_minidisk(directory, line, address, extent),
    }
}

/// Adds a user to the directory, or returns the fault: a name that is taken, a size that no user
/// may have, or too many users.
fn place_user(
    alloc: Global,
    directory: &mut Directory,
    name: UserName,
    spelled: SpelledSize<'_>,
) -> Result<(), StatementError>
    ensures places { (line : ℕ) → let user = said.User name (kilobytes spelled.entry) in
        Places (placed line directory.old user) directory.new result }
    ensures memory { result ≡ Err StatementError.Memory
        → TakesMemory directory.old (said.User name (kilobytes spelled.entry)) }
{
    if directory.contains(name.as_bytes()) {
        return Err(StatementError::Fault(LineFault::DuplicateUser));
    }
    let size = match size_of(spelled) {
        Some(size) => size,
        None => return Err(StatementError::Fault(LineFault::BadStorage)),
    };
    if directory.len() >= MOST_USERS {
        return Err(StatementError::Fault(LineFault::TooMany));
    }
    match directory.push(User::new(alloc, name, size)) {
        Ok(()) => Ok(()),
        Err(_) => Err(StatementError::Memory),
    }
}

/// Adds a device to the last user, or returns the fault: no user, an address that is taken, or too
/// many devices, or two of one kind.
fn place_device(
    directory: &mut Directory,
    kind: DeviceKind,
    address: DevAddr,
) -> Result<(), StatementError>
    ensures places { (line : ℕ) → Places (placed line directory.old (said.Device kind address))
        directory.new result }
    ensures memory { result ≡ Err StatementError.Memory
        → TakesMemory directory.old (said.Device kind address) }
{
    let Some(user) = directory.last() else {
        return Err(StatementError::Fault(LineFault::Syntax));
    };
    if user.has_device(address) {
        return Err(StatementError::Fault(LineFault::DuplicateDevice));
    }
    if user.is_full() || user.devices().place_of(kind).is_some() {
        return Err(StatementError::Fault(LineFault::TooMany));
    }
    directory.put_device(kind, address);
    Ok(())
}

/// Adds a minidisk to the last user, or returns the fault: no user, an address that is taken, a bad
/// extent, a conflict or too many devices.
fn place_minidisk(
    directory: &mut Directory,
    line: usize,
    address: DevAddr,
    spelled: SpelledExtent,
) -> Result<(), StatementError>
    ensures places { Places (placed line directory.old (said.Disk address spelled)) directory.new
        result }
    ensures memory { result ≡ Err StatementError.Memory
        → TakesMemory directory.old (said.Disk address spelled) }
{
    let Some(user) = directory.last() else {
        return Err(StatementError::Fault(LineFault::Syntax));
    };
    if user.has_device(address) {
        return Err(StatementError::Fault(LineFault::DuplicateDevice));
    }
    let is_full = user.is_full();
    let extent = match DiskExtent::new(spelled) {
        Some(extent) => extent,
        None => return Err(StatementError::Fault(LineFault::BadExtent)),
    };
    if let Some(first) = directory.first_conflict(&extent) {
        return Err(StatementError::Fault(LineFault::Overlap(first)));
    }
    if is_full {
        return Err(StatementError::Fault(LineFault::TooMany));
    }
    let disk = MinidiskStatement {
        line,
        address,
        extent,
    };
    match directory.add_minidisk(disk) {
        Ok(()) => Ok(()),
        Err(_) => Err(StatementError::Memory),
    }
}

/// States that [`read_directory`] reads exactly the texts of the grammar, and always reports the
/// first fault of the first faulty line of any other text.
pub fn reads_grammar()
    ensures { ReadsGrammar }
{}
