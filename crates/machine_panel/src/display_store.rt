//! DISPLAY and STORE.
ghost use Rattle.std.specs.Prelude.{◌≡◌, ◌*◌, ◌+◌, ◌/◌, ◌≤◌, ℕ, [], ◌∷◌, length, Result};
ghost use Rattle.s370_rows.specs.State.{state_of};
ghost use Rattle.s370_store.specs.Access.{tested};
ghost use Rattle.machine_panel.specs.DisplayStore.{Changes, Displays, displayed};

use cp_console::StoredBytes;
use cp_console::commands::{Change, DisplayItem};
use cp_console::responses::Response;
use s370_num::{Addr24, Word};
use s370_psw::{Ilc, Psw};
use s370_rows::{Cpu, reach};
use s370_store::{Access, BLOCK_SIZE, Keyed, Page, Range, Storage};

/// Returns the response with what an item holds, or that its address is past storage.
///
/// # Errors
///
/// A page that is needed and absent.
pub fn display<S: Keyed>(place: DisplayItem, cpu: &Cpu, storage: &S) -> Result<Response, Page>
    ensures { let s = state_of cpu.now (S.Storage.memory storage.now) in
        Displays place (S.Storage.present storage.now) s result }
{
    // Exhaustive: a new field fails to compile here.
    let Cpu {
        general,
        control,
        psw,
    } = cpu;
    match place {
        DisplayItem::Psw => Ok(Response::Psw(psw.to_word(0, Ilc::ZERO))),
        DisplayItem::General(register) => {
            let contents = general[register.index()];
            Ok(Response::General(register, Word::from_unsigned(contents)))
        }
        DisplayItem::Control(register) => {
            let contents = control[register.index()];
            Ok(Response::Control(register, Word::from_unsigned(contents)))
        }
        DisplayItem::Key(address) => Ok(display_key(address, cpu, storage)),
        DisplayItem::Storage(address) => display_storage(address, cpu, storage),
    }
}

/// Returns the response with the key of the block around an address, or that the address is past
/// storage.
fn display_key<S: Keyed>(address: Addr24, cpu: &Cpu, storage: &S) -> Response
    ensures { let s = state_of cpu.now (S.Storage.memory storage.now) in
        result ≡ displayed (DisplayItem.Key address) s }
{
    if address.get() >= storage.size() {
        return Response::AddressPastStorage;
    }
    Response::Key(address, storage.key_of(address.get() / BLOCK_SIZE))
}

/// Returns the response with the sixteen bytes around an address, or that the address is past
/// storage.
fn display_storage<S: Storage>(address: Addr24, cpu: &Cpu, storage: &S) -> Result<Response, Page>
    ensures { let s = state_of cpu.now (S.memory storage.now) in
        Displays (DisplayItem.Storage address) (S.present storage.now) s result }
{
    let start = address.get() / 16 * 16;
    if start + 16 > storage.size() {
        return Ok(Response::AddressPastStorage);
    }
    reach(storage, Range { start, count: 16 }, Access::Fetch)?;
    let mut bytes = [0; 16];
    storage.load(start, &mut bytes);
    Ok(Response::Storage(address, bytes))
}

/// Changes the PSW, a general register or bytes of storage as a command says, and returns the
/// response.
///
/// Bytes that do not lie in storage are not stored.
///
/// # Errors
///
/// A page that is needed and absent; nothing has changed.
pub fn change<S: Storage>(change: Change, cpu: &mut Cpu, storage: &mut S) -> Result<Response, Page>
    ensures change { let before = state_of cpu.old (S.memory storage.old) in
        let after = state_of cpu.new (S.memory storage.new) in
        Changes change (S.present storage.old) before result after }
    ensures rest { S.Keeps storage.old storage.new }
{
    match change {
        Change::Psw(word) => {
            cpu.psw = Psw::from_word(word);
            Ok(Response::Stored)
        }
        Change::General(register, contents) => {
            cpu.general[register.index()] = contents.unsigned();
            Ok(Response::Stored)
        }
        Change::Storage(address, bytes) => change_storage(address, bytes, cpu, storage),
    }
}

/// Stores bytes from an address on and returns the response, or changes nothing and returns that
/// the address is past storage.
fn change_storage<S: Storage>(
    address: Addr24,
    stored: StoredBytes,
    cpu: &Cpu,
    storage: &mut S,
) -> Result<Response, Page>
    ensures change { let before = state_of cpu.now (S.memory storage.old) in
        let after = state_of cpu.now (S.memory storage.new) in
        Changes (Change.Storage address stored) (S.present storage.old) before result after }
    ensures rest { S.Keeps storage.old storage.new }
{
    let bytes = stored.as_slice();
    let start = address.get();
    let count = bytes.len() as u32;
    if start + count > storage.size() {
        return Ok(Response::AddressPastStorage);
    }
    reach(storage, Range { start, count }, Access::Store)?;
    if count == 0 {
        return Ok(Response::Stored);
    }
    storage.store(start, bytes);
    Ok(Response::Stored)
}
