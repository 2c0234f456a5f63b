//! A machine but for its storage as the bytes of a saved state, and back.
ghost use Rattle.std.specs.Prelude.{◌≡◌, ◌++◌, OnOk};
ghost use Rattle.saved_bytes.specs.Codes.{each, number};
ghost use Rattle.s370_subchannels.specs.Saved.{addresses};
ghost use Rattle.machine_panel.specs.Saved.{cpu_bytes, machine_bytes, mode_bytes, mode_number};
ghost use Rattle.machine_panel.specs.Saved.{pending_bytes, psw_bytes, psw_flags_bytes};
ghost use Rattle.machine_panel.specs.Saved.{psw_masks_bytes};

use crate::machine::{Machine, Mode};
use s370_intr::Pending;
use s370_num::{Addr24, ConditionCode};
use s370_psw::Psw;
use s370_rows::Cpu;
use saved_bytes::{Input, RestoreError, put_flag, put_number, put_one, put_zero};
use std::alloc::AllocError;

/// Appends registers to `out`, each after a byte of 1, and then a byte of 0.
#[tactic(auto, using(saved_bytes::proofs::Codes::each_on))]
fn put_registers(out: &mut Vec<u8>, registers: &[u32]) -> Result<(), AllocError>
    ensures { OnOk result (out.new.items ≡ out.old.items ++ each number registers.now) }
{
    for register in registers {
        put_one(out)?;
        put_number(out, u64::from(*register))?;
    }
    put_zero(out)
}

/// Takes sixteen registers from `input` and returns them.
///
/// # Errors
///
/// `Malformed` if they are not sixteen or are bad.
fn registers_of(input: &mut Input<'_>) -> Result<[u32; 16], RestoreError> {
    let mut registers = [0u32; 16];
    for place in 0..16usize {
        if !input.flag()? {
            return Err(RestoreError::Malformed);
        }
        registers[place] = input.next_u32()?;
    }
    if input.flag()? {
        Err(RestoreError::Malformed)
    } else {
        Ok(registers)
    }
}

/// Appends to `out` the system mask, the key and the program mask of a PSW, as numbers.
fn put_psw_masks(out: &mut Vec<u8>, psw: &Psw) -> Result<(), AllocError>
    ensures { OnOk result (out.new.items ≡ out.old.items ++ psw_masks_bytes psw.now) }
{
    put_number(out, u64::from(psw.system_mask()))?;
    put_number(out, u64::from(psw.key().get()))?;
    put_number(out, u64::from(psw.program_mask()))
}

/// Appends to `out` bits 12 to 15 of a PSW: extended control, machine check, wait and problem
/// state.
fn put_psw_flags(out: &mut Vec<u8>, psw: &Psw) -> Result<(), AllocError>
    ensures { OnOk result (out.new.items ≡ out.old.items ++ psw_flags_bytes psw.now) }
{
    put_flag(out, psw.is_ec())?;
    put_flag(out, psw.machine_check())?;
    put_flag(out, psw.waits())?;
    put_flag(out, psw.is_problem())
}

/// Appends to `out` a PSW: its masks and key, bits 12 to 15, condition code and address.
fn put_psw(out: &mut Vec<u8>, psw: &Psw) -> Result<(), AllocError>
    ensures { OnOk result (out.new.items ≡ out.old.items ++ psw_bytes psw.now) }
{
    put_psw_masks(out, psw)?;
    put_psw_flags(out, psw)?;
    put_number(out, u64::from(psw.condition().get()))?;
    put_number(out, u64::from(psw.address().get()))
}

/// Takes a flag from `input` and returns `bit` if it is set, or zero if not.
///
/// # Errors
///
/// `Malformed` if there is no flag.
fn bit_of(input: &mut Input<'_>, bit: u64) -> Result<u64, RestoreError> {
    if input.flag()? { Ok(bit) } else { Ok(0) }
}

/// Takes a PSW from `input` and returns it; key, program mask, condition code and address are cut
/// to their bits.
///
/// # Errors
///
/// `Malformed` if a part is missing or bad.
fn psw_of(input: &mut Input<'_>) -> Result<Psw, RestoreError> {
    let system_mask = input.next_u8()?;
    let key = input.next_u8()?;
    let program_mask = input.next_u8()?;
    let extended = bit_of(input, 0x0008_0000_0000_0000)?;
    let machine_check = bit_of(input, 0x0004_0000_0000_0000)?;
    let mut psw = Psw::from_word(u64::from(key % 16) << 52 | extended | machine_check);
    psw.set_system_mask(system_mask);
    psw.set_program_mask(program_mask % 16);
    psw.set_wait(input.flag()?);
    psw.set_problem(input.flag()?);
    psw.set_condition(ConditionCode::new(input.next_u8()? % 4));
    psw.set_address(Addr24::wrapping(input.next_u32()?));
    Ok(psw)
}

/// Appends to `out` the general registers, the control registers and the PSW of a processor.
#[tactic(auto, unfolding(crate::specs::Saved::cpu_bytes))]
fn put_cpu(out: &mut Vec<u8>, cpu: &Cpu) -> Result<(), AllocError>
    ensures { OnOk result (out.new.items ≡ out.old.items ++ cpu_bytes cpu.now) }
{
    // Exhaustive: a new field fails to compile here.
    let Cpu {
        general,
        control,
        psw,
    } = cpu;
    put_registers(out, general)?;
    put_registers(out, control)?;
    put_psw(out, psw)
}

/// Appends to `out` whether timer and interrupt key are pending, as two flags.
fn put_pending(out: &mut Vec<u8>, pending: Pending) -> Result<(), AllocError>
    ensures { OnOk result (out.new.items ≡ out.old.items ++ pending_bytes pending) }
{
    // Exhaustive: a new field fails to compile here.
    let Pending { timer, key } = pending;
    put_flag(out, timer)?;
    put_flag(out, key)
}

/// Returns the number of a mode: 0 off, 1 stopped, 2 running.
fn number_of(mode: Mode) -> u64
    ensures { result ≡ mode_number mode }
{
    match mode {
        Mode::Off => 0,
        Mode::Stopped => 1,
        Mode::Running => 2,
    }
}

/// Appends the number of a mode to `out`.
fn put_mode(out: &mut Vec<u8>, mode: Mode) -> Result<(), AllocError>
    ensures { OnOk result (out.new.items ≡ out.old.items ++ mode_bytes mode) }
{
    put_number(out, number_of(mode))
}

/// Takes a mode from `input` and returns it.
///
/// # Errors
///
/// `Malformed` if there is none or it is bad.
fn mode_of(input: &mut Input<'_>) -> Result<Mode, RestoreError> {
    match input.number()? {
        0 => Ok(Mode::Off),
        1 => Ok(Mode::Stopped),
        2 => Ok(Mode::Running),
        _ => Err(RestoreError::Malformed),
    }
}

impl Machine {
    /// Appends to `out` all of a machine except its storage: processor, conditions, devices, mode
    /// and printed lines.
    ///
    /// # Errors
    ///
    /// `AllocError` if memory is refused; `out` may have a part of it then.
    pub fn save(&self, out: &mut Vec<u8>) -> Result<(), AllocError>
        ensures { OnOk result (out.new.items ≡ out.old.items ++ machine_bytes self.now) }
    {
        // Exhaustive: a new field fails to compile here.
        let Machine {
            cpu,
            pending,
            subchannels,
            mode,
            output,
        } = self;
        put_cpu(out, cpu)?;
        put_pending(out, *pending)?;
        subchannels.save(out)?;
        put_mode(out, *mode)?;
        output.save(out)
    }

    /// Restores a machine, except its storage, from `input`.
    ///
    /// It has printed nothing before. No device is added or removed, whatever the input has.
    ///
    /// # Errors
    ///
    /// `Malformed` if the input is bad, `Memory` if memory is refused; the machine is then off and
    /// perhaps partly restored.
    pub fn restore(&mut self, input: &mut Input<'_>) -> Result<(), RestoreError>
        ensures { addresses self.new.subchannels ≡ addresses self.old.subchannels }
    {
        // It does not run until there is room for the notice of its stop.
        self.mode = Mode::Off;
        let general = registers_of(input)?;
        let control = registers_of(input)?;
        let psw = psw_of(input)?;
        self.cpu = Cpu {
            general,
            control,
            psw,
        };
        self.pending.timer = input.flag()?;
        self.pending.key = input.flag()?;
        self.subchannels.restore(input)?;
        let mode = mode_of(input)?;
        self.output.restore(input)?;
        self.output.make_room(1)?;
        self.mode = mode;
        Ok(())
    }
}
