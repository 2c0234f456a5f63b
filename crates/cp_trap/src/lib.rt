//! The virtual processor of a guest: what the control program does in the place of the real one.
//!
//! Its one theorem: [`VirtualCpu`] is a lawful [`Processor`](s370_intr::Processor), so a guest's
//! units, over whatever storage, are those of a whole System/370 (IBM System/370 Principles of
//! Operation, GA22-7000).
//!
//! The real machine runs a guest in the problem state, always: [`step`](s370_cpu::step) hands every
//! privileged instruction back, whatever the program status word of the guest says. Each that the
//! loop of `s370_cpu` has not done goes to [`simulate`], which carries it out on the virtual
//! registers where they are in the supervisor state, and refuses it in the virtual problem state
//! alone. An interruption is given to the guest by [`reflect`], which swaps the virtual program
//! status words in the guest's own storage.
//!
//! ```
//! use cp_trap::{Simulated, simulate};
//! use s370_psw::{Ilc, ProgramCode, Psw};
//! use s370_rows::{Cpu, Instruction};
//! use s370_store::{PlainStorage, store_doubleword};
//!
//! let mut storage = PlainStorage::new(alloc, 4)?;
//! store_doubleword(&mut storage, 0x200, 0x0003_0000_0000_0100); // problem state, waiting
//! let lpsw = Instruction { opcode: 0x82, second_byte: 0, second_half: 0x0200, third_half: 0 };
//! let mut cpu = Cpu { general: [0; 16], control: [0; 16], psw: Psw::from_word(0x1000) };
//! assert!(rt; simulate(&mut cpu, &mut storage, lpsw, Ilc::TWO) == Simulated::Done);
//! assert!(rt; cpu.psw.waits() && cpu.psw.is_problem());
//! // and once more, in the problem state
//! let refused = Simulated::Refused(ProgramCode::PrivilegedOperation);
//! assert!(rt; simulate(&mut cpu, &mut storage, lpsw, Ilc::TWO) == refused);
//! ```
#![tactic(auto)]

mod reflection;
mod simulation;
mod virtual_cpu;

pub use reflection::reflect;
pub use simulation::{Simulated, simulate};
pub use virtual_cpu::VirtualCpu;
