//! The processor of `core/dvg_cpu.v`, proved from the cells that yosys reads in it: it does what
//! the definition of the 6502 does, and makes the same accesses. There is no code here. Each law is
//! the contract of a function that does nothing.
//!
//! `specs/Cpu.antt` is made by `core/cells`, and the proofs that are tables by `tables`.
#![tactic(auto)]

ghost use Rattle.dvg_cells_cpu.specs.Interrupts.{CpuHears, CpuInterrupts, CpuRestarts, PowersUp};
ghost use Rattle.dvg_cells_cpu.specs.Interrupts.{ResetKeeps};
ghost use Rattle.dvg_cells_cpu.specs.Refines.{CpuRefines, CpuStays, CpuWaits};
ghost use Rattle.dvg_cells_cpu.specs.Widths.{CpuFits};

/// From one fetch of an opcode to the next the cells do the step of the definition, of each of its
/// opcodes: at the end they have the registers that the step leaves, D and I too, and what the bus
/// saw are the reads of the program and then the step's own accesses, in their order.
pub fn cpu_refines()
    ensures { CpuRefines }
{}

/// An opcode that isn't in the table is read again and again.
pub fn cpu_stays()
    ensures { CpuStays }
{}

/// A clock without `step` and `reset` keeps all registers.
#[tactic(auto, using(crate::proofs::EachOpcode::waits))]
pub fn cpu_waits()
    ensures { CpuWaits }
{}

/// An NMI that is due comes in place of a fetch, and is taken as the definition has it. It is due
/// after a rise of `nmi`.
pub fn cpu_interrupts()
    ensures comes { CpuInterrupts }
    ensures hears { CpuHears }
{}

/// A reset, in any clock: no NMI is due, and all registers stay; two cycles later the cells are as
/// the definition has it, with the address that FFFC, FFFD say, S at FD, and I. At power-up they
/// begin so.
pub fn cpu_resets()
    ensures keeps { ResetKeeps }
    ensures restarts { CpuRestarts }
    ensures powers_up { PowersUp }
{}

/// Registers and pins fit their widths.
#[tactic(auto, using(crate::proofs::LawOfWidths::fits))]
pub fn cpu_fits()
    ensures { CpuFits }
{}
