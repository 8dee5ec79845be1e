// VMSR and VMRS, opc1 = 7.
ghost use Rattle.std.specs.Prelude.{ℕ, ◌<◌, [], ◌∷◌};
ghost use Rattle.chains.specs.Steps.{act_of};
ghost use Rattle.machine.specs.Place.{State, core, flags, control, exceptions};
ghost use Rattle.sources.specs.Source.{Tracing, Leading, Picks};
ghost use Rattle.transfers.specs.Transfer.{read_system, read_flags, write_system, system_tree};

use bits::field::{bit, bits};
use machine::place::{CONTROL, CORE, EXC, EXCEPTIONS, FLAGS, NZCV};
use place_marks::place::is_known;
use sources::Source;

pub(crate) fn system_source(marks: u64, op: u32, q: u32) -> Source
    ensures { (st : State) → Leading (act_of (system_tree op) st) marks q result }
{
    let rt = bits(op, 12, 15);
    let reg = bits(op, 16, 19);
    if bit(op, 20) {
        if rt == 15 {
            return flags_source(reg, q);
        }
        return value_source(marks, reg, rt, q);
    }
    written_source(reg, rt, q)
}

// Read to r15: NZCV takes bits 31:28. What is constant is known.
fn flags_source(reg: u32, q: u32) -> Source
    ensures { (m : ℕ) → Tracing (read_flags reg ∷ []) m q result }
{
    if q != NZCV as u32 {
        return Source::Kept;
    }
    match reg {
        1 => Source::From(FLAGS as u32),
        8 => Source::From(EXC as u32),
        _ => Source::Kept,
    }
}

// Read to another core register. FPSCR is read of its three parts.
fn value_source(marks: u64, reg: u32, rt: u32, q: u32) -> Source
    requires { rt < 16 }
    ensures { Tracing (read_system reg (core rt) ∷ []) marks q result }
{
    if q != CORE as u32 + rt {
        return Source::Kept;
    }
    match reg {
        1 => Source::From(fpscr_part(marks)),
        8 => Source::From(EXC as u32),
        _ => Source::Kept,
    }
}

// An unknown part of FPSCR; the last is not looked at.
fn fpscr_part(marks: u64) -> u32
    ensures { Picks marks (flags ∷ control ∷ exceptions ∷ []) result }
{
    if !is_known(marks, FLAGS) {
        return FLAGS as u32;
    }
    if !is_known(marks, CONTROL) {
        return CONTROL as u32;
    }
    EXCEPTIONS as u32
}

// Written: FPSCR in its three parts, or FPEXC.
fn written_source(reg: u32, rt: u32, q: u32) -> Source
    requires { rt < 16 }
    ensures { (m : ℕ) → Tracing (write_system reg (core rt)) m q result }
{
    if reg == 1 {
        if q == FLAGS as u32 {
            return Source::From(CORE as u32 + rt);
        }
        if q == CONTROL as u32 {
            return Source::From(CORE as u32 + rt);
        }
        if q == EXCEPTIONS as u32 {
            return Source::From(CORE as u32 + rt);
        }
        return Source::Kept;
    }
    if reg == 8 {
        if q == EXC as u32 {
            return Source::From(CORE as u32 + rt);
        }
        return Source::Kept;
    }
    Source::Kept
}
