// Where an unknown place came from in a register transfer.
#![tactic(auto)]

ghost use Rattle.std.specs.Prelude.{ℕ, Bool};
ghost use Rattle.chains.specs.Steps.{act_of};
ghost use Rattle.machine.specs.Place.{State};
ghost use Rattle.sources.specs.Source.{Leading};
ghost use Rattle.transfers.specs.Transfer.{transfer_tree, single_tree};

use bits::field::{bit, bits};
use machine::place::CORE;
use registers::registers::Single;
use sources::Source;
use system::system_source;
use transfers::{Transfer, transfer_of};

mod system;

pub fn transfer_source(marks: u64, op: u32, q: u32) -> Source
    ensures { (thumb : Bool) (st : State) → Leading (act_of (transfer_tree thumb op) st) marks q result }
{
    let transfer = transfer_of(op);
    match transfer {
        Transfer::System => system_source(marks, op, q),
        Transfer::Single(sn) => single_source(sn, op, q),
        Transfer::Nothing => Source::Kept,
    }
}

// A single and a core register.
fn single_source(sn: Single, op: u32, q: u32) -> Source
    ensures { (thumb : Bool) (st : State) (m : ℕ) → Leading (act_of (single_tree thumb sn.0 op) st) m q result }
{
    let s = (sn.0 % 32) as u32;
    let t = CORE as u32 + bits(op, 12, 15);
    if bit(op, 20) {
        if q == t {
            return Source::From(s);
        }
        return Source::Kept;
    }
    if q == s {
        return Source::From(t);
    }
    Source::Kept
}
