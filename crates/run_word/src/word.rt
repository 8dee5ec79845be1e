// One word of a run, over lent registers and a lent window.
ghost use Rattle.std.specs.Prelude.{◌≡◌, false, List, ℕ, ◌+◌, ◌%◌, ◌^◌, get_or, set};
ghost use Rattle.machine.specs.Machine.{assembled};
ghost use Rattle.machine.specs.Place.{state};
ghost use Rattle.meaning.specs.Tree.{out, plain};
ghost use Rattle.decoding.specs.Table.{operation_table};
ghost use Rattle.transfers.specs.Transfer.{transfer_tree};
ghost use Rattle.word_class.specs.Word.{meaning};
ghost use Rattle.run_word.specs.Stop.{next_of};

use super::data::process_data;
use super::{Next, Stop};
use machine::Controls;
use machine::address::plus;
use transfers::single::single_core;
use transfers::system::system;
use transfers::{Transfer, transfer_of};
use vfp::current_pc;
use word_class::class::{Class, enabled_class};

// What is no array after a word, and what follows it.
#[derive(Clone, Copy)]
pub struct Executed {
    pub controls: Controls,
    pub next: Next,
}

// A word, without the growth of r15. The decode table is lent.
pub fn execute(
    table: &[u8; 1024],
    s: &mut [u32; 32],
    r: &mut [u32; 16],
    x: Controls,
    window: &mut [u32],
    base: u32,
    op: u32,
) -> Executed
    requires { table.now ≡ operation_table }
    ensures { out (state (assembled s.new r.new result.controls false) window.new) (next_of result.next) ≡ plain (meaning base op) (state (assembled s.old r.old x false) window.old) }
{
    let flags = x.cpsr;
    let class = enabled_class(op, flags, x.fpexc);
    match class {
        Class::Data => process_data(table, s, r, x, op),
        Class::Access => {
            load_stores::access::coprocessor_load_store(s, r, window, base, op);
            Executed {
                controls: x,
                next: Next::On,
            }
        }
        Class::Transfer => transfer(s, r, x, op),
        Class::Skipped => Executed {
            controls: x,
            next: Next::On, // skipped, and counted
        },
        Class::Foreign => Executed {
            controls: x,
            next: Next::Halt(Stop::Foreign),
        },
        Class::Off => {
            let pc = current_pc(r[15], false);
            Executed {
                controls: x,
                next: Next::Halt(Stop::Undefined { pc, opcode: op }),
            }
        }
    }
}

// A register transfer, as `transfers::coprocessor_register` does it. The two kinds are called directly: a call that takes and returns what is no
// array passes it through memory at every word.
fn transfer(s: &mut [u32; 32], r: &mut [u32; 16], x: Controls, op: u32) -> Executed
    ensures { (v : List ℕ) → out (state (assembled s.new r.new result.controls false) v) (next_of result.next) ≡ plain (transfer_tree false op) (state (assembled s.old r.old x false) v) }
{
    let transfer = transfer_of(op);
    match transfer {
        Transfer::System => Executed {
            controls: system(r, x, op),
            next: Next::On,
        },
        Transfer::Single(sn) => {
            if single_core(s, r, false, sn, op) {
                return Executed {
                    controls: x,
                    next: Next::Last,
                };
            }
            Executed {
                controls: x,
                next: Next::On,
            }
        }
        Transfer::Nothing => Executed {
            controls: x,
            next: Next::On,
        },
    }
}

// r15 grows by 4 after a counted word.
pub fn advance(r: &mut [u32; 16])
    ensures { r.new ≡ set r.old 15 ((get_or r.old 15 0 + 4) % 2 ^ 32) }
{
    let pc = r[15];
    r[15] = plus(pc, 4);
}
