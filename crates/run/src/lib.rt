// The plain run over a list of instruction words.
#![tactic(auto)]

ghost use Rattle.std.specs.Prelude.{◌≡◌, false};
ghost use Rattle.machine.specs.Place.{state};
ghost use Rattle.meaning.specs.Run as R;
ghost use Rattle.decoding.specs.Table.{operation_table};
ghost use Rattle.word_class.specs.Word.{meaning};
ghost use Rattle.run.specs.Run.{answered, reply, run_reply};

use decode_table::table::operations;
use limits::limit::run_limit;
use machine::Machine;
use progress::{Progress, Ran};
use run_word::word::{advance, execute};
use run_word::{Next, Stop};

// Runs a list of words over a window from a base on.
pub fn run(machine: Machine, window: &mut [u32], base: u32, list: &[u32]) -> Ran
    ensures { answered result window.new ≡ run_reply base list.now (state machine window.old) }
{
    let limit = run_limit(list.len(), base, window.len(), machine.thumb);
    if limit != 0 {
        return Ran {
            stop: Stop::Refused(limit),
            count: 0,
            machine,
        };
    }
    let table = operations();
    run_words(&table, machine, window, base, list)
}

// The run within the limits. The decode table, and the registers as locals, are lent to each word.
fn run_words(
    table: &[u8; 1024],
    machine: Machine,
    window: &mut [u32],
    base: u32,
    list: &[u32],
) -> Ran
    requires { (machine.thumb ≡ false) × (table.now ≡ operation_table) }
    ensures { answered result window.new ≡ reply (R.run (meaning base) list.now 0 (state machine window.old)) }
{
    let begun = Progress::new(machine);
    let mut s = begun.s;
    let mut r = begun.r;
    let mut x = begun.controls;
    let mut i: usize = 0;
    while i < list.len() {
        let op = list[i];
        let done = execute(table, &mut s, &mut r, x, window, base, op);
        x = done.controls;
        let next = done.next;
        match next {
            Next::On => {
                advance(&mut r);
                i += 1;
            }
            Next::Last => {
                return Progress { s, r, controls: x }.ended(Stop::Branched, i + 1);
            }
            Next::Halt(stop) => {
                return Progress { s, r, controls: x }.ended(stop, i);
            }
        }
    }
    Progress { s, r, controls: x }.ended(Stop::Finished, i)
}
