// One watched word: where it would hang on an unknown place it stops there, else its marks are made and it is executed.
ghost use Rattle.std.specs.Prelude.{◌≡◌, true, false, List, ℕ, ◌/◌, ◌%◌, ◌^◌, ◌<◌};
ghost use Rattle.bits.specs.Field.{field};
ghost use Rattle.machine.specs.Machine.{assembled};
ghost use Rattle.machine.specs.Place.{state, control};
ghost use Rattle.meaning.specs.Map.{known};
ghost use Rattle.meaning.specs.Tree.{seen, watched};
ghost use Rattle.place_marks.specs.Word.{map_in};
ghost use Rattle.window_marks.specs.Marks.{ones_of};
ghost use Rattle.decoding.specs.Operation.{operation_of, number_of};
ghost use Rattle.decoding.specs.Table.{operation_table};
ghost use Rattle.processing.specs.Data.{data_tree};
ghost use Rattle.memory.specs.LoadStore.{load_store_tree};
ghost use Rattle.transfers.specs.Transfer.{transfer_tree};
ghost use Rattle.word_class.specs.Word.{meaning};
ghost use Rattle.run_word.specs.Stop.{next_of};
ghost use Rattle.run_word.specs.declared.Next.TheVariants.{On};

use access_hangs::access::hang_access;
use access_marks::watched_load_store;
use bits::field::bit;
use data_hangs::data::hang_data;
use data_marks::mark_data;
use decode_table::table::number;
use decoding::operation::Operation;
use hangs::Hang;
use machine::Controls;
use machine::place::CONTROL;
use place_marks::place::is_known;
use processing::Processed;
use registers::registers::{Double, Single};
use run_word::{Next, Stop};
use transfer_marks::single::mark_single_core;
use transfer_marks::system::mark_system;
use transfers::single::single_core;
use transfers::system::system;
use transfers::{Transfer, transfer_of};
use vfp::current_pc;
use watched_class::{WatchedClass, enabled_watched_class};
use watched_scalars::arithmetic::watched_scalar;
use watched_scalars::unary::watched_unary;

// What is no array of the machine, the marks and what follows, after a word.
#[derive(Clone, Copy)]
pub struct Seen {
    pub controls: Controls,
    pub marks: u64,
    pub next: Next,
}

// A word, without the growth of r15. The decode table is lent. The number of ones among the window's marks stays beside them: a load or store keeps it.
pub fn watch_word(
    table: &[u8; 1024],
    s: &mut [u32; 32],
    r: &mut [u32; 16],
    x: Controls,
    window: &mut [u32],
    marks: u64,
    window_marks: &mut [u8],
    ones: &mut usize,
    base: u32,
    op: u32,
) -> Seen
    requires { (table.now ≡ operation_table) × (ones.old ≡ ones_of window_marks.old) }
    ensures { (seen (state (assembled s.new r.new result.controls false) window.new) (map_in result.marks window_marks.new) (next_of result.next) ≡ watched (meaning base op) (state (assembled s.old r.old x false) window.old) (map_in marks window_marks.old)) × (ones.new ≡ ones_of window_marks.new) }
{
    let flags = x.cpsr;
    let class = enabled_watched_class(marks, op, flags, x.fpexc);
    match class {
        WatchedClass::Data => watch_data(table, s, r, x, marks, op),
        WatchedClass::Access => watch_access(s, r, x, window, marks, window_marks, ones, base, op),
        WatchedClass::Transfer => watch_transfer(s, r, x, marks, op),
        WatchedClass::Skipped => Seen {
            controls: x,
            marks,
            next: Next::On, // skipped, and counted
        },
        WatchedClass::Foreign => Seen {
            controls: x,
            marks,
            next: Next::Halt(Stop::Foreign),
        },
        WatchedClass::Hangs(place) => Seen {
            controls: x,
            marks,
            next: Next::Halt(Stop::Hangs(place)),
        },
        WatchedClass::Off => {
            let pc = current_pc(r[15], false);
            Seen {
                controls: x,
                marks,
                next: Next::Halt(Stop::Undefined { pc, opcode: op }),
            }
        }
    }
}

// A load or store hangs on its base register.
fn watch_access(
    s: &mut [u32; 32],
    r: &mut [u32; 16],
    x: Controls,
    window: &mut [u32],
    marks: u64,
    window_marks: &mut [u8],
    ones: &mut usize,
    base: u32,
    op: u32,
) -> Seen
    requires { ones.old ≡ ones_of window_marks.old }
    ensures { (seen (state (assembled s.new r.new result.controls false) window.new) (map_in result.marks window_marks.new) (next_of result.next) ≡ watched (load_store_tree base op) (state (assembled s.old r.old x false) window.old) (map_in marks window_marks.old)) × (ones.new ≡ ones_of window_marks.new) }
{
    let hang = hang_access(marks, op);
    match hang {
        Hang::At(place) => Seen {
            controls: x,
            marks,
            next: Next::Halt(Stop::Hangs(place)),
        },
        Hang::Clear => {
            let known = watched_load_store(s, r, window, marks, window_marks, ones, base, op);
            Seen {
                controls: x,
                marks: known,
                next: Next::On,
            }
        }
    }
}

// A transfer never hangs. Its two kinds are called directly, as in the plain run.
fn watch_transfer(s: &mut [u32; 32], r: &mut [u32; 16], x: Controls, marks: u64, op: u32) -> Seen
    ensures { (v w : List ℕ) → seen (state (assembled s.new r.new result.controls false) v) (map_in result.marks w) (next_of result.next) ≡ watched (transfer_tree false op) (state (assembled s.old r.old x false) v) (map_in marks w) }
{
    let transfer = transfer_of(op);
    match transfer {
        Transfer::System => {
            let known = mark_system(marks, op);
            Seen {
                controls: system(r, x, op),
                marks: known,
                next: Next::On,
            }
        }
        Transfer::Single(sn) => {
            let known = mark_single_core(marks, sn, op);
            if single_core(s, r, false, sn, op) {
                return Seen {
                    controls: x,
                    marks: known,
                    next: Next::Last,
                };
            }
            Seen {
                controls: x,
                marks: known,
                next: Next::On,
            }
        }
        Transfer::Nothing => Seen {
            controls: x,
            marks,
            next: Next::On,
        },
    }
}

// Data processing hangs on r15 where it is Undefined, and on FPSCR 27:5 where it steps. A scalar, where LEN is 0, needs no loop, for its marks neither.
fn watch_data(
    table: &[u8; 1024],
    s: &mut [u32; 32],
    r: &[u32; 16],
    x: Controls,
    marks: u64,
    op: u32,
) -> Seen
    requires { (table.now ≡ operation_table) × (field op 9 11 ≡ 0b101) }
    ensures { (v w : List ℕ) → seen (state (assembled s.new r.now result.controls false) v) (map_in result.marks w) (next_of result.next) ≡ watched (data_tree false op) (state (assembled s.old r.now x false) v) (map_in marks w) }
{
    let n = number(table, op);
    if is_scalar(marks, x.fpscr, n) {
        return watch_scalar(s, x, marks, n, op);
    }
    let o = Operation::from(n);
    let hang = hang_data(marks, o, op);
    match hang {
        Hang::At(place) => Seen {
            controls: x,
            marks,
            next: Next::Halt(Stop::Hangs(place)),
        },
        Hang::Clear => {
            let known = mark_data(marks, x.fpscr, o, op);
            let after = data_processing::word::process(s, x.fpscr, o, op);
            match after {
                Processed::Done(fpscr) => done(x, fpscr, known),
                Processed::Undefined => {
                    let pc = current_pc(r[15], false);
                    Seen {
                        controls: x,
                        marks: known,
                        next: Next::Halt(Stop::Undefined { pc, opcode: op }),
                    }
                }
            }
        }
    }
}

// Whether the word is defined, makes one iteration and does not hang.
fn is_scalar(marks: u64, fpscr: u32, n: u8) -> bool
    ensures { result ≡ true → (0 < n) × (fpscr / 2 ^ 16 % 8 ≡ 0) × ((w : List ℕ) → known (map_in marks w) control ≡ true) }
{
    if n == 0 {
        return false;
    }
    if fpscr / 0x1_0000 % 8 != 0 {
        return false;
    }
    is_known(marks, CONTROL)
}

// A scalar with its marks made beside it, by the number of its operation as in the plain run: the enum misses the bar of speed (docs/DECISIONS.md, "Tried and
// left out").
fn watch_scalar(s: &mut [u32; 32], x: Controls, marks: u64, n: u8, op: u32) -> Seen
    requires { (n ≡ number_of (operation_of op)) × (field op 9 11 ≡ 0b101) × (0 < n) × (x.fpscr / 2 ^ 16 % 8 ≡ 0) × ((w : List ℕ) → known (map_in marks w) control ≡ true) }
    ensures { (r v w : List ℕ) → seen (state (assembled s.new r result.controls false) v) (map_in result.marks w) (next_of result.next) ≡ watched (data_tree false op) (state (assembled s.old r x false) v) (map_in marks w) }
{
    let fpscr = x.fpscr;
    if n < 10 {
        if bit(op, 8) {
            let y = watched_scalar::<Double>(s, marks, fpscr, n, op);
            return done(x, y.fpscr, y.marks);
        }
        let y = watched_scalar::<Single>(s, marks, fpscr, n, op);
        return done(x, y.fpscr, y.marks);
    }
    if bit(op, 8) {
        let y = watched_unary::<Double>(s, marks, fpscr, op, Operation::from(n));
        return done(x, y.fpscr, y.marks);
    }
    let y = watched_unary::<Single>(s, marks, fpscr, op, Operation::from(n));
    done(x, y.fpscr, y.marks)
}

// The run goes on, with FPSCR and the marks as the word left them.
fn done(x: Controls, fpscr: u32, marks: u64) -> Seen
    ensures { (result.controls ≡ record { fpscr = fpscr; fpexc = x.fpexc; cpsr = x.cpsr }) × (result.marks ≡ marks) × (result.next ≡ On) }
{
    let cpsr = x.cpsr;
    Seen {
        controls: Controls {
            fpscr,
            fpexc: x.fpexc,
            cpsr,
        },
        marks,
        next: Next::On,
    }
}
