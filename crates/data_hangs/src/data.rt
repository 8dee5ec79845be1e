// Data processing.
ghost use Rattle.std.specs.Prelude.{◌≡◌, false, List, ℕ};
ghost use Rattle.std.specs.Float.{Format};
ghost use Rattle.machine.specs.Place.{State};
ghost use Rattle.meaning.specs.Hang.{hang_of};
ghost use Rattle.decoding.specs.Operation.{operation_of};
ghost use Rattle.processing.specs.Data.{operation_tree, data_tree};
ghost use Rattle.place_marks.specs.Word.{map_in};
ghost use Rattle.hangs.specs.Hang.{hang_is};

use bits::field::bits;
use decoding::operation::Operation;
use hangs::{Hang, asked};
use machine::place::{CONTROL, PC};
use place_marks::place::is_known;
use register_marks::register::core_known;

// Data processing hangs on FPSCR 27:5 or on r15; where both are known, as they mostly are, the word need not be looked at. By the
// coprocessor: any but 10 and 11 is Undefined.
pub fn hang_data(marks: u64, o: Operation, op: u32) -> Hang
    requires { o ≡ operation_of op }
    ensures { (st : State) (w : List ℕ) → hang_is result ≡ hang_of (data_tree false op) st (map_in marks w) }
{
    if is_known(marks, CONTROL) & core_known(marks, 15) {
        return Hang::Clear;
    }
    let coproc = bits(op, 8, 11);
    if coproc == 10 {
        return hang_operation(marks, o);
    }
    if coproc == 11 {
        return hang_operation(marks, o);
    }
    asked(core_known(marks, 15), PC)
}

// An Undefined word hangs on r15 and a stepping word on FPSCR 27:5, in either precision.
fn hang_operation(marks: u64, o: Operation) -> Hang
    ensures { (f : Format) (op : ℕ) (st : State) (w : List ℕ) → hang_is result ≡ hang_of (operation_tree false f op o) st (map_in marks w) }
{
    match o {
        Operation::Fmac
        | Operation::Fnmac
        | Operation::Fmsc
        | Operation::Fnmsc
        | Operation::Fmul
        | Operation::Fnmul
        | Operation::Fadd
        | Operation::Fsub
        | Operation::Fdiv
        | Operation::Fcpy
        | Operation::Fabs
        | Operation::Fneg
        | Operation::Fsqrt => asked(is_known(marks, CONTROL), CONTROL),
        Operation::Fcmp
        | Operation::Fcmpe
        | Operation::Fcmpz
        | Operation::Fcmpez
        | Operation::Fcvt
        | Operation::Fuito
        | Operation::Fsito
        | Operation::Ftoui
        | Operation::Ftouiz
        | Operation::Ftosi
        | Operation::Ftosiz => Hang::Clear,
        Operation::Undefined => asked(core_known(marks, 15), PC),
    }
}
