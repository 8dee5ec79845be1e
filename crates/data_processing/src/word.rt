// A word of data processing, with its operation or by the table.
ghost use Rattle.std.specs.Prelude.{◌≡◌};
ghost use Rattle.decoding.specs.Operation.{operation_of};
ghost use Rattle.processing.specs.Data.{data_tree, Handled};

use bits::field::bits;
use decode_table::table::{operation, operations};
use decoding::operation::Operation;
use processing::Processed;
use registers::registers::{Double, Single};

// The word on the singles, with FPSCR by value, and its operation. A run decodes by the table that it made once.
pub fn process(s: &mut [u32; 32], fpscr: u32, o: Operation, op: u32) -> Processed
    requires { o ≡ operation_of op }
    ensures { Handled (λ thumb. data_tree thumb op) op s.old fpscr s.new result }
{
    let coproc = bits(op, 8, 11);
    if coproc == 10 {
        return processing::operation::process::<Single>(s, fpscr, op, o);
    }
    if coproc == 11 {
        return processing::operation::process::<Double>(s, fpscr, op, o);
    }
    Processed::Undefined
}

// The same for a single word.
pub fn data_processing(s: &mut [u32; 32], fpscr: u32, op: u32) -> Processed
    ensures { Handled (λ thumb. data_tree thumb op) op s.old fpscr s.new result }
{
    let table = operations();
    let o = operation(&table, op);
    process(s, fpscr, o, op)
}
