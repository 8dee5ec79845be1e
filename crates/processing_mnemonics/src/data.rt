// Data processing.
ghost use Rattle.std.specs.Prelude.{◌≡◌, ◌++◌};
ghost use Rattle.addresses.specs.Address.{format_of};
ghost use Rattle.text.specs.Text.{clip};
ghost use Rattle.processing_mnemonics.specs.Data.{one_text, two_text, three_text, from_integer_text, to_integer_text, between_text, data_text};

use decoding::operation::Operation;
use mnemonics::parts::{named, precise, register};
use register_fields::fields::{d_of, m_of, n_of};
use registers::registers::{Double, Single};
use text::text::Text;

// With register d.
fn one(t: Text, name: &[u8], double: bool, op: u32) -> Text
    ensures { result ≡ clip (t ++ one_text (format_of double) op name.now) }
{
    let start = precise(t, name, double, op);
    if double {
        return register(start, true, d_of::<Double>(op).0);
    }
    register(start, false, d_of::<Single>(op).0)
}

// With registers d and m.
fn two(t: Text, name: &[u8], double: bool, op: u32) -> Text
    ensures { result ≡ clip (t ++ two_text (format_of double) op name.now) }
{
    let start = one(t, name, double, op).add(b", ");
    if double {
        return register(start, true, m_of::<Double>(op).0);
    }
    register(start, false, m_of::<Single>(op).0)
}

// With registers d, n and m.
fn three(t: Text, name: &[u8], double: bool, op: u32) -> Text
    ensures { result ≡ clip (t ++ three_text (format_of double) op name.now) }
{
    let start = one(t, name, double, op).add(b", ");
    if double {
        return register(
            register(start, true, n_of::<Double>(op).0).add(b", "),
            true,
            m_of::<Double>(op).0,
        );
    }
    register(
        register(start, false, n_of::<Single>(op).0).add(b", "),
        false,
        m_of::<Single>(op).0,
    )
}

// From an integer, which stands in a single.
fn from_integer(t: Text, name: &[u8], double: bool, op: u32) -> Text
    ensures { result ≡ clip (t ++ from_integer_text (format_of double) op name.now) }
{
    register(
        one(t, name, double, op).add(b", "),
        false,
        m_of::<Single>(op).0,
    )
}

// To an integer, which stands in a single.
fn to_integer(t: Text, name: &[u8], double: bool, op: u32) -> Text
    ensures { result ≡ clip (t ++ to_integer_text (format_of double) op name.now) }
{
    let start = register(precise(t, name, double, op), false, d_of::<Single>(op).0).add(b", ");
    if double {
        return register(start, true, m_of::<Double>(op).0);
    }
    register(start, false, m_of::<Single>(op).0)
}

// Between the precisions: coprocessor 10 widens and 11 narrows.
fn between(t: Text, double: bool, op: u32) -> Text
    ensures { result ≡ clip (t ++ between_text (format_of double) op) }
{
    if double {
        return register(
            register(named(t, b"FCVTSD", op), false, d_of::<Single>(op).0).add(b", "),
            true,
            m_of::<Double>(op).0,
        );
    }
    register(
        register(named(t, b"FCVTDS", op), true, d_of::<Double>(op).0).add(b", "),
        false,
        m_of::<Single>(op).0,
    )
}

// An operation of a precision. No plainer by a name and a form of its operands apart: here a line says both of each operation.
#[tactic(auto, unfolding(crate::specs::Data::data_text))]
pub fn data(t: Text, double: bool, op: u32, o: Operation) -> Text
    ensures { result ≡ clip (t ++ data_text (format_of double) op o) }
{
    match o {
        Operation::Undefined => t.add(b"Undefined"),
        Operation::Fmac => three(t, b"FMAC", double, op),
        Operation::Fnmac => three(t, b"FNMAC", double, op),
        Operation::Fmsc => three(t, b"FMSC", double, op),
        Operation::Fnmsc => three(t, b"FNMSC", double, op),
        Operation::Fmul => three(t, b"FMUL", double, op),
        Operation::Fnmul => three(t, b"FNMUL", double, op),
        Operation::Fadd => three(t, b"FADD", double, op),
        Operation::Fsub => three(t, b"FSUB", double, op),
        Operation::Fdiv => three(t, b"FDIV", double, op),
        Operation::Fcpy => two(t, b"FCPY", double, op),
        Operation::Fabs => two(t, b"FABS", double, op),
        Operation::Fneg => two(t, b"FNEG", double, op),
        Operation::Fsqrt => two(t, b"FSQRT", double, op),
        Operation::Fcmp => two(t, b"FCMP", double, op),
        Operation::Fcmpe => two(t, b"FCMPE", double, op),
        Operation::Fcmpz => one(t, b"FCMPZ", double, op),
        Operation::Fcmpez => one(t, b"FCMPEZ", double, op),
        Operation::Fcvt => between(t, double, op),
        Operation::Fuito => from_integer(t, b"FUITO", double, op),
        Operation::Fsito => from_integer(t, b"FSITO", double, op),
        Operation::Ftoui => to_integer(t, b"FTOUI", double, op),
        Operation::Ftouiz => to_integer(t, b"FTOUIZ", double, op),
        Operation::Ftosi => to_integer(t, b"FTOSI", double, op),
        Operation::Ftosiz => to_integer(t, b"FTOSIZ", double, op),
    }
}
