// The operations of data processing: the manual's names, one for both precisions (ARM DDI 0100I, C3 and C4).
ghost use Rattle.std.specs.Prelude.{◌≡◌};
ghost use Rattle.decoding.specs.Operation.{operation_numbered, arithmetic_of};

use numbers::arithmetic::Arithmetic;

#[derive(Clone, Copy, Debug, PartialEq, Eq)]
pub enum Operation {
    Undefined,
    // d + n * m, d - n * m, -d + n * m, -d - n * m
    Fmac,
    Fnmac,
    Fmsc,
    Fnmsc,
    // n * m, -(n * m), n + m, n - m, n / m
    Fmul,
    Fnmul,
    Fadd,
    Fsub,
    Fdiv,
    // m, its size, its negation, its root
    Fcpy,
    Fabs,
    Fneg,
    Fsqrt,
    // compare with m, with zero; the E forms differ in exceptions alone
    Fcmp,
    Fcmpe,
    Fcmpz,
    Fcmpez,
    // between the widths
    Fcvt,
    // from an unsigned and a signed integer
    Fuito,
    Fsito,
    // to an unsigned and a signed integer by the mode, and the Z forms towards zero
    Ftoui,
    Ftouiz,
    Ftosi,
    Ftosiz,
}

// The operation of a number; every number above 24 is Undefined too.
impl From<u8> for Operation {
    ghost from_gives = { λ n o. o ≡ operation_numbered n };

    fn from(n: u8) -> Operation {
        match n {
            0 => Operation::Undefined,
            1 => Operation::Fmac,
            2 => Operation::Fnmac,
            3 => Operation::Fmsc,
            4 => Operation::Fnmsc,
            5 => Operation::Fmul,
            6 => Operation::Fnmul,
            7 => Operation::Fadd,
            8 => Operation::Fsub,
            9 => Operation::Fdiv,
            10 => Operation::Fcpy,
            11 => Operation::Fabs,
            12 => Operation::Fneg,
            13 => Operation::Fsqrt,
            14 => Operation::Fcmp,
            15 => Operation::Fcmpe,
            16 => Operation::Fcmpz,
            17 => Operation::Fcmpez,
            18 => Operation::Fcvt,
            19 => Operation::Fuito,
            20 => Operation::Fsito,
            21 => Operation::Ftoui,
            22 => Operation::Ftouiz,
            23 => Operation::Ftosi,
            24 => Operation::Ftosiz,
            _ => Operation::Undefined,
        }
    }
}

// The arithmetic of an operation that is one; the last stands for every other. A function and no `From`, since it loses which of those it was.
pub fn arithmetic_of(o: Operation) -> Arithmetic
    ensures { result ≡ arithmetic_of o }
{
    match o {
        Operation::Fmac => Arithmetic::MultiplyAccumulate,
        Operation::Fnmac => Arithmetic::MultiplySubtract,
        Operation::Fmsc => Arithmetic::NegateMultiplySubtract,
        Operation::Fnmsc => Arithmetic::NegateMultiplyAccumulate,
        Operation::Fmul => Arithmetic::Multiply,
        Operation::Fnmul => Arithmetic::NegateMultiply,
        Operation::Fadd => Arithmetic::Add,
        Operation::Fsub => Arithmetic::Subtract,
        _ => Arithmetic::Divide,
    }
}
