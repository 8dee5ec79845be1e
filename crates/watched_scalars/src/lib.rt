// Data processing of scalars in the watched run: as in crate scalars, with the marks beside it.
#![tactic(auto)]

pub mod arithmetic;
pub mod unary;

ghost use Rattle.std.specs.Prelude.{◌≡◌};

// FPSCR and the marks after a word.
#[derive(Clone, Copy)]
pub struct Watched {
    pub fpscr: u32,
    pub marks: u64,
}

pub fn after(fpscr: u32, marks: u64) -> Watched
    ensures { result ≡ record { fpscr = fpscr; marks = marks } }
{
    Watched { fpscr, marks }
}
