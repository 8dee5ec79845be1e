// What is wrong with a line.
ghost use Rattle.std.specs.Prelude.{◌≡◌};
ghost use Rattle.script.specs.declared.mistake.Mistake.TheVariants.{Item};

use listing::line::Expected;

#[derive(Clone, Copy, Debug, PartialEq, Eq)]
pub enum Mistake {
    Item(Expected),
    // a word of the window that is not there; the window has so many
    Beyond(usize),
    // a list with one word too many
    Words,
    // a second window
    Again,
    // a window that a run would refuse, by the number of the refusal
    Refused(u8),
}

// A mistake in an item is told by what the line should have had.
impl From<Expected> for Mistake {
    ghost from_gives = { λ expected m. m ≡ Item expected };

    fn from(expected: Expected) -> Mistake {
        Mistake::Item(expected)
    }
}

// A mistake and the number of its line, from 1.
#[derive(Clone, Copy, Debug, PartialEq, Eq)]
pub struct MistakeAt {
    pub line: usize,
    pub mistake: Mistake,
}
