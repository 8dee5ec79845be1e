// The place that a word of a class hangs on, if any: Undefined, a stepping word, a load or store. The condition stands before them, in crate
// `watch`, and a transfer hangs on nothing.
#![tactic(auto)]

ghost use Rattle.std.specs.Prelude.{◌≡◌, cond};
ghost use Rattle.meaning.specs.Hang.{clear, at};
ghost use Rattle.hangs.specs.Hang.{hang_is};

// No `Option<usize>`: the definition `hang_is`, which the clauses of the hangs name, is over these cases.
#[derive(Clone, Copy)]
pub enum Hang {
    Clear,
    At(usize),
}

// A place that is asked for.
pub fn asked(known: bool, place: usize) -> Hang
    ensures { hang_is result ≡ cond known clear (at place) }
{
    if known {
        return Hang::Clear;
    }
    Hang::At(place)
}
