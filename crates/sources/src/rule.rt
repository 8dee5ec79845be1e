// One step back from place q, by the rule of a step.
ghost use Rattle.std.specs.Prelude.{ℕ, ◌+◌, ◌≤◌, List};
ghost use Rattle.machine.specs.Place.{Place};
ghost use Rattle.meaning.specs.Step.{Step};
ghost use Rattle.sources.specs.Source.{Picks, Tracing};
ghost use Rattle.sources.specs.Rule.{Rule, Copying};

use super::Source;
use machine::place::EXCEPTIONS;
use place_marks::place::is_known;

// A number operation writes so many places from the first on, for which from is an unknown one of those that it reads, and the cumulative exception bits,
// for which raised is one besides themselves.
pub fn source_of(marks: u64, q: u32, first: u32, words: u32, from: u32, raised: u32) -> Source
    requires { first + words ≤ 52 }
    ensures { (x : Step) (s t : List Place) → Rule x first words s t → Picks marks s from → Picks marks t raised → Tracing x marks q result }
{
    if q == EXCEPTIONS as u32 {
        if is_known(marks, EXCEPTIONS) {
            return Source::From(raised);
        }
        return Source::From(EXCEPTIONS as u32);
    }
    if q < first {
        return Source::Kept;
    }
    if q >= first + words {
        return Source::Kept;
    }
    Source::From(from)
}

// A step that copies so many words from a place on.
pub fn copy_of(q: u32, first: u32, words: u32, from: u32) -> Source
    requires { (first + words ≤ 52) × (from + words ≤ 52) }
    ensures { (x : Step) → Copying x first words from → (marks : ℕ) → Tracing x marks q result }
{
    if q < first {
        return Source::Kept;
    }
    if q >= first + words {
        return Source::Kept;
    }
    Source::From(from + (q - first))
}
