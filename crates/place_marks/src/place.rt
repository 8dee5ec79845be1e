// The mark of a place before the window, by its number.
ghost use Rattle.std.specs.Prelude.{◌≡◌, List, ℕ, ◌<◌};
ghost use Rattle.bits.specs.Psr.{one_of};
ghost use Rattle.machine.specs.Place.{place, before};
ghost use Rattle.meaning.specs.Map.{known, mark};
ghost use Rattle.place_marks.specs.Word.{map_in};

pub fn is_known(marks: u64, n: usize) -> bool
    requires { n < before }
    ensures { (w : List ℕ) → result ≡ known (map_in marks w) (place n) }
{
    (marks >> n) % 2 == 1
}

pub fn set_known(marks: u64, n: usize, b: bool) -> u64
    requires { n < before }
    ensures { (w : List ℕ) → map_in result w ≡ mark (map_in marks w) (place n) b }
{
    let one = 1u64 << n;
    let bit = bit_of(b);
    (marks - (marks & one)) | (bit << n)
}

fn bit_of(b: bool) -> u64
    ensures { result ≡ one_of b }
{
    if b {
        return 1;
    }
    0
}
