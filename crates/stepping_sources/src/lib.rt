// Where an unknown place came from in a stepping word: back through its iterations, from the last to the first.
#![tactic(auto)]

mod iteration;
mod vector;

ghost use Rattle.std.specs.Prelude.{◌+◌, ◌*◌, ◌≤◌, length};
ghost use Rattle.register_fields.specs.Fields.{reg_d, reg_n, reg_m};
ghost use Rattle.short_vectors.specs.Vector.{precision};
ghost use Rattle.links.specs.Walked.{WalkedAct};
ghost use Rattle.stepping_sources.specs.Stepping.{stepping_act};

use iteration::named_source;
use links::{Back, link};
use vector::{iterations_of, vector_back};

// From place q, unknown after the word of this index, with FPSCR 27:5 and the marks as they were before it. n is the number of the word's operation, 1 to 13,
// and k pairs are in the list. Most words make one iteration, which is one step back.
pub fn stepping_back(
    marks: u64,
    control: u32,
    double: bool,
    n: u8,
    op: u32,
    q: u32,
    index: u32,
    pairs: &mut [u32],
    k: usize,
) -> Back
    requires { 2 * (k + 8) ≤ length pairs.old }
    ensures { WalkedAct (stepping_act (precision double) control n (reg_d (precision double) op) (reg_n (precision double) op) (reg_m (precision double) op)) index marks q k pairs.old pairs.new result }
{
    if iterations_of(control, double, op) > 1 {
        return vector_back(marks, control, double, n, op, q, index, pairs, k);
    }
    let s = named_source(marks, double, n, op, q);
    link(pairs, k, index, q, s)
}
