// An exit or a stop as its kind and the five words of an answer: count, place, address, word, known places.
#![tactic(auto)]

ghost use Rattle.std.specs.Prelude.{◌≡◌, [], ◌∷◌, ◌^◌, ◌<◌, length};
ghost use Rattle.meaning.specs.Stop.{report};
ghost use Rattle.vfp.specs.Call.{exit_report};
ghost use Rattle.run_word.specs.Stop.{stop_of};
ghost use Rattle.answer.specs.Answer.{answer_of};

use run_word::Stop;
use vfp::Exit;

// The kind of an exit; the values that it has go into the answer.
pub fn report_exit(exit: Exit, answer: &mut [u32]) -> u32
    requires { length answer.old ≡ 5 }
    ensures { (result ≡ (exit_report exit).kind) × (answer.new ≡ answer_of 0 (exit_report exit) 0) }
{
    match exit {
        Exit::Nothing => write_answer(answer, 0, 0, 0, 0, 0, 0),
        Exit::Undefined { pc, opcode } => write_answer(answer, 2, 0, 0, pc, opcode, 0),
        Exit::Branched => write_answer(answer, 3, 0, 0, 0, 0, 0),
        Exit::Refused(n) => write_answer(answer, 100 + n as u32, 0, 0, 0, 0, 0),
    }
}

// The same of a run's stop, with the count and the number of known places.
pub fn report_stop(stop: Stop, count: usize, known: usize, answer: &mut [u32]) -> u32
    requires { (length answer.old ≡ 5) × (count < 2 ^ 32) × ((report (stop_of stop)).place < 2 ^ 32) }
    ensures { (result ≡ (report (stop_of stop)).kind) × (answer.new ≡ answer_of count (report (stop_of stop)) known) }
{
    let counted = count as u32;
    let shown = (known % 0x1_0000_0000) as u32;
    match stop {
        Stop::Finished => write_answer(answer, 0, counted, 0, 0, 0, shown),
        Stop::Foreign => write_answer(answer, 1, counted, 0, 0, 0, shown),
        Stop::Undefined { pc, opcode } => write_answer(answer, 2, counted, 0, pc, opcode, shown),
        Stop::Branched => write_answer(answer, 3, counted, 0, 0, 0, shown),
        Stop::Hangs(place) => write_answer(answer, 4, counted, place as u32, 0, 0, shown),
        Stop::Refused(n) => write_answer(answer, 100 + n as u32, counted, 0, 0, 0, shown),
    }
}

// Writes an answer, and hands its kind back.
fn write_answer(
    answer: &mut [u32],
    kind: u32,
    count: u32,
    place: u32,
    address: u32,
    word: u32,
    known: u32,
) -> u32
    requires { length answer.old ≡ 5 }
    ensures { (result ≡ kind) × (answer.new ≡ count ∷ place ∷ address ∷ word ∷ known ∷ []) }
{
    answer[0] = count;
    answer[1] = place;
    answer[2] = address;
    answer[3] = word;
    answer[4] = known;
    kind
}
