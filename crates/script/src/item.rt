// What an item does to what the lines before it left.
ghost use Rattle.std.specs.Prelude.{◌≡◌, List, false, ℕ, drop, set};
ghost use Rattle.machine.specs.Place.{place};
ghost use Rattle.layout.specs.State.{in_position};
ghost use Rattle.meaning.specs.Map.{Map, mark};
ghost use Rattle.place_marks.specs.Word.{map_in};
ghost use Rattle.place_names.specs.Place.{own_bits};
ghost use Rattle.tokens.specs.Token.{words_of};
ghost use Rattle.script.specs.Layout.{layout_of};
ghost use Rattle.script.specs.Step.{told};
ghost use Rattle.script.specs.Item.{buffers, outcome, is_place, store, put_at, word_outcome, set_outcome, unknown_outcome, window_step, line_outcome};

use super::mistake::Mistake;
use limits::limit::window_limit;
use listing::line::{Item, item_of, next_place};
use machine::place::{CONTROL, EXCEPTIONS, FLAGS, NZCV, WINDOW, control_of};
use place_marks::place::set_known;

// The window of memory: its base, and its count of words.
#[derive(Clone, Copy, Debug, PartialEq, Eq)]
pub struct Window {
    pub base: u32,
    pub words: usize,
}

// The window, whether one was given, and the count of instruction words. No `Option`: `take_line` says what a line comes to where none was given, whatever the
// window has.
#[derive(Clone, Copy, Debug, PartialEq, Eq)]
pub struct Layout {
    pub window: Window,
    pub given: bool,
    pub count: usize,
}

impl Layout {
    // The window's base.
    pub fn base(self) -> u32
        ensures { result ≡ (layout_of self).base }
    {
        self.window.base
    }

    // The window's count of words.
    pub fn words(self) -> usize
        ensures { result ≡ (layout_of self).words }
    {
        self.window.words
    }
}

// Whether there is a place of a number, where the window has so many words.
#[tactic(auto, using(std::proofs::lemmas::Bool::Decides::nat_tests), unfolding(crate::specs::Item::is_place))]
fn is_place(words: usize, p: usize) -> bool
    ensures { result ≡ is_place words p }
{
    p < WINDOW || p - WINDOW < words
}

// A place's bits as the state's word has them.
#[tactic(auto, unfolding(machine::specs::Place::place))]
fn in_position(p: usize, value: u32) -> u32
    ensures { result ≡ in_position (place p) (own_bits (place p) value) }
{
    match p {
        FLAGS | NZCV => value % 16 * 0x1000_0000,
        CONTROL => control_of(value),
        EXCEPTIONS => value % 32,
        _ => value,
    }
}

fn put_word(window: &mut [u32; 16384], i: usize, value: u32)
    ensures { window.new ≡ store window.old i value }
{
    if i < 16384 {
        window[i] = value;
    }
}

// A word of the window that is unknown. Past the end there is no mark.
fn clear_mark(marks: &mut [u8], i: usize)
    ensures { marks.new ≡ set marks.old i 0 }
{
    if i < marks.len() {
        marks[i] = 0;
    }
}

fn put_place(state: &mut [u32; WINDOW], window: &mut [u32; 16384], p: usize, value: u32)
    ensures { (μ : Map) (l : List ℕ) → buffers state.new μ window.new l ≡ put_at p value (buffers state.old μ window.old l) }
{
    if p < WINDOW {
        state[p] = in_position(p, value);
        return;
    }
    put_word(window, p - WINDOW, value);
}

fn mark_unknown(marks: &mut u64, window_marks: &mut [u8; 16384], p: usize)
    ensures { map_in marks.new window_marks.new ≡ mark (map_in marks.old window_marks.old) (place p) false }
{
    if p < WINDOW {
        *marks = set_known(*marks, p, false);
        return;
    }
    clear_mark(window_marks, p - WINDOW);
}

fn set_place(
    layout: Layout,
    state: &mut [u32; WINDOW],
    window: &mut [u32; 16384],
    p: usize,
    value: u32,
) -> Result<Layout, Mistake>
    ensures { (μ : Map) (l : List ℕ) → outcome (told result) (buffers state.new μ window.new l) ≡ set_outcome p value (layout_of layout) (buffers state.old μ window.old l) }
{
    let words = layout.words();
    if is_place(words, p) {
        put_place(state, window, p, value);
        return Ok(layout);
    }
    Err(Mistake::Beyond(words))
}

// The places that a line names from a position on, up to the first mistake.
fn mark_all_unknown(
    layout: Layout,
    marks: &mut u64,
    window_marks: &mut [u8; 16384],
    line: &[u8],
    from: usize,
) -> Result<Layout, Mistake>
    ensures { (s w l : List ℕ) → outcome (told result) (buffers s (map_in marks.new window_marks.new) w l) ≡ unknown_outcome (words_of (drop from line.now)) (layout_of layout) (buffers s (map_in marks.old window_marks.old) w l) }
{
    let words = layout.words();
    let mut at = from;
    while let Some((place, after)) = next_place(line, at)? {
        let p = place as usize;
        if !is_place(words, p) {
            return Err(Mistake::Beyond(words));
        }
        mark_unknown(marks, window_marks, p);
        at = after;
    }
    Ok(layout)
}

fn set_window(layout: Layout, base: u32, words: usize) -> Result<Layout, Mistake>
    ensures { told result ≡ window_step base words (layout_of layout) }
{
    if layout.given {
        return Err(Mistake::Again);
    }
    match window_limit(base, words) {
        0 => Ok(Layout {
            window: Window { base, words },
            given: true,
            ..layout
        }),
        limit => Err(Mistake::Refused(limit)),
    }
}

fn add_word(layout: Layout, list: &mut [u32; 4096], word: u32) -> Result<Layout, Mistake>
    ensures { (s w : List ℕ) (μ : Map) → outcome (told result) (buffers s μ w list.new) ≡ word_outcome word (layout_of layout) (buffers s μ w list.old) }
{
    let n = layout.count;
    if 4096 <= n {
        return Err(Mistake::Words);
    }
    list[n] = word;
    Ok(Layout {
        count: n + 1,
        ..layout
    })
}

// A line, which has no comment and no line end.
pub fn take_line(
    layout: Layout,
    line: &[u8],
    state: &mut [u32; WINDOW],
    marks: &mut u64,
    window: &mut [u32; 16384],
    window_marks: &mut [u8; 16384],
    list: &mut [u32; 4096],
) -> Result<Layout, Mistake>
    ensures { outcome (told result) (buffers state.new (map_in marks.new window_marks.new) window.new list.new) ≡ line_outcome line.now (layout_of layout) (buffers state.old (map_in marks.old window_marks.old) window.old list.old) }
{
    match item_of(line)? {
        Item::Nothing => Ok(layout),
        Item::Word(x) => add_word(layout, list, x),
        Item::Set { place, value } => set_place(layout, state, window, place as usize, value),
        Item::Unknown(from) => mark_all_unknown(layout, marks, window_marks, line, from),
        Item::Window { base, count } => set_window(layout, base, count as usize),
    }
}
