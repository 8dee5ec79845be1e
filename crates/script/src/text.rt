// What a text comes to.
ghost use Rattle.std.specs.Prelude.{◌≡◌};
ghost use Rattle.place_marks.specs.Word.{map_in};
ghost use Rattle.script.specs.Item.{buffers};
ghost use Rattle.script.specs.Taken.{taken_as};
ghost use Rattle.script.specs.Text.{reading, text_reading};

use super::item::{Layout, Window, take_line};
use super::mistake::MistakeAt;
use machine::place::WINDOW;
use tokens::token::{before, content};

// The text's lines in turn, up to the first mistake.
pub fn take(
    text: &[u8],
    state: &mut [u32; WINDOW],
    marks: &mut u64,
    window: &mut [u32; 16384],
    window_marks: &mut [u8; 16384],
    list: &mut [u32; 4096],
) -> Result<Layout, MistakeAt>
    ensures { reading (taken_as result) (buffers state.new (map_in marks.new window_marks.new) window.new list.new) ≡ text_reading text.now (buffers state.old (map_in marks.old window_marks.old) window.old list.old) }
{
    let mut layout = Layout {
        window: Window { base: 0, words: 0 },
        given: false,
        count: 0,
    };
    let mut line: usize = 1;
    let mut at: usize = 0;
    while at < text.len() {
        let whole = before(&text[at..], b'\n');
        let step = take_line(
            layout,
            content(whole),
            state,
            marks,
            window,
            window_marks,
            list,
        );
        layout = match step {
            Ok(next) => next,
            Err(mistake) => return Err(MistakeAt { line, mistake }),
        };
        at += whole.len() + 1;
        line += 1;
    }
    Ok(layout)
}
