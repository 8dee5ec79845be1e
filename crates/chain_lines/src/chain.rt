// The items of a chain: the place that was unknown at the start, and a link for each pair.
ghost use Rattle.std.specs.Prelude.{◌≡◌, ◌++◌, ◌+◌, ◌*◌, ◌<◌, length};
ghost use Rattle.decoding.specs.Table.{operation_table};
ghost use Rattle.text.specs.Text.{clip};
ghost use Rattle.chain_lines.specs.Chain.{first_text, separator_text, link_text, later_text};

use super::name::name;
use place_values::place::word;
use text::text::Text;

// The first item.
pub fn first(p: u32) -> Text
    ensures { result ≡ clip (first_text p) }
{
    Text::new().add_place(p).add(b" unknown at power-up")
}

// What stands between two items, by the number of those before it.
fn separator(n: usize) -> Text
    ensures { result ≡ clip (separator_text n) }
{
    if n % 4 == 0 {
        return Text::new().add(b";\n  ");
    }
    Text::new().add(b"; ")
}

// The word of an index, which makes place p unknown. The first is word 1.
fn link(table: &[u8; 1024], t: Text, list: &[u32], i: u32, p: u32) -> Text
    requires { table.now ≡ operation_table }
    ensures { result ≡ clip (t ++ link_text list.now i p) }
{
    let n = i as usize;
    let start = t.add(b"word ").add_count(n + 1).add(b" ");
    name(table, start, word(list, n)).add(b": ").add_place(p)
}

// The item of pair k, with what stands before it.
pub fn later(table: &[u8; 1024], list: &[u32], pairs: &[u32], k: usize) -> Text
    requires { (table.now ≡ operation_table) × (2 * k + 1 < length pairs.now) }
    ensures { result ≡ clip (later_text list.now pairs.now k) }
{
    let start = separator(k + 1);
    link(table, start, list, pairs[2 * k], pairs[2 * k + 1])
}
