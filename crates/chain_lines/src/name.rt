// The name of a word's operation: what stands before the first space of the word in the manual's spelling.
ghost use Rattle.std.specs.Prelude.{◌≡◌, ◌++◌, length};
ghost use Rattle.decoding.specs.Table.{operation_table};
ghost use Rattle.text.specs.Text.{clip};
ghost use Rattle.chain_lines.specs.Name.{before_space, operation_name};

use disassembly::line::word;
use text::text::Text;

// How many bytes stand before the first space.
fn count_before_space(bytes: &[u8]) -> usize
    ensures { result ≡ length (before_space bytes.now) }
{
    bytes.iter().position(|b| *b == b' ').unwrap_or(bytes.len())
}

fn add_before_space(t: Text, bytes: &[u8]) -> Text
    ensures { result ≡ clip (t ++ before_space bytes.now) }
{
    let n = count_before_space(bytes);
    t.add(&bytes[..n])
}

// The name of a word's operation. The decode table is lent.
pub fn name(table: &[u8; 1024], t: Text, op: u32) -> Text
    requires { table.now ≡ operation_table }
    ensures { result ≡ clip (t ++ operation_name op) }
{
    let line = word(table, Text::new(), op);
    add_before_space(t, line.as_bytes())
}
