// A word at an address, as the service tool lists it.
ghost use Rattle.std.specs.Prelude.{◌≡◌, ◌++◌};
ghost use Rattle.decoding.specs.Table.{operation_table};
ghost use Rattle.text.specs.Text.{clip};
ghost use Rattle.disassembly.specs.Line.{word_text, address_text, line_of};

use access_mnemonics::load_store::load_store;
use bits::field::{bit, bits};
use decode_table::table::operation;
use processing_mnemonics::data::data;
use text::text::Text;
use transfer_mnemonics::transfer::transfer;
use word_class::foreign::foreign;

// What a word is, by its class. The decode table is lent.
pub fn word(table: &[u8; 1024], t: Text, op: u32) -> Text
    requires { table.now ≡ operation_table }
    ensures { result ≡ clip (t ++ word_text op) }
{
    if foreign(op) {
        return t.add(b"foreign");
    }
    let double = bit(op, 8);
    if bits(op, 25, 27) == 0b110 {
        return load_store(t, double, op);
    }
    if bit(op, 4) {
        return transfer(t, op);
    }
    data(t, double, op, operation(table, op))
}

// An address, if it is known.
fn address_or_unknown(known: bool, address: u32) -> Text
    ensures { result ≡ clip (address_text known address) }
{
    if known {
        return Text::new().add_hex(address);
    }
    Text::new().add(b"????????")
}

// A line of a list: the word's address, the word, and what it is.
pub fn line(table: &[u8; 1024], known: bool, address: u32, op: u32) -> Text
    requires { table.now ≡ operation_table }
    ensures { result ≡ clip (line_of known address op) }
{
    let start = address_or_unknown(known, address)
        .add(b": ")
        .add_hex(op)
        .add(b" ");
    word(table, start, op)
}
