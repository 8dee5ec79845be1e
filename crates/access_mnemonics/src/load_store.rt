// Loads, stores and pairs.
ghost use Rattle.std.specs.Prelude.{◌≡◌, ◌++◌, ◌<◌, cond};
ghost use Rattle.register_fields.specs.Fields.{reg_d};
ghost use Rattle.addresses.specs.Address.{format_of};
ghost use Rattle.text.specs.Text.{clip};
ghost use Rattle.bits.specs.Field.{bit_of};
ghost use Rattle.mnemonics.specs.Ascii.{ascii};
ghost use Rattle.mnemonics.specs.Parts.{named_text, precise_text};
ghost use Rattle.access_mnemonics.specs.LoadStore.{cores_text, pair_of, to_cores, from_cores, pair_text, one_register_text, several_name, several_named, registers_text, several_text, load_store_text};

use addresses::address::count_of;
use bits::field::{bit, bits};
use mnemonics::parts::{core, named, precise, register};
use register_fields::fields::{d_of, m_of};
use registers::registers::{Double, Single};
use text::text::Text;

// The two core registers of a pair.
fn cores(t: Text, op: u32) -> Text
    ensures { result ≡ clip (t ++ cores_text op) }
{
    core(core(t, bits(op, 12, 15)).add(b", "), bits(op, 16, 19))
}

// A double, or two singles: s0 comes after s31.
fn pair_of(t: Text, double: bool, op: u32) -> Text
    ensures { result ≡ clip (t ++ pair_of (format_of double) op) }
{
    if double {
        return register(t, true, m_of::<Double>(op).0);
    }
    let m = m_of::<Single>(op).0;
    register(
        register(t.add(b"{"), false, m).add(b", "),
        false,
        (m + 1) % 32,
    )
    .add(b"}")
}

fn to_cores(t: Text, double: bool, op: u32) -> Text
    ensures { result ≡ clip (t ++ named_text op (to_cores (format_of double))) }
{
    if double {
        return named(t, b"FMRRD", op);
    }
    named(t, b"FMRRS", op)
}

fn from_cores(t: Text, double: bool, op: u32) -> Text
    ensures { result ≡ clip (t ++ named_text op (from_cores (format_of double))) }
{
    if double {
        return named(t, b"FMDRR", op);
    }
    named(t, b"FMSRR", op)
}

fn pair(t: Text, double: bool, op: u32) -> Text
    ensures { result ≡ clip (t ++ pair_text (format_of double) op) }
{
    if bit(op, 20) {
        return pair_of(cores(to_cores(t, double, op), op).add(b", "), double, op);
    }
    cores(
        pair_of(from_cores(t, double, op), double, op).add(b", "),
        op,
    )
}

// The first register of a transfer.
fn first(op: u32, double: bool) -> usize
    ensures { (result ≡ reg_d (format_of double) op) × (result < 32) }
{
    if double {
        let d = d_of::<Double>(op);
        return d.0;
    }
    let d = d_of::<Single>(op);
    d.0
}

// FLD or FST.
fn one_name(t: Text, double: bool, op: u32) -> Text
    ensures { result ≡ clip (t ++ precise_text (format_of double) op (cond (bit_of op 20) (ascii "FLD") (ascii "FST"))) }
{
    if bit(op, 20) {
        return precise(t, b"FLD", double, op);
    }
    precise(t, b"FST", double, op)
}

// One register at base and offset.
fn one_register(t: Text, double: bool, op: u32) -> Text
    ensures { result ≡ clip (t ++ one_register_text (format_of double) op) }
{
    let start = register(one_name(t, double, op), double, first(op, double)).add(b", [");
    let base = core(start, bits(op, 16, 19));
    if bit(op, 23) {
        return base.add(b", #").add_decimal(op % 256 * 4).add(b"]");
    }
    base.add(b", #-").add_decimal(op % 256 * 4).add(b"]")
}

// The name of a transfer of several registers, without its last letter.
fn several_name(t: Text, op: u32) -> Text
    ensures { result ≡ clip (t ++ several_name op) }
{
    if bit(op, 20) {
        if bit(op, 23) {
            return t.add(b"FLDMIA");
        }
        return t.add(b"FLDMDB");
    }
    if bit(op, 23) {
        return t.add(b"FSTMIA");
    }
    t.add(b"FSTMDB")
}

// With its last letter: X is the form of an odd number of words in double precision.
fn several_named(t: Text, double: bool, op: u32) -> Text
    ensures { result ≡ clip (t ++ several_named (format_of double) op) }
{
    let start = several_name(t, op);
    if double {
        if bit(op, 0) {
            return named(start, b"X", op);
        }
        return precise(start, b"", true, op);
    }
    precise(start, b"", false, op)
}

// The first register and the last; numbers from 32 on stand for those from 0 on.
fn registers(t: Text, double: bool, op: u32) -> Text
    ensures { result ≡ clip (t ++ registers_text (format_of double) op) }
{
    let n = first(op, double);
    let count = count_of(op, double);
    if count == 1 {
        return register(t, double, n);
    }
    let last = n + (count - 1) as usize;
    register(register(t, double, n).add(b"-"), double, last)
}

fn several(t: Text, double: bool, op: u32) -> Text
    ensures { result ≡ clip (t ++ several_text (format_of double) op) }
{
    let base = core(several_named(t, double, op), bits(op, 16, 19));
    if bit(op, 21) {
        return registers(base.add(b"!, {"), double, op).add(b"}");
    }
    registers(base.add(b", {"), double, op).add(b"}")
}

// A word of either coprocessor.
pub fn load_store(t: Text, double: bool, op: u32) -> Text
    ensures { result ≡ clip (t ++ load_store_text (format_of double) op) }
{
    if bits(op, 21, 27) == 0b110_0010 {
        return pair(t, double, op);
    }
    // P set and W clear move one register.
    if bit(op, 24) {
        if bit(op, 21) {
            return several(t, double, op);
        }
        return one_register(t, double, op);
    }
    several(t, double, op)
}
