// Register transfers.
ghost use Rattle.std.specs.Prelude.{◌≡◌, ◌++◌, ◌<◌, ◌^◌};
ghost use Rattle.addresses.specs.Address.{format_of};
ghost use Rattle.text.specs.Text.{clip};
ghost use Rattle.transfer_mnemonics.specs.Transfer.{system_name, system_text, moved_text, single_text, transfer_text};

use bits::field::{bit, bits};
use mnemonics::parts::{condition, core, named, register};
use register_fields::fields::n_of;
use registers::registers::Single;
use text::text::Text;
use transfers::{Transfer, is_high_half, transfer_of};

// A system register.
fn system_name(t: Text, n: u32) -> Text
    ensures { result ≡ clip (t ++ system_name n) }
{
    if n == 0 {
        return t.add(b"FPSID");
    }
    if n == 1 {
        return t.add(b"FPSCR");
    }
    if n == 8 {
        return t.add(b"FPEXC");
    }
    t.add(b"cr").add_decimal(n)
}

// Opc1 7. FMSTAT is FMRX r15, FPSCR.
fn system(t: Text, op: u32) -> Text
    ensures { result ≡ clip (t ++ system_text op) }
{
    let rt = bits(op, 12, 15);
    let n = bits(op, 16, 19);
    if bit(op, 20) {
        if rt == 15 {
            if n == 1 {
                return condition(t.add(b"FMSTAT"), op);
            }
            return system_name(core(named(t, b"FMRX", op), rt).add(b", "), n);
        }
        return system_name(core(named(t, b"FMRX", op), rt).add(b", "), n);
    }
    core(system_name(named(t, b"FMXR", op), n).add(b", "), rt)
}

// A register of the unit, read to a core register (bit 20) or written from it, by the name of either.
fn moved(t: Text, read: &[u8], written: &[u8], double: bool, n: usize, op: u32) -> Text
    requires { n < 2 ^ 32 }
    ensures { result ≡ clip (t ++ moved_text read.now written.now (format_of double) n op) }
{
    let rt = bits(op, 12, 15);
    if bit(op, 20) {
        return register(core(named(t, read, op), rt).add(b", "), double, n);
    }
    core(register(named(t, written, op), double, n).add(b", "), rt)
}

// A double's high half, or a single.
fn single(t: Text, op: u32) -> Text
    ensures { result ≡ clip (t ++ single_text op) }
{
    if is_high_half(op) {
        let n = bits(op, 16, 19) as usize;
        return moved(t, b"FMRDH", b"FMDHR", true, n, op);
    }
    let n = n_of::<Single>(op).0;
    moved(t, b"FMRS", b"FMSR", false, n, op)
}

pub fn transfer(t: Text, op: u32) -> Text
    ensures { result ≡ clip (t ++ transfer_text op) }
{
    let transfer = transfer_of(op);
    match transfer {
        Transfer::System => system(t, op),
        Transfer::Single(_) => single(t, op),
        Transfer::Nothing => t.add(b"nothing"),
    }
}
