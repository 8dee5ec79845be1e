// The class of a word.
ghost use Rattle.std.specs.Prelude.{◌≡◌};
ghost use Rattle.word_class.specs.Class.{class_of, disabled_class, enabled_class};

use super::enable::is_exempt;
use super::foreign::foreign;
use bits::field::{bit, bits};
use bits::psr::{Psr, check_condition};

// What a run does with a word under the flags and FPEXC as they are. A skipped word is counted; off is a word of a unit that is not enabled.
#[derive(Clone, Copy)]
pub enum Class {
    Data,
    Access,
    Transfer,
    Skipped,
    Foreign,
    Off,
}

// The class of a word in an enabled unit. Words of condition 1110, which are most, are told by one mask: bits 31:24 and 11:9, or 31:25 and 11:9.
pub fn class_of(op: u32, flags: Psr) -> Class
    ensures { result ≡ class_of op flags }
{
    if op & 0xFF00_0E00 == 0xEE00_0A00 {
        if bit(op, 4) {
            return Class::Transfer;
        }
        return Class::Data;
    }
    if op & 0xFE00_0E00 == 0xEC00_0A00 {
        return Class::Access;
    }
    if foreign(op) {
        return Class::Foreign;
    }
    if !check_condition(bits(op, 28, 31), flags) {
        return Class::Skipped;
    }
    if bits(op, 25, 27) == 0b110 {
        return Class::Access;
    }
    if bit(op, 4) {
        return Class::Transfer;
    }
    Class::Data
}

// The class of a word under FPEXC, whose bit 30 enables the unit.
pub fn enabled_class(op: u32, flags: Psr, fpexc: u32) -> Class
    ensures { result ≡ enabled_class op flags fpexc }
{
    if bit(fpexc, 30) {
        return class_of(op, flags);
    }
    disabled_class(op, flags)
}

// With the unit off. An exempt word is a transfer.
fn disabled_class(op: u32, flags: Psr) -> Class
    ensures { result ≡ disabled_class op flags }
{
    if foreign(op) {
        return Class::Foreign;
    }
    let condition = bits(op, 28, 31);
    if !check_condition(condition, flags) {
        return Class::Skipped;
    }
    if is_exempt(op) {
        return Class::Transfer;
    }
    Class::Off
}
