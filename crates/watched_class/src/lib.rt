// The class of a watched word.
#![tactic(auto)]

ghost use Rattle.std.specs.Prelude.{◌≡◌, List, ℕ};
ghost use Rattle.machine.specs.Place.{nzcv};
ghost use Rattle.meaning.specs.Map.{known};
ghost use Rattle.place_marks.specs.Word.{map_in};
ghost use Rattle.watched_class.specs.Class.{watched_class_of, disabled_watched_class, enabled_watched_class};

use bits::field::{bit, bits};
use bits::psr::{Psr, check_condition};
use machine::place::{EXC, NZCV, PC};
use place_marks::place::is_known;
use word_class::enable::is_exempt;
use word_class::foreign::foreign;

// As in the plain run; or it hangs on NZCV or on FPEXC before its class is looked at, or with the unit off on r15.
#[derive(Clone, Copy)]
pub enum WatchedClass {
    Data,
    Access,
    Transfer,
    Skipped,
    Foreign,
    Hangs(usize),
    Off,
}

// In an enabled unit: by the tests of `class_of` of crate word_class, in the same order.
fn watched_class(marks: u64, op: u32, flags: Psr) -> WatchedClass
    ensures { (w : List ℕ) → result ≡ watched_class_of (known (map_in marks w) nzcv) op flags }
{
    if op & 0xFF00_0E00 == 0xEE00_0A00 {
        if bit(op, 4) {
            return WatchedClass::Transfer;
        }
        return WatchedClass::Data;
    }
    if op & 0xFE00_0E00 == 0xEC00_0A00 {
        return WatchedClass::Access;
    }
    if foreign(op) {
        return WatchedClass::Foreign;
    }
    let condition = bits(op, 28, 31);
    if (condition != 14) & !is_known(marks, NZCV) {
        return WatchedClass::Hangs(NZCV);
    }
    if !check_condition(condition, flags) {
        return WatchedClass::Skipped;
    }
    if bits(op, 25, 27) == 0b110 {
        return WatchedClass::Access;
    }
    if bit(op, 4) {
        return WatchedClass::Transfer;
    }
    WatchedClass::Data
}

// By FPEXC and its mark too. That FPEXC is known and enables the unit is tested first, as the most frequent.
pub fn enabled_watched_class(marks: u64, op: u32, flags: Psr, fpexc: u32) -> WatchedClass
    ensures { (w : List ℕ) → result ≡ enabled_watched_class (map_in marks w) fpexc op flags }
{
    if is_known(marks, EXC) & bit(fpexc, 30) {
        return watched_class(marks, op, flags);
    }
    disabled_watched_class(marks, op, flags)
}

// With the unit off or not known to be on. An exempt word is a transfer.
fn disabled_watched_class(marks: u64, op: u32, flags: Psr) -> WatchedClass
    ensures { (w : List ℕ) → result ≡ disabled_watched_class (map_in marks w) op flags }
{
    if foreign(op) {
        return WatchedClass::Foreign;
    }
    let code = bits(op, 28, 31);
    if (code != 14) & !is_known(marks, NZCV) {
        return WatchedClass::Hangs(NZCV);
    }
    if !check_condition(code, flags) {
        return WatchedClass::Skipped;
    }
    if is_exempt(op) {
        return WatchedClass::Transfer;
    }
    if !is_known(marks, EXC) {
        return WatchedClass::Hangs(EXC);
    }
    if is_known(marks, PC) {
        return WatchedClass::Off;
    }
    WatchedClass::Hangs(PC)
}
