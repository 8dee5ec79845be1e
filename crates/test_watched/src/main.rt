// Runs the watch: document 01's example, the mark rules word by word, words with the unit off, random lists from two machines that differ in unknown places, and with two maps
// of which one knows more.
#![tactic(auto)]

mod enable;
mod exact;
mod machines;
mod more;
mod sides;

use machine::Machine;
use sides::{Side, at, place, watched};
use std::io;

fn text(rt: &impl Print, b: &str) -> io::Result<()> {
    print!(rt; "{b}")
}

fn number(rt: &impl Print, x: u64) -> io::Result<()> {
    print!(rt; "{x}")
}

// The places that a map calls unknown.
fn unknown(rt: &impl Print, k: u64) -> io::Result<()> {
    for p in 0..64 {
        if !at(k, p) {
            text(rt, " ")?;
            number(rt, p as u64)?;
        }
    }
    Ok(())
}

// The window's words are all known and none is named.
fn example(rt: &impl Print) -> io::Result<()> {
    let machine = Machine::new();
    let window = [0; 11];
    let side = Side { machine, window };
    let list: [u32; 4] = [0xEE30_0A00, 0xEEB5_0A40, 0xEEF1_FA10, 0x0E30_0A00];
    let a = watched(side, 0xFFFF_FFFF_FFFF_FFFF ^ place(0), &list[..]);
    let kind = a.kind;
    let value = a.value;
    let count = a.count;
    print!(rt; "document 01's watch: stop {kind} value {value}, count {count}, unknown")?;
    unknown(rt, a.known)?;
    text(rt, "\n")
}

// How many words and maps there were of a sort, and how many of them differ.
fn line(rt: &impl Print, t: exact::Tally, sort: &str) -> io::Result<()> {
    let words = t.words;
    let maps = t.maps;
    let differ = t.differ;
    println!(rt; "{words} words {sort}, {maps} maps, {differ} differ")
}

fn by_rules(rt: &impl Print) -> io::Result<()> {
    line(rt, exact::exactness(rt)?, "by the mark rules")
}

fn disabled(rt: &impl Print) -> io::Result<()> {
    line(rt, enable::off_cases(), "with FPEXC bit 30 clear")
}

fn named(rt: &impl Print, name: &str, x: u64) -> io::Result<()> {
    text(rt, name)?;
    number(rt, x)
}

fn random(rt: &impl Print) -> io::Result<()> {
    let t = machines::lists();
    number(rt, t.lists)?;
    named(rt, " random lists, words counted ", t.counted)?;
    named(rt, ", finished ", t.finished)?;
    named(rt, ", foreign ", t.foreign)?;
    named(rt, ", undefined ", t.undefined)?;
    named(rt, ", branched ", t.branched)?;
    named(rt, ", hanging ", t.hangs)?;
    named(rt, ", differ ", t.differ)?;
    text(rt, "\n")
}

fn raised(rt: &impl Print) -> io::Result<()> {
    let t = more::lists();
    number(rt, t.lists)?;
    named(
        rt,
        " random lists with more known, counting more ",
        t.longer,
    )?;
    named(rt, ", knowing more ", t.wider)?;
    named(rt, ", showing less ", t.less)?;
    text(rt, "\n")
}

fn main(rt: HostRuntime) -> io::Result<()> {
    example(&rt)?;
    by_rules(&rt)?;
    disabled(&rt)?;
    random(&rt)?;
    raised(&rt)
}
