// A word as an assembler of the manual's time writes it (ARM DDI 0100I, C4): what the unit does with it, by name and registers.
#![tactic(auto)]

pub mod line;
