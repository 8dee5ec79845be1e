// The parts of an instruction as an assembler of the manual's time writes it (ARM DDI 0100I, C4): name, condition, precision, registers.
#![tactic(auto)]

pub mod parts;
