// The machine by value, and its window of memory.
#![tactic(auto)]

pub mod address;
pub mod place;
pub mod window;

ghost use Rattle.std.specs.Prelude.{◌≡◌};
ghost use Rattle.machine.specs.Machine.{new_machine};

use bits::psr::Psr;

// The singles as raw bits, the core registers, FPSCR, FPEXC, the condition flags and the Thumb bit.
#[derive(Clone, Copy)]
pub struct Machine {
    pub s: [u32; 32],
    pub r: [u32; 16],
    pub fpscr: u32,
    pub fpexc: u32,
    pub cpsr: Psr,
    pub thumb: bool,
}

// What is no array of a machine: it travels by value beside the lent arrays.
#[derive(Clone, Copy)]
pub struct Controls {
    pub fpscr: u32,
    pub fpexc: u32,
    pub cpsr: Psr,
}

impl Machine {
    // All zero, but for the enable bit of FPEXC.
    pub fn new() -> Machine
        ensures { result ≡ new_machine }
    {
        Machine {
            s: [0; 32],
            r: [0; 16],
            fpscr: 0,
            fpexc: 0x4000_0000,
            cpsr: Psr {
                n: false,
                z: false,
                c: false,
                v: false,
            },
            thumb: false,
        }
    }
}
