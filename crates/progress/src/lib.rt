// How far a run is: its state between two words, what it hands back, and the words not yet run.
#![tactic(auto)]

pub mod rest;

ghost use Rattle.std.specs.Prelude.{◌≡◌, false};
ghost use Rattle.machine.specs.Machine.{assembled, controls_of};

use machine::{Controls, Machine};
use run_word::Stop;

// The stop, how many words were counted, and the machine handed back.
#[derive(Clone, Copy)]
pub struct Ran {
    pub stop: Stop,
    pub count: usize,
    pub machine: Machine,
}

// The state of a run between two words, in ARM state: the machine in its parts, which are lent to the words.
#[derive(Clone, Copy)]
pub struct Progress {
    pub s: [u32; 32],
    pub r: [u32; 16],
    pub controls: Controls,
}

impl Progress {
    // The machine in its parts.
    pub fn new(machine: Machine) -> Progress
        ensures { (result.s ≡ machine.s) × (result.r ≡ machine.r) × (result.controls ≡ controls_of machine) }
    {
        let s = machine.s;
        let r = machine.r;
        let cpsr = machine.cpsr;
        Progress {
            s,
            r,
            controls: Controls {
                fpscr: machine.fpscr,
                fpexc: machine.fpexc,
                cpsr,
            },
        }
    }

    // Hands the machine back.
    pub fn machine(self) -> Machine
        ensures { result ≡ assembled self.s self.r self.controls false }
    {
        let s = self.s;
        let r = self.r;
        let x = self.controls;
        let cpsr = x.cpsr;
        Machine {
            s,
            r,
            fpscr: x.fpscr,
            fpexc: x.fpexc,
            cpsr,
            thumb: false,
        }
    }

    // Hands the machine back with the stop and the count.
    pub fn ended(self, stop: Stop, count: usize) -> Ran
        ensures { (result.stop ≡ stop) × (result.count ≡ count) × (result.machine ≡ assembled self.s self.r self.controls false) }
    {
        let machine = self.machine();
        Ran {
            stop,
            count,
            machine,
        }
    }
}
