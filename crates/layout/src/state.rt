// A machine in the words of a state.
ghost use Rattle.std.specs.Prelude.{◌≡◌, length};
ghost use Rattle.machine.specs.Place.{before};
ghost use Rattle.layout.specs.State.{encode, decode, valid, Valid};

use bits::psr::Psr;
use machine::{Machine, place};

// The machine of a state's words.
pub fn decode(state: &[u32], thumb: bool) -> Machine
    requires { Valid state.now }
    ensures { result ≡ decode thumb state.now }
{
    let mut s = [0u32; 32];
    for i in 0..place::CORE {
        s[i] = state[i];
    }
    let mut r = [0u32; 16];
    for i in 0..16 {
        r[i] = state[place::CORE + i];
    }
    Machine {
        s,
        r,
        fpscr: state[place::FLAGS] + state[place::CONTROL] + state[place::EXCEPTIONS],
        fpexc: state[place::EXC],
        cpsr: Psr::from_bits(state[place::NZCV]),
        thumb,
    }
}

// A machine's words.
pub fn encode(machine: Machine, state: &mut [u32])
    requires { length state.old ≡ before }
    ensures { state.new ≡ encode machine }
{
    let s = machine.s;
    for i in 0..place::CORE {
        state[i] = s[i];
    }
    let r = machine.r;
    for i in 0..16 {
        state[place::CORE + i] = r[i];
    }
    let fpscr = machine.fpscr;
    let cpsr = machine.cpsr;
    state[place::FLAGS] = fpscr / 0x1000_0000 * 0x1000_0000;
    state[place::CONTROL] = place::control_of(fpscr);
    state[place::EXC] = machine.fpexc;
    state[place::NZCV] = Psr::to_bits(cpsr);
    state[place::EXCEPTIONS] = fpscr % 32;
}

// Whether words are a machine's.
pub fn is_valid(state: &[u32]) -> bool
    ensures { result ≡ valid state.now }
{
    if state.len() != place::WINDOW {
        return false;
    }
    if state[place::FLAGS] % 0x1000_0000 != 0 {
        return false;
    }
    let control = state[place::CONTROL];
    if place::control_of(control) != control {
        return false;
    }
    if state[place::NZCV] % 0x1000_0000 != 0 {
        return false;
    }
    state[place::EXCEPTIONS] < 32
}
