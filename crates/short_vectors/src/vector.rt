// How many iterations a word makes, and the registers of each.
ghost use Rattle.std.specs.Prelude.{◌≡◌, cond, ltb, ◌≤◌};
ghost use Rattle.short_vectors.specs.Vector.{stride_of, step_of, second_of, Vectored, Steppable};
ghost use Rattle.registers.specs.Registers.{bank_of};

use registers::register::Register;

#[derive(Clone, Copy)]
pub struct Vector {
    pub iterations: usize,
    pub stride: usize,
    pub bank: usize,
}

impl Vector {
    // Over registers of either precision, from the destination.
    pub fn new<R: Register>(control: u32, destination: R) -> Vector
        ensures { Vectored R.Word.format control (R.number destination) result }
    {
        let more = (control / 0x1_0000 % 8) as usize;
        let steps = beyond(destination);
        Vector {
            iterations: 1 + more * steps,
            stride: stride_of(control),
            bank: R::BANK,
        }
    }

    // The register of an iteration: it stays in its bank.
    pub fn step(self, register: usize, iteration: usize) -> usize
        requires { Steppable self register iteration }
        ensures { result ≡ step_of self.bank self.stride register iteration }
    {
        let bank = self.bank;
        let stride = self.stride;
        register / bank * bank + (register + iteration * stride) % bank
    }

    // The register m of an iteration: in bank 0 it stays.
    pub fn second(self, register: usize, iteration: usize) -> usize
        requires { Steppable self register iteration }
        ensures { result ≡ second_of self.bank self.stride register iteration }
    {
        if register < self.bank {
            return register;
        }
        self.step(register, iteration)
    }
}

fn stride_of(control: u32) -> usize
    ensures { result ≡ stride_of control }
{
    if control / 0x10_0000 % 4 == 3 { 2 } else { 1 }
}

// 1 for a register beyond bank 0, else 0. It is reckoned and not tested: a branch on it is mispredicted where a program uses both.
fn beyond<R: Register>(register: R) -> usize
    ensures { (result ≡ cond (ltb (R.number register) (bank_of R.Word.format)) 0 1) × (result ≤ 1) }
{
    let n = register.index();
    if n >= 32 {
        return 1;
    }
    (n / R::BANK + 7) / 8
}
