// The numbers of the places (document 01's term), as `number` of specs/Place.antt gives them, and the part of FPSCR that is one.
ghost use Rattle.std.specs.Prelude.{◌≡◌};
ghost use Rattle.machine.specs.Place.{control_of};

// r0, after s0 to s31, and r15.
pub const CORE: usize = 32;

pub const PC: usize = 47;

// FPSCR 31:28, FPSCR 27:5, FPEXC, the condition flags, and FPSCR 4:0.
pub const FLAGS: usize = 48;

pub const CONTROL: usize = 49;

pub const EXC: usize = 50;

pub const NZCV: usize = 51;

pub const EXCEPTIONS: usize = 52;

// The window's first word: so many places stand before it.
pub const WINDOW: usize = 53;

// What the place CONTROL holds of FPSCR: bits 27:5, in position.
pub fn control_of(fpscr: u32) -> u32
    ensures { result ≡ control_of fpscr }
{
    fpscr % 0x1000_0000 / 32 * 32
}
