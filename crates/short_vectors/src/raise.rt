// The cumulative exception bits, FPSCR 4:0.
ghost use Rattle.std.specs.Prelude.{◌≡◌, ◌<◌};
ghost use Rattle.short_vectors.specs.Register.{raised_in};

// FPSCR after an operation that raised exceptions.
pub fn raise(fpscr: u32, exceptions: u32) -> u32
    requires { exceptions < 32 }
    ensures { result ≡ raised_in fpscr exceptions }
{
    fpscr | exceptions
}
