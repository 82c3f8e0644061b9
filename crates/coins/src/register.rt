// A coin made of a shift register, which is never 0.
ghost use Rattle.std.specs.Prelude.{◌≤◌};

mod methods;

// The bits of a linear feedback shift register of 16 bits with taps 0, 2, 3 and 5.
// It cannot be copied, so that no bit is tossed twice.
#[derive(Drop, Debug)]
pub struct RegisterCoin {
    register: u16,
    left: u16,
    ghost live: { 1 ≤ register },
}
