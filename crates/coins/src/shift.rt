// The step of the shift register.
ghost use Rattle.std.specs.Prelude.{◌≡◌, ◌≤◌};
ghost use Rattle.coins.specs.Register.{feedback_of, next_register};

use crate::bits::bit;

// The bit that enters: the exclusive or of bits 0, 2, 3 and 5.
fn feedback(register: u16) -> u8
    ensures { result ≡ feedback_of register }
{
    bit(register, 0) ^ bit(register, 2) ^ bit(register, 3) ^ bit(register, 5)
}

// The register after one bit: shifted right by one, with the feedback as bit 15.
pub(crate) fn shifted(register: u16) -> u16
    ensures value { result ≡ next_register register }
    ensures live { 1 ≤ register → 1 ≤ result }
{
    (register >> 1) | (u16::from(feedback(register)) << 15)
}
