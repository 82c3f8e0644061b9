// The bytes of a step.
ghost use Rattle.std.specs.Prelude.{◌≡◌};
ghost use Rattle.script.specs.Steps.{filled_up};

use std::array;

// How many bytes a step has.
pub const STEP: usize = 8;

// What fills a last step that was cut.
const FILL: u8 = 255;

// The bytes of the step that a piece of the input has, filled up where it was cut.
pub fn step_bytes(piece: &[u8]) -> [u8; 8]
    ensures { result ≡ filled_up piece.now }
{
    array::from_fn(|place| piece.get(place).copied().unwrap_or(FILL))
}
