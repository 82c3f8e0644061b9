// The text that a whole input prints.
ghost use Rattle.std.specs.Prelude.{IfOk, string_bytes};
ghost use Rattle.rehearsal_next.specs.Transcript.{Transcript};

use crate::Hall;
use script::STEP;
use std::alloc::{AllocError, Global};

// Plays the steps of an input on a new hall: a line of text for each step, in order.
// The loop stays with its hall: one over any hall needs a trait, a relation of what it plays and an induction for each hall.
pub fn transcript(heap: Global, input: &[u8]) -> Result<String, AllocError>
    ensures { IfOk result (λ text. Transcript input.now (string_bytes text)) }
{
    let mut hall = Hall::new(heap)?;
    let mut text = String::new(heap);
    for (k, piece) in input.chunks(STEP).enumerate() {
        let line = hall.step(k + 1, script::step_bytes(piece));
        text.writeln(line)?;
    }
    Ok(text)
}
