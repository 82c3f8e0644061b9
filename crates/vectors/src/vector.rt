// A message and its expected digest.
ghost use Rattle.std.specs.Prelude.{◌≡◌, IfOk, string_bytes};
ghost use Rattle.words.specs.Computation.{sha_256};
ghost use Rattle.vectors.specs.Hex.{hex_text};
ghost use Rattle.std.specs.List.{repeat};

use crate::digits::hex;
use std::alloc::{AllocError, Global};
use words::sha256;

// The message is a text, so many times; the expected digest is in hex.
#[derive(Clone, Copy)]
pub(crate) struct Vector {
    pub(crate) name: &'static str,
    pub(crate) text: &'static str,
    pub(crate) times: usize,
    pub(crate) digest: &'static str,
}

impl Vector {
    // The digest of the message by our SHA-256, in hex.
    pub(crate) fn computed(&self, heap: Global) -> Result<String, AllocError>
        ensures { IfOk result (λ t. string_bytes t ≡ hex_text (sha_256 (repeat self.now.times self.now.text.now))) }
    {
        let message = self.text.repeat(heap, self.times)?;
        hex(heap, &sha256(message.as_bytes()))
    }
}
