// Bytes in hex.
ghost use Rattle.std.specs.Prelude.{◌≡◌, ◌<◌, IfOk, string_bytes};
ghost use Rattle.vectors.specs.Hex.{hex_digit, hex_text};

use std::alloc::{AllocError, Global};

// The bytes in hex: two digits for each, the higher first.
#[tactic(auto, using(std::proofs::lemmas::List::append_assoc, crate::proofs::Writing::hex_more))]
pub(crate) fn hex(heap: Global, bytes: &[u8]) -> Result<String, AllocError>
    ensures { IfOk result (λ t. string_bytes t ≡ hex_text bytes.now) }
{
    let mut text = String::new(heap);
    for byte in bytes {
        text.push(digit(byte / 16))?;
        text.push(digit(byte % 16))?;
    }
    Ok(text)
}

// The digit of a number below 16.
fn digit(number: u8) -> char
    requires { number < 16 }
    ensures value { result ≡ hex_digit number }
    ensures ascii { result < 128 }
{
    if number < 10 {
        char::from(b'0' + number)
    } else {
        char::from(b'a' - 10 + number)
    }
}
