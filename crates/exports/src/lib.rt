// The calls that a static library offers to C and Rust.
#![tactic(auto)]

ghost use Rattle.std.specs.Prelude.{◌≡◌};
ghost use Rattle.words.specs.Computation.{sha_256};

// Puts the SHA-256 digest of the message into the place of `digest`.
#[unsafe(no_mangle)]
pub extern "C" fn sizhvelar_sha256(message: &[u8], digest: &mut [u8; 32])
    ensures { digest.new ≡ sha_256 message.now }
{
    *digest = words::sha256(message);
}
