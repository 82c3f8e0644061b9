// The two forms of a list.
ghost use Rattle.std.specs.Prelude.{◌≡◌, ℕ, List};
ghost use Rattle.words.specs.Checks.{same_bytes};
ghost use Rattle.words.specs.Computation.{sha_256};

use crate::compare::same;
use crate::sha256;

// What a list holds for a word.
pub trait Form {
    // the entry for a word
    ghost entry_for: { List ℕ → List ℕ };

    // Whether an entry is the one for the word.
    fn is_entry(entry: &[u8], word: &[u8]) -> bool
        ensures { result ≡ same_bytes (entry_for word.now) entry.now };
}

// A plain list holds the word itself.
#[derive(Clone, Copy)]
pub struct Plain;

impl Form for Plain {
    ghost entry_for = { λ word. word };

    fn is_entry(entry: &[u8], word: &[u8]) -> bool {
        same(word, entry)
    }
}

// A hashed list holds the word's SHA-256.
#[derive(Clone, Copy)]
pub struct Hashed;

impl Form for Hashed {
    ghost entry_for = { sha_256 };

    fn is_entry(entry: &[u8], word: &[u8]) -> bool {
        same(&sha256(word), entry)
    }
}
