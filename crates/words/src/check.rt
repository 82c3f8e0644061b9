// What a word check is.
ghost use Rattle.std.specs.Prelude.{◌≡◌, ℕ, Bool, List};

use settings::Slot;

// A word check tells whether a word belongs to a cabin, a phase and a value. What it tells is fixed when the check is made,
// and asking leaves no trace.
pub trait WordCheck {
    // the meaning: yes or no for a cabin, a phase, a value and a word
    ghost answers: { Self → ℕ → ℕ → ℕ → List ℕ → Bool };

    // Whether the word passes for the slot.
    fn passes(&self, slot: Slot, word: &[u8]) -> bool
        ensures { result ≡ answers self.now slot.cabin slot.phase slot.value word.now };
}
