// What a sealer is.
ghost use Rattle.std.specs.Prelude.{◌≡◌, ℕ, true, false, List};
ghost use Rattle.words.specs.Checks.{in_range};
ghost use Rattle.words.specs.Words.{zero_word};

use crate::WordCheck;

// A sealer has the words of one cabin to give, and is itself a check that those words pass.
pub trait Sealer: WordCheck {
    // the cabin that it seals for
    ghost owner: { Self → ℕ };

    // the last phase that it seals for
    ghost last: { Self → ℕ };

    // the word for a phase and a value
    ghost seals: { Self → ℕ → ℕ → List ℕ };

    fn cabin(&self) -> u8
        ensures { result ≡ owner self.now };

    fn last_phase(&self) -> u16
        ensures { result ≡ last self.now };

    // The word for a phase and a value. For phases 1 to the last and values 0 to 2 it passes the sealer's own check;
    // for others it is 32 zeros.
    fn seal(&self, phase: u16, value: u8) -> [u8; 32]
        ensures word { result ≡ seals self.now phase value }
        ensures passes { in_range (last self.now) phase value ≡ true → Self.WordCheck.answers self.now (owner self.now) phase value result ≡ true }
        ensures others { in_range (last self.now) phase value ≡ false → result ≡ zero_word };
}
