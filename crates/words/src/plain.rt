// The sealer over a plain list.
ghost use Rattle.std.specs.Prelude.{◌≡◌};
ghost use Rattle.settings.specs.Refusals.{answer_number, told_number};
ghost use Rattle.words.specs.Sealers.{make_plain, place_after, plain_seals, plain_sealer_view};

use crate::Sealer;
use crate::cabin_entries::CabinEntries;
use crate::form::Plain;
use settings::{Refusal, Settings, Slot};

// Seals for one cabin by a plain list: its words are that cabin's entries.
pub type PlainSealer<'a> = CabinEntries<'a, Plain>;

impl<'a> PlainSealer<'a> {
    // Makes this the sealer of a cabin over entries that the host lends.
    pub fn make(&mut self, settings: &Settings, cabin: u8, entries: &'a [u8]) -> Result<(), Refusal>
        ensures answer { answer_number result ≡ told_number (make_plain settings.now cabin entries.now) }
        ensures after { plain_sealer_view self.new ≡ place_after (make_plain settings.now cabin entries.now) (plain_sealer_view self.old) }
    {
        *self = PlainSealer::new(settings, cabin, entries)?;
        Ok(())
    }
}

impl<'a> Sealer for PlainSealer<'a> {
    ghost owner = { λ s. s.cabin };

    ghost last = { λ s. s.list.phases };

    ghost seals = { λ s. plain_seals (plain_sealer_view s) };

    fn cabin(&self) -> u8 {
        self.cabin
    }

    fn last_phase(&self) -> u16 {
        self.list.phases()
    }

    #[tactic(auto, using(crate::proofs::Entries::given_passes, crate::proofs::Entries::given_zeros))]
    fn seal(&self, phase: u16, value: u8) -> [u8; 32] {
        self.list.word(Slot {
            cabin: self.cabin,
            phase,
            value,
        })
    }
}
