// Making a hashed sealer, its check and its words.
ghost use Rattle.std.specs.Prelude.{◌≡◌, ◌*◌, ◌≤◌, length};
ghost use Rattle.settings.specs.Refusals.{answer_number, told, told_number};
ghost use Rattle.words.specs.Checks.{hashed_answers, list_view};
ghost use Rattle.words.specs.Own.{own_or_zeros, own_pass};
ghost use Rattle.words.specs.Sealers.{empty_hashed, hashed_seals, hashed_sealer_view, make_hashed, place_after};

use crate::cabin_entries::CabinEntries;
use crate::form::Hashed;
use crate::list::{VALUES, WORD};
use crate::{HashedSealer, Sealer, WordCheck};
use settings::{Refusal, Settings, Slot};

impl<'a> HashedSealer<'a> {
    // The empty sealer: of cabin 0 with last phase 0. Its check passes no word.
    #[tactic(auto, unfolding(crate::specs::Own::own_pass))]
    pub fn empty() -> HashedSealer<'a>
        ensures { hashed_sealer_view result ≡ empty_hashed }
    {
        HashedSealer {
            entries: CabinEntries::empty(),
            own: &[],
        }
    }

    // Makes this the sealer of a cabin over entries and own words that the host lends.
    pub fn make(
        &mut self,
        settings: &Settings,
        cabin: u8,
        entries: &'a [u8],
        own: &'a [u8],
    ) -> Result<(), Refusal>
        ensures answer { answer_number result ≡ told_number (make_hashed settings.now cabin entries.now own.now) }
        ensures after { hashed_sealer_view self.new ≡ place_after (make_hashed settings.now cabin entries.now own.now) (hashed_sealer_view self.old) }
    {
        *self = HashedSealer::new(settings, cabin, entries, own)?;
        Ok(())
    }

    // The sealer of a cabin over entries and own words that the host lends.
    fn new(
        settings: &Settings,
        cabin: u8,
        entries: &'a [u8],
        own: &'a [u8],
    ) -> Result<HashedSealer<'a>, Refusal>
        ensures { told hashed_sealer_view result ≡ make_hashed settings.now cabin entries.now own.now }
    {
        let entries = CabinEntries::new(settings, cabin, entries)?;
        if own.len() != VALUES * WORD * usize::from(settings.phases()) {
            return Err(Refusal::WordsSize);
        }
        if !own_words_pass(&entries, own) {
            return Err(Refusal::OwnWord);
        }
        Ok(HashedSealer { entries, own })
    }
}

// Whether every own word passes for its phase and value.
#[tactic(auto, using(crate::proofs::Own::own_pass_none, crate::proofs::Own::own_pass_more, crate::proofs::Own::own_pass_fails))]
fn own_words_pass(entries: &CabinEntries<'_, Hashed>, own: &[u8]) -> bool
    requires { length own.now ≡ 96 * entries.now.list.phases }
    ensures { result ≡ own_pass (list_view entries.now.list) entries.now.cabin own.now (3 * entries.now.list.phases) }
{
    // loops, since the proof goes over the words one by one, as the definition does
    let last = entries.list.phases();
    for phase in 1..=last {
        for value in 0..=2 {
            let slot = Slot {
                cabin: entries.cabin,
                phase,
                value,
            };
            if !entries.passes(slot, &own_word(own, last, phase, value)) {
                return false;
            }
        }
    }
    true
}

// The own word for a phase and a value, or 32 zeros where there is none.
fn own_word(own: &[u8], last: u16, phase: u16, value: u8) -> [u8; 32]
    requires { 96 * last ≤ length own.now }
    ensures { result ≡ own_or_zeros last own.now phase value }
{
    let mut word = [0; WORD];
    if phase >= 1 && phase <= last && value <= 2 {
        let place = WORD * (VALUES * usize::from(phase - 1) + usize::from(value));
        word.copy_from_slice(&own[place..place + WORD]);
    }
    word
}

// Asks its entries, a line for each method: a trait's methods cannot be taken over from a field.
impl<'a> WordCheck for HashedSealer<'a> {
    ghost answers = { λ s. hashed_answers (list_view s.entries.list) };

    fn passes(&self, slot: Slot, word: &[u8]) -> bool {
        self.entries.passes(slot, word)
    }
}

impl<'a> Sealer for HashedSealer<'a> {
    ghost owner = { λ s. s.entries.cabin };

    ghost last = { λ s. s.entries.list.phases };

    ghost seals = { λ s. hashed_seals (hashed_sealer_view s) };

    fn cabin(&self) -> u8 {
        self.entries.cabin
    }

    fn last_phase(&self) -> u16 {
        self.entries.list.phases()
    }

    #[tactic(auto, using(crate::proofs::Own::own_passes, crate::proofs::Own::own_zeros))]
    fn seal(&self, phase: u16, value: u8) -> [u8; 32] {
        own_word(self.own, self.entries.list.phases(), phase, value)
    }
}
