// The lists of words: one form holds the words themselves, the other their digests.
ghost use Rattle.std.specs.Prelude.{◌≡◌, length, IfSome};
ghost use Rattle.std.specs.Option.{option_map};
ghost use Rattle.settings.specs.Refusals.{told};
ghost use Rattle.words.specs.Checks.{empty_list, entry_at, entry_or_zeros, list_answer, list_answers, list_view};

use crate::WordCheck;
use crate::form::{Form, Hashed, Plain};
use settings::{Refusal, Settings, Slot};
use std::marker::PhantomData;

// The length of a word, and of an entry of a list.
pub(crate) const WORD: usize = 32;

// How many values a cabin may have in a phase; of this type, since sizes of a list are.
pub(crate) const VALUES: usize = 3;

// The lent entries of a list, for so many cabins and phases.
#[derive(Clone, Copy)]
pub struct WordList<'a, F> {
    cabins: u8,
    phases: u16,
    entries: &'a [u8],
    form: PhantomData<F>,
}

// The plain list: a word passes if it equals its entry.
pub type PlainList<'a> = WordList<'a, Plain>;

// The hashed list: a word passes if its SHA-256 equals its entry.
pub type HashedList<'a> = WordList<'a, Hashed>;

impl<'a, F: Form> WordList<'a, F> {
    // A list over entries that the host lends.
    pub fn new(settings: &Settings, entries: &'a [u8]) -> Result<WordList<'a, F>, Refusal>
        ensures { told list_view result ≡ list_answer settings.now entries.now }
    {
        let cabins = settings.cabins();
        let phases = settings.phases();
        if entries.len() != VALUES * WORD * usize::from(cabins) * usize::from(phases) {
            return Err(Refusal::WordsSize);
        }
        Ok(WordList {
            cabins,
            phases,
            entries,
            form: PhantomData,
        })
    }

    // A list of no phase, which has no entry.
    pub(crate) fn empty() -> WordList<'a, F>
        ensures { list_view result ≡ empty_list }
    {
        WordList {
            cabins: 1,
            phases: 0,
            entries: &[],
            form: PhantomData,
        }
    }

    // The last phase that the list has entries for.
    pub(crate) fn phases(&self) -> u16
        ensures { result ≡ self.now.phases }
    {
        self.phases
    }

    // The entry for a slot, if the list has one. A table has the same order of places; the list tells its own cabins and phases, since
    // the empty one belongs to no hall.
    fn entry(&self, slot: Slot) -> Option<&'a [u8]>
        ensures value { option_map (λ x. x.now) result ≡ entry_at (list_view self.now) slot.cabin slot.phase slot.value }
        ensures len { IfSome result (λ entry. length entry.now ≡ 32) }
    {
        if slot.cabin >= self.cabins
            || slot.phase < 1
            || slot.phase > self.phases
            || slot.value > 2
        {
            return None;
        }
        let row = usize::from(slot.phase - 1) * (VALUES * usize::from(self.cabins));
        let place = WORD * (row + VALUES * usize::from(slot.cabin) + usize::from(slot.value));
        self.entries.get(place..place + WORD)
    }

    // The entry as a word, or 32 zeros where there is none.
    pub(crate) fn word(&self, slot: Slot) -> [u8; 32]
        ensures { result ≡ entry_or_zeros (list_view self.now) slot.cabin slot.phase slot.value }
    {
        let mut word = [0; WORD];
        if let Some(entry) = self.entry(slot) {
            word.copy_from_slice(entry);
        }
        word
    }
}

impl<'a, F: Form> WordCheck for WordList<'a, F> {
    ghost answers = { λ list. list_answers F.entry_for (list_view list) };

    #[tactic(auto, unfolding(crate::specs::Checks::holds_entry))]
    fn passes(&self, slot: Slot, word: &[u8]) -> bool {
        let entry = self.entry(slot);
        word.len() == WORD && entry.is_some_and(|entry| F::is_entry(entry, word))
    }
}
