// Making a cabin's entries, and their check.
ghost use Rattle.std.specs.Prelude.{◌≡◌, ⊤};
ghost use Rattle.settings.specs.Refusals.{told};
ghost use Rattle.words.specs.Checks.{list_answers, list_view};
ghost use Rattle.words.specs.Sealers.{cabin_answer, cabin_view, empty_cabin};

use crate::WordCheck;
use crate::cabin_entries::CabinEntries;
use crate::form::Form;
use crate::list::WordList;
use settings::{Refusal, Settings, Slot};
use std::alloc::AllocError;

impl<'a, F: Form> CabinEntries<'a, F> {
    // Of cabin 0, in a list of no phase. Its check passes no word.
    pub fn empty() -> CabinEntries<'a, F>
        ensures { cabin_view result ≡ empty_cabin }
    {
        CabinEntries {
            list: WordList::empty(),
            cabin: 0,
        }
    }

    // Of a cabin, in a list over entries that the host lends.
    pub(crate) fn new(
        settings: &Settings,
        cabin: u8,
        entries: &'a [u8],
    ) -> Result<CabinEntries<'a, F>, Refusal>
        ensures { told cabin_view result ≡ cabin_answer settings.now cabin entries.now }
    {
        if cabin >= settings.cabins() {
            return Err(Refusal::CabinNumber);
        }
        let list = WordList::new(settings, entries)?;
        Ok(CabinEntries { list, cabin })
    }
}

// By hand, since no derive goes over the ghost fields of a type with a parameter.
impl<'a, F: Copy> Clone for CabinEntries<'a, F> {
    ghost is_clone = { λ x y. y ≡ x };

    ghost is_infallible = { λ _. ⊤ };

    fn clone(&self) -> Result<CabinEntries<'a, F>, AllocError> {
        Ok(*self)
    }
}

impl<'a, F: Form> WordCheck for CabinEntries<'a, F> {
    ghost answers = { λ s. list_answers F.entry_for (list_view s.list) };

    fn passes(&self, slot: Slot, word: &[u8]) -> bool {
        self.list.passes(slot, word)
    }
}
