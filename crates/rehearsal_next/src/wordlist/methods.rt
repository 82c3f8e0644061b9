// Making the list, and what checks and sealers see of it.
ghost use Rattle.std.specs.Prelude.{◌≡◌, ◌+◌, ◌/◌, ◌%◌};
ghost use Rattle.words.specs.Checks.{list_view};
ghost use Rattle.words.specs.Sealers.{plain_sealer_view};
ghost use Rattle.rehearsal_next.specs.Words.{claimed, sealer_of, word_list, word_of, word_or_zeros};

use crate::Claim;
use crate::wordlist::Words;
use packets::RECORD_SIZE;
use std::alloc::{AllocError, Global};
use words::{PlainList, PlainSealer, Sealer};

// How many words the list has: for each of twelve phases, four cabins and three values.
const PLACES: u8 = 144;

// The three values of each cabin, and the places of each phase: of one byte, as the places of this list are.
const VALUES: u8 = 3;

const ROW: u8 = 12;

impl Words {
    #[tactic(auto, using(crate::proofs::Words::words_none, crate::proofs::Words::words_more))]
    pub(crate) fn new(heap: Global) -> Result<Words, AllocError> {
        let mut entries = Vec::new(heap);
        for place in 0..PLACES {
            entries.extend_from_slice(&word_at(place))?;
        }
        Ok(Words { entries })
    }

    // The list as a word check.
    #[tactic(auto, using(crate::proofs::Words::list_is))]
    pub(crate) fn check<'a>(&'a self) -> PlainList<'a>
        ensures { list_view result ≡ word_list }
    {
        PlainList::new(&script::settings(), self.entries.as_slice()).unwrap()
    }

    // The sealer of a cabin; for a number that no cabin has it is the empty one.
    pub(crate) fn sealer<'a>(&'a self, cabin: u8) -> PlainSealer<'a>
        ensures { plain_sealer_view result ≡ sealer_of cabin }
    {
        let mut sealer = PlainSealer::empty();
        let _ = sealer.make(&script::settings(), cabin, self.entries.as_slice());
        sealer
    }

    // The list's word for a cabin, a phase and a value, or 32 zeros where it has none.
    fn word(&self, cabin: u8, phase: u8, value: u8) -> [u8; 32]
        ensures { result ≡ word_or_zeros cabin phase value }
    {
        self.sealer(cabin).seal(u16::from(phase), value)
    }

    // The bytes of a made-up record with that word.
    pub(crate) fn record(&self, claim: Claim) -> [u8; RECORD_SIZE]
        ensures { result ≡ claimed claim }
    {
        claim.record(self.word(claim.cabin, claim.phase, claim.value))
    }
}

// The word at a place of the list: its cabin, its phase and its value, and then zeros. A cabin's way back from a place is over wider
// numbers, and for any hall.
fn word_at(place: u8) -> [u8; 32]
    ensures { result ≡ word_of (place % 12 / 3) (place / 12 + 1) (place % 3) }
{
    let mut word = [0; 32];
    word[0] = place % ROW / VALUES;
    word[1] = place / ROW + 1;
    word[2] = place % VALUES;
    word
}
