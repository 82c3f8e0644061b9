// The refusals of every call, by number.
ghost use Rattle.std.specs.Prelude.{◌≡◌, Decides};
ghost use Rattle.settings.specs.Refusals.{refusal_number};

// Why a call, a record or a step was refused. Each case is one number, and one number is one case.
#[derive(Clone, Copy, PartialEq, Eq, Debug)]
pub enum Refusal {
    // n or f is out of bounds
    HallSize = 1,
    // the last phase is out of bounds
    LastPhase = 2,
    // a cabin number that is not below n, or a sealer of another cabin
    CabinNumber = 3,
    // a choice above 1
    Choice = 4,
    // a table with another number of places
    TableSize = 5,
    // a list or own words of a wrong length, or a sealer with another last phase
    WordsSize = 6,
    // an own word that does not pass its list
    OwnWord = 7,
    // a buffer too short for a packet
    BufferSize = 8,
    // an announcement after the last phase
    Finished = 9,
    // a packet that is empty, too long or cut
    PacketSize = 10,
    // a record with an unlawful field
    Field = 11,
    // a record of another branch point
    BranchPoint = 12,
    // a record whose word does not pass
    Word = 13,
    // a record that misses the phase rule
    PhaseRule = 14,
    // a record that misses the value rule
    ValueRule = 15,
    // a record that misses the status rule
    StatusRule = 16,
    // a coin with no bit left
    CoinEmpty = 17,
    // a register of 0, or too many coin bytes
    CoinSource = 18,
    // a step of a rehearsal that says nothing
    Step = 19,
}

impl Refusal {
    // Whether this is that refusal. It is what `==` says, and the contract shows it of every two.
    pub fn is(self, other: Refusal) -> bool
        ensures { Decides result (self ≡ other) }
    {
        self == other
    }
}

// The number of a refusal.
impl From<Refusal> for u8 {
    ghost from_gives = { λ refusal number. number ≡ refusal_number refusal };

    fn from(refusal: Refusal) -> u8 {
        refusal as u8
    }
}
