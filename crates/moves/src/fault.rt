// What hearing finds of a record.
ghost use Rattle.std.specs.Prelude.{◌≡◌};
ghost use Rattle.settings.specs.Refusals.{refusal_number};
ghost use Rattle.moves.specs.Judging.{fault_at, fault_view, layer_of};

use settings::Refusal;

// A record that is not turned away is new, and then kept, or known already.
#[derive(Clone, Copy, PartialEq, Eq, Debug)]
pub enum Finding {
    New,
    Known,
}

// The part of a record that was at fault: its frame, its word, or what it says by the rules.
#[derive(Clone, Copy, PartialEq, Eq, Debug)]
pub enum Layer {
    Frame,
    Word,
    Rule,
}

// Why and where a record of a packet was turned away.
#[derive(Clone, Copy, PartialEq, Eq, Debug)]
pub struct Fault {
    pub refusal: Refusal,
    // the place of the record in its packet, from 0
    pub place: usize,
    pub layer: Layer,
}

impl Fault {
    // The fault of the record at a place that was turned away.
    pub fn new(refusal: Refusal, place: usize) -> Fault
        ensures { fault_view result ≡ fault_at (refusal_number refusal) place }
    {
        Fault {
            refusal,
            place,
            layer: Layer::from(refusal),
        }
    }
}

// The layer of a record's refusal. Those below 10 and above 16 are of no record; they have the layers that the definition gives.
impl From<Refusal> for Layer {
    ghost from_gives = { λ refusal layer. layer ≡ layer_of (refusal_number refusal) };

    fn from(refusal: Refusal) -> Layer {
        match refusal {
            Refusal::Word => Layer::Word,
            Refusal::PhaseRule | Refusal::ValueRule | Refusal::StatusRule => Layer::Rule,
            Refusal::CoinEmpty | Refusal::CoinSource | Refusal::Step => Layer::Rule,
            _ => Layer::Frame,
        }
    }
}
