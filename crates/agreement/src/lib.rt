// Why a hall agrees: the argument over an abstract history, and what a host may conclude from it.
#![tactic(auto)]

ghost use Rattle.std.specs.Prelude.{◌≡◌, ℕ, ◌+◌, ◌<◌};
ghost use Rattle.agreement.specs.Agreement.{DecisionsAgree, OneChoiceDecides, compatible};
ghost use Rattle.agreement.specs.TwoWay.{TwoWayLawful, two_way};
ghost use Rattle.agreement.specs.CatchingUp.{CaughtUpBy, OneChoiceDecidedBy};
ghost use Rattle.agreement.specs.Example.{CanDecide};

use settings::CYCLE;

// The courses of a two-way hall: a number of its own, so that a wrong one is refused by the statements here.
const COURSES: u8 = 2;

// Whether two decisions can be those of two honest cabins of one hall. Where both are there and differ they cannot: the
// decisions of honest cabins are equal.
#[tactic(auto, using(crate::proofs::Agreement::decisions_agree))]
pub fn can_agree(first: Option<u8>, second: Option<u8>) -> bool
    ensures value { result ≡ compatible first second }
    ensures agree { DecisionsAgree }
{
    first.zip(second).is_none_or(|(v, w)| v == w)
}

// The phase from which on every honest cabin has decided, if all honest cabins had one choice.
pub fn decided_by() -> u16
    ensures value { result ≡ 4 }
    ensures decision { OneChoiceDecides }
    ensures phase { OneChoiceDecidedBy result }
{
    CYCLE + 1
}

// The phase from which on every honest cabin has decided, if the hearing that gave one its decision led it to `phase`.
#[tactic(auto, using(crate::proofs::CatchingUp::caught_up))]
pub fn caught_up_by(phase: u16) -> u32
    ensures value { result ≡ phase + 3 }
    ensures phase { CaughtUpBy phase result }
{
    u32::from(phase) + u32::from(CYCLE)
}

// The number of courses under the two-way rules. These rules keep both laws of a rule book, and each course can be
// decided.
#[tactic(auto, using(crate::proofs::Example::can_decide), unfolding(crate::specs::TwoWay::two_way))]
pub fn two_way_courses() -> u8
    ensures value { (n f : ℕ) → result ≡ (two_way n f).courses }
    ensures lawful { TwoWayLawful }
    ensures decided { (v : ℕ) → v < result → CanDecide v }
{
    COURSES
}
