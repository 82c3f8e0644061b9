// Whether a cabin or a record is decided.
ghost use Rattle.std.specs.Prelude.{◌≡◌};
ghost use Rattle.settings.specs.Kinds.{status_answer, status_number};
ghost use Rattle.settings.specs.Refusals.{told};

use crate::Refusal;

// A cabin is undecided until it has seen a quorum for one choice in a DECIDE phase.
#[derive(Clone, Copy, PartialEq, Eq, Debug)]
pub enum Status {
    Undecided,
    Decided,
}

// The number of a status, as records and lines have it.
impl From<Status> for u8 {
    ghost from_gives = { λ status number. number ≡ status_number status };

    fn from(status: Status) -> u8 {
        status as u8
    }
}

// The status with a number; another number is an unlawful field.
impl TryFrom<u8> for Status {
    type Error = Refusal;

    ghost try_from_gives = { λ number status. told (λ x. x) status ≡ status_answer number };

    fn try_from(number: u8) -> Result<Status, Refusal> {
        match number {
            0 => Ok(Status::Undecided),
            1 => Ok(Status::Decided),
            _ => Err(Refusal::Field),
        }
    }
}
