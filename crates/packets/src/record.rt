// The fields of a record, and reading them from its 40 bytes.
ghost use Rattle.std.specs.Prelude.{◌≡◌, length, take, IfOk};
ghost use Rattle.settings.specs.Refusals.{told};
ghost use Rattle.packets.specs.Format.{record_size, word_place};
ghost use Rattle.packets.specs.Records.{fields_answer, head_bytes, highest_value, slot_of};

use crate::format::{BRANCH, CABIN, PHASE, STATUS, VALUE, ZERO};
use settings::{NO_PREFERENCE, PhaseKind, Refusal, Settings, Slot, Status};

// What a record says besides its word. The value is a number: a record is written with any byte, and a reader tells what it is worth.
#[derive(Clone, Copy, PartialEq, Eq, Debug)]
pub struct Fields {
    pub cabin: u8,
    pub value: u8,
    pub status: Status,
    pub branch: u16,
    pub phase: u16,
}

impl Fields {
    // What the record's word and its place of a table belong to.
    pub fn slot(self) -> Slot
        ensures { result ≡ slot_of self }
    {
        Slot {
            cabin: self.cabin,
            phase: self.phase,
            value: self.value,
        }
    }
}

// The fields of a record's 40 bytes, or why the record is refused.
pub(crate) fn read_fields(bytes: &[u8], settings: &Settings, branch: u16) -> Result<Fields, Refusal>
    requires { length bytes.now ≡ record_size }
    ensures answer { told (λ x. x) result ≡ fields_answer settings.now branch bytes.now }
    ensures head { IfOk result (λ f. head_bytes f ≡ take word_place bytes.now) }
{
    let cabin = bytes[CABIN];
    if cabin >= settings.cabins() {
        return Err(Refusal::Field);
    }
    let phase = u16::from_be_bytes([bytes[PHASE], bytes[PHASE + 1]]);
    if phase < 1 || phase > settings.phases() {
        return Err(Refusal::Field);
    }
    let value = bytes[VALUE];
    if value > highest(phase) {
        return Err(Refusal::Field);
    }
    let status = Status::try_from(bytes[STATUS])?;
    if bytes[ZERO] != 0 {
        return Err(Refusal::Field);
    }
    if u16::from_be_bytes([bytes[BRANCH], bytes[BRANCH + 1]]) != branch {
        return Err(Refusal::BranchPoint);
    }
    Ok(Fields {
        cabin,
        value,
        status,
        branch,
        phase,
    })
}

// The highest value in a phase: 2, no preference, only in DECIDE phases.
fn highest(phase: u16) -> u8
    ensures { result ≡ highest_value phase }
{
    match PhaseKind::from(phase) {
        PhaseKind::Decide => NO_PREFERENCE,
        _ => 1,
    }
}
