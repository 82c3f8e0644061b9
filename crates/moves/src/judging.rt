// What becomes of a record whose frame is lawful.
ghost use Rattle.std.specs.Prelude.{◌≡◌};
ghost use Rattle.settings.specs.Refusals.{told};
ghost use Rattle.moves.specs.Judging.{found};

use crate::Finding;
use packets::Fields;
use settings::Refusal;
use table::Table;
use words::WordCheck;

// Judges a record at a table: its word first, then whether it is known, then the three rules.
pub fn judge<C: WordCheck>(
    check: &C,
    table: Table,
    fields: Fields,
    word: &[u8],
) -> Result<Finding, Refusal>
    ensures { told (λ x. x) result ≡ found (C.WordCheck.answers check.now) table.entry.settings table.entry.places.now fields word.now }
{
    let slot = fields.slot();
    if !check.passes(slot, word) {
        return Err(Refusal::Word);
    }
    if table.has(slot) {
        return Ok(Finding::Known);
    }
    if !table.phase_rule(fields.phase) {
        return Err(Refusal::PhaseRule);
    }
    if !table.value_rule(fields.phase, fields.value) {
        return Err(Refusal::ValueRule);
    }
    if !table.status_rule(fields.phase, fields.value, fields.status) {
        return Err(Refusal::StatusRule);
    }
    Ok(Finding::New)
}
