// The places of a table: how many there are, which one a slot has, and whether it is filled.
ghost use Rattle.std.specs.Prelude.{◌≡◌};
ghost use Rattle.table.specs.Places.{filled_at, is_filled, places_of, place_answer};

use crate::Place;
use settings::{Settings, Slot};

// How many places a table has: one for each slot.
pub fn places(settings: &Settings) -> usize
    ensures { result ≡ places_of settings.now }
{
    3 * usize::from(settings.cabins()) * usize::from(settings.phases())
}

// The place of a slot, if there is one.
pub fn place_of(settings: &Settings, slot: Slot) -> Option<usize>
    ensures { result ≡ place_answer settings.now slot.phase slot.cabin slot.value }
{
    let Slot {
        cabin,
        phase,
        value,
    } = slot;
    if phase < 1 || phase > settings.phases() || cabin >= settings.cabins() || value > 2 {
        return None;
    }
    let row = usize::from(phase - 1) * (3 * usize::from(settings.cabins()));
    Some(row + 3 * usize::from(cabin) + usize::from(value))
}

// Whether a place of a table is filled; a place that the table does not have is not.
pub fn filled_at(table: &[Place], place: usize) -> bool
    ensures { result ≡ filled_at table.now place }
{
    table.get(place).is_some_and(|held| held.is_filled())
}

impl Place {
    // Whether a record was kept here.
    pub fn is_filled(&self) -> bool
        ensures { result ≡ is_filled self.now }
    {
        matches!(self, Place::Filled { .. })
    }
}
