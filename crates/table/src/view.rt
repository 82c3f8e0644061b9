// A table as the counts and the rules see it.
ghost use Rattle.std.specs.Prelude.{◌≡◌};
ghost use Rattle.table.specs.View.{records};

use crate::{Place, layout};
use settings::{Settings, Slot};

// A table with the settings of its hall, which say what each of its places is for.
#[derive(Clone, Copy, Debug)]
pub struct Table<'a> {
    pub settings: Settings,
    pub places: &'a [Place],
}

impl Table<'_> {
    // Whether the table has a record for a slot.
    #[tactic(auto, unfolding(crate::specs::Places::records_at))]
    pub fn has(&self, slot: Slot) -> bool
        ensures { result ≡ records self.now slot.phase slot.cabin slot.value }
    {
        layout::place_of(&self.settings, slot).is_some_and(|place| layout::filled_at(
            self.places,
            place,
        ))
    }
}
