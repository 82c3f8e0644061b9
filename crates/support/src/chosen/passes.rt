// The passes that choose records of a table, and the places that they chose.
ghost use Rattle.std.specs.Prelude.{◌≡◌, ◌≤◌, true, replicate};
ghost use Rattle.agreement.specs.Counting.{count};
ghost use Rattle.table.specs.Places.{filled_at, records_of};
ghost use Rattle.table.specs.View.{records};
ghost use Rattle.table.specs.declared.place.Place.TheVariants.{Empty};
ghost use Rattle.support.specs.Support.{most_support};
ghost use Rattle.support.specs.View.{support_places};
ghost use Rattle.support.specs.Passes.{Adds, EnoughFor, EnoughIn, EnoughOf, Listed, chosen_count, copied, first_value, missing_value, most_places, said};

use super::MOST_PLACES;
use crate::{Chosen, Support};
use settings::{Settings, Slot};
use table::{Place, Table};

impl Chosen {
    // No records.
    pub fn none() -> Chosen
        ensures { result.places ≡ replicate most_places Empty }
    {
        Chosen {
            places: [Place::Empty; MOST_PLACES],
        }
    }

    // Chooses records for a phase with a value, of the lowest cabins, until `most` cabins have one.
    #[tactic(auto, using(crate::proofs::Passing::count_of_one, crate::proofs::Passing::enough_of_one))]
    pub fn lowest(&mut self, table: Table, phase: u16, value: u8, most: u8)
        ensures adds { Adds table.entry.settings table.entry.places.now phase phase most self.old.places self.new.places }
        ensures enough { EnoughFor table.entry.settings table.entry.places.now self.new.places phase value most }
    {
        let cabins = self.as_table(table.settings).count(phase, value);
        self.fill_up(table, phase, &[value], cabins, most)
    }

    // Chooses records for a phase, of the lowest cabins of which none is chosen, until `most` cabins have one.
    #[tactic(auto, using(crate::proofs::Passing::count_of_all, crate::proofs::Passing::enough_of_all))]
    pub fn top_up(&mut self, table: Table, phase: u16, most: u8)
        ensures adds { Adds table.entry.settings table.entry.places.now phase phase most self.old.places self.new.places }
        ensures enough { EnoughIn table.entry.settings table.entry.places.now self.new.places phase most }
    {
        let cabins = self.as_table(table.settings).turnout(phase);
        self.fill_up(table, phase, &[0, 1, 2], cabins, most)
    }

    // Chooses records for a phase with one of the values, of the lowest cabins of which none is chosen, until `most` cabins
    // have one; `cabins` have one from the start.
    #[tactic(auto, using(crate::proofs::Missing::missing_had, crate::proofs::Passing::filled_none))]
    fn fill_up(&mut self, table: Table, phase: u16, values: &[u8], mut cabins: u8, most: u8)
        requires { cabins ≡ count (said (records_of table.settings self.old.places) phase values.now) table.settings.cabins }
        ensures adds { Adds table.entry.settings table.entry.places.now phase phase most self.old.places self.new.places }
        ensures enough { EnoughOf table.entry.settings table.entry.places.now self.new.places phase values.now most }
    {
        for cabin in 0..table.settings.cabins() {
            if cabins < most
                && let Some(value) = self.missing_value(table, cabin, phase, values)
            {
                self.copy(
                    table,
                    Slot {
                        cabin,
                        phase,
                        value,
                    },
                );
                cabins += 1;
            }
        }
    }

    // The chosen places, in rising order.
    #[tactic(auto, using(crate::proofs::Listing::listed_none, crate::proofs::Listing::listed_room))]
    pub fn listed(&self) -> Support
        requires { chosen_count self.now.places ≤ most_support }
        ensures { Listed (filled_at self.now.places) most_places (support_places result) }
    {
        let mut support = Support::none();
        for (place, held) in self.places.iter().enumerate() {
            if held.is_filled() {
                // a place is below 1,152, so nothing is lost
                support.push(place as u16);
            }
        }
        support
    }

    // These records as a table, in a hall with the settings.
    fn as_table(&self, settings: Settings) -> Table<'_>
        ensures hall { result.settings ≡ settings }
        ensures held { result.places.now ≡ self.now.places }
    {
        Table {
            settings,
            places: &self.places,
        }
    }

    // The first of the values with which a cabin has a record for a phase, unless such a record of it is chosen.
    fn missing_value(&self, table: Table, cabin: u8, phase: u16, values: &[u8]) -> Option<u8>
        ensures { result ≡ missing_value (records table.entry) (records_of table.entry.settings self.now.places) phase cabin values.now }
    {
        // a match: `map_or_else` with a closure that drops its value is no plainer
        match first_value(self.as_table(table.settings), cabin, phase, values) {
            Some(_) => None,
            None => first_value(table, cabin, phase, values),
        }
    }

    // Copies a record that the table has.
    #[tactic(auto, using(crate::proofs::Copying::copy_nowhere, crate::proofs::Copying::copy_place, crate::proofs::Copying::copy_within, crate::proofs::Copying::copy_fits))]
    fn copy(&mut self, table: Table, slot: Slot)
        requires { records table slot.phase slot.cabin slot.value ≡ true }
        ensures { self.new.places ≡ copied table.entry.settings table.entry.places.now self.old.places slot.phase slot.cabin slot.value }
    {
        if let Some(place) = table::place_of(&table.settings, slot) {
            self.places[place] = table.places[place];
        }
    }
}

// The first of the values with which a cabin has a record for a phase.
fn first_value(table: Table, cabin: u8, phase: u16, values: &[u8]) -> Option<u8>
    ensures { result ≡ first_value (records table.entry) phase cabin values.now }
{
    values.iter().copied().find(|value| {
        table.has(Slot {
            cabin,
            phase,
            value: *value,
        })
    })
}
