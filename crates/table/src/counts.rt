// The counts of a table, by a loop over the places of each cabin.
ghost use Rattle.std.specs.Prelude.{◌≡◌, ℕ, Bool};
ghost use Rattle.agreement.specs.Counting.{count, some};
ghost use Rattle.table.specs.Rules.{count_for, count_in};
ghost use Rattle.table.specs.View.{records};

use crate::Table;
use settings::{Settings, Slot};

impl Table<'_> {
    // c(φ, v): how many cabins have a filled place at a phase and a value.
    pub fn count(&self, phase: u16, value: u8) -> u8
        ensures { result ≡ count_for self.now.settings (records self.now) phase value }
    {
        cabins(self.settings, |cabin| {
            self.has(Slot {
                cabin,
                phase,
                value,
            })
        })
    }

    // c(φ): how many cabins have any filled place at a phase.
    pub fn turnout(&self, phase: u16) -> u8
        ensures { result ≡ count_in self.now.settings (records self.now) phase }
    {
        cabins(self.settings, |cabin| self.speaks(cabin, phase))
    }

    // Whether a cabin has any filled place at a phase.
    #[tactic(auto, unfolding(agreement::specs::Counting::some))]
    fn speaks(&self, cabin: u8, phase: u16) -> bool
        ensures { result ≡ some (records self.now phase cabin) 3 }
    {
        (0..3).any(|value| {
            self.has(Slot {
                cabin,
                phase,
                value,
            })
        })
    }
}

// Of how many cabins of the hall a test holds. That a loop counts them is a rule of the project.
fn cabins<F: Fn(u8) -> bool>(settings: Settings, holds: F) -> u8
    requires { F.IsAlwaysCallable holds }
    ensures { (A : ℕ → Bool) → ((j : ℕ) (b : Bool) → F.post holds j b → b ≡ A j) → result ≡ count A settings.cabins }
{
    let mut counted = 0;
    for cabin in 0..settings.cabins() {
        if holds(cabin) {
            counted += 1;
        }
    }
    counted
}
