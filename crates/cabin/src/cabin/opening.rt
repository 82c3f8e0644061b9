// Opening a cabin, and reading its state.
ghost use Rattle.std.specs.Prelude.{◌≡◌};
ghost use Rattle.settings.specs.Refusals.{told};
ghost use Rattle.moves.specs.Opening.{open_answer, open_table};
ghost use Rattle.runs.specs.Laws.{HallAgrees, OpenKeeps};
ghost use Rattle.cabin.specs.Views.{cabin_state};

use crate::{Cabin, Place, State};
use settings::{Refusal, Settings, Status};

impl Cabin {
    // Opens cabin `number` at a branch point with a choice, and empties the table. A choice is any byte, since one above 1 is refused
    // with a number of its own.
    #[tactic(auto, using(runs::proofs::Calls::open_keeps, runs::proofs::Running::hall_agrees))]
    pub fn open(
        settings: Settings,
        number: u8,
        branch: u16,
        choice: u8,
        table: &mut [Place],
    ) -> Result<Cabin, Refusal>
        ensures answer { told cabin_state result ≡ open_answer settings number branch choice table.old }
        ensures table { table.new ≡ open_table (told cabin_state result) table.old }
        ensures agrees { HallAgrees }
        ensures keeps { OpenKeeps settings number branch choice (told cabin_state result) table.new }
    {
        if number >= settings.cabins() {
            return Err(Refusal::CabinNumber);
        }
        if choice > 1 {
            return Err(Refusal::Choice);
        }
        if table.len() != table::places(&settings) {
            return Err(Refusal::TableSize);
        }
        table.fill(Place::Empty);
        let state = State {
            settings,
            number,
            branch,
            phase: 1,
            value: choice,
            status: Status::Undecided,
            decision: None,
            announced: false,
        };
        Ok(Cabin { state })
    }

    // What the cabin knows of itself.
    pub fn state(&self) -> State
        ensures { result ≡ cabin_state self.now }
    {
        self.state
    }
}
