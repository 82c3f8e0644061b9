// One cabin of a rehearsal, with the table that it is lent.
ghost use Rattle.std.specs.Prelude.{◌≡◌, IfOk};
ghost use Rattle.script.specs.Answers.{done_reply};
ghost use Rattle.rehearsal.specs.Seats.{closed_seat, seat_opens, seat_view};

use cabin::{Cabin, Place, State};
use settings::Refusal;
use std::alloc::{AllocError, Global};

// A seat holds a cabin once it is open, and its table. Stands beside that of `rehearsal_next`, since `hall` does what it did until that one takes its place.
#[derive(Drop)]
pub(crate) struct Seat {
    cabin: Option<Cabin>,
    table: Vec<Place>,
}

impl Seat {
    // A seat whose cabin is not open, with an empty table.
    pub(crate) fn new(heap: Global) -> Result<Seat, AllocError>
        ensures { IfOk result (λ s. seat_view s ≡ closed_seat) }
    {
        let table = vec![in heap; Place::Empty; cabin::places(&script::settings())]?;
        Ok(Seat { cabin: None, table })
    }

    // Opens the seat's cabin, unless it is open.
    pub(crate) fn open(&mut self, number: u8, choice: u8) -> Result<(), Refusal>
        ensures reply { done_reply result ≡ (seat_opens number choice (seat_view self.old)).reply }
        ensures after { seat_view self.new ≡ (seat_opens number choice (seat_view self.old)).seat }
    {
        if self.cabin.is_some() {
            return Err(Refusal::Step);
        }
        let table = self.table.as_mut_slice();
        let cabin = Cabin::open(script::settings(), number, script::BRANCH, choice, table)?;
        self.cabin = Some(cabin);
        Ok(())
    }

    // The state of the seat's cabin, if it is open.
    pub(crate) fn state(&self) -> Option<State>
        ensures { result ≡ (seat_view self.now).state }
    {
        self.cabin.as_ref().map(|cabin| cabin.state())
    }
}
