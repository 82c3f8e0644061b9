// The hall of a rehearsal: its seats, and what a step does to them.
ghost use Rattle.std.specs.Prelude.{◌≡◌, IfOk};
ghost use Rattle.script.specs.Answers.{done_reply};
ghost use Rattle.script.specs.Lines.{line_said};
ghost use Rattle.script.specs.Stage.{Keeps};
ghost use Rattle.script.specs.Steps.{actor};
ghost use Rattle.rehearsal.specs.Seats.{closed_seat};
ghost use Rattle.rehearsal.specs.Stage.{first_stage, seat_at, stage_after, stage_of, stage_open, stage_open_reply, stage_reply, step_said};
ghost use Rattle.rehearsal.specs.Steps.{step_of};

use crate::seat::Seat;
use crate::{Line, Step};
use cabin::State;
use settings::Refusal;
use std::alloc::{AllocError, Global};

// A rehearsal's hall: a seat for each cabin, by its number. Stands beside that of `rehearsal_next`, since `hall` does what it did until that one takes its place.
#[derive(Drop)]
pub struct Hall {
    seats: Vec<Seat>,
}

impl Hall {
    // A hall in which no cabin is open.
    pub fn new(heap: Global) -> Result<Hall, AllocError>
        ensures { IfOk result (λ h. stage_of h ≡ first_stage) }
    {
        let mut seats = Vec::new(heap);
        for _number in 0..script::settings().cabins() {
            seats.push(Seat::new(heap)?)?;
        }
        Ok(Hall { seats })
    }

    // Takes one step, which is the `step`-th from 1, and tells what it did.
    pub fn step(&mut self, step: usize, bytes: [u8; 8]) -> Line
        ensures line { line_said done_reply result ≡ step_said step bytes (stage_of self.old) }
        ensures after { stage_of self.new ≡ stage_after (step_of bytes) (stage_of self.old) }
        ensures keeps { Keeps closed_seat (actor bytes) (line_said done_reply result).reply (stage_of self.old) (stage_of self.new) }
    {
        let answer = self.act(Step::read(bytes));
        let cabin = bytes[1];
        let state = self.state(cabin);
        Line {
            step,
            cabin,
            state,
            answer,
        }
    }

    // Does what a step asks; bytes that ask for nothing are refused.
    fn act(&mut self, step: Option<Step>) -> Result<(), Refusal>
        ensures reply { done_reply result ≡ stage_reply step (stage_of self.old) }
        ensures after { stage_of self.new ≡ stage_after step (stage_of self.old) }
    {
        // the cases of an enum: each asks another call with its own arguments
        match step.ok_or(Refusal::Step)? {
            Step::Open { cabin, choice } => self.open(cabin, choice),
        }
    }

    // Opens a cabin with a choice; a number that no seat has is refused.
    fn open(&mut self, cabin: u8, choice: u8) -> Result<(), Refusal>
        ensures reply { done_reply result ≡ stage_open_reply cabin choice (stage_of self.old) }
        ensures after { stage_of self.new ≡ stage_open cabin choice (stage_of self.old) }
    {
        let seat = self.seats.get_mut(usize::from(cabin)).ok_or(Refusal::Step)?;
        seat.open(cabin, choice)
    }

    // The state of a cabin, if there is such a cabin and it is open.
    fn state(&self, cabin: u8) -> Option<State>
        ensures { result ≡ (seat_at (stage_of self.now) cabin).state }
    {
        self.seats
            .get(usize::from(cabin))
            .and_then(|seat| seat.state())
    }
}
