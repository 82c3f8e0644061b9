// The line that a step prints.
ghost use Rattle.std.specs.Prelude.{Some};
ghost use Rattle.script.specs.Lines.{decision_text, line_said, said_text, standing_text};

use crate::Outcome;
use moves::State;
use std::fmt;

// What a step did: the step from 1, byte 1 of the step, the state of that cabin afterwards if it is open,
// and how the step was answered.
#[derive(Clone, Copy)]
pub struct Line<A> {
    pub step: usize,
    pub cabin: u8,
    pub state: Option<State>,
    pub answer: A,
}

// A decision, or `-` where there is none. That the line writer matches it is a rule of the project.
#[derive(Clone, Copy)]
struct Decision(Option<u8>);

impl fmt::Display for Decision {
    ghost output = { λ d. Some (decision_text d.0) };

    fn fmt<W: fmt::Write>(&self, f: &mut fmt::Formatter<W>) -> fmt::Result {
        match self.0 {
            Some(course) => write!(f, "{course}"),
            None => write!(f, "-"),
        }
    }
}

// Phase, value, status and decision of a cabin, or `0 0 0 -` where it is not open: two texts with nothing in common to map.
#[derive(Clone, Copy)]
struct Standing(Option<State>);

impl fmt::Display for Standing {
    ghost output = { λ s. Some (standing_text s.0) };

    fn fmt<W: fmt::Write>(&self, f: &mut fmt::Formatter<W>) -> fmt::Result {
        match self.0 {
            Some(state) => {
                let phase = state.phase;
                let value = state.value;
                let status = u8::from(state.status);
                let decision = Decision(state.decision);
                write!(f, "{phase} {value} {status} {decision}")
            }
            None => write!(f, "0 0 0 -"),
        }
    }
}

impl<A: Outcome> fmt::Display for Line<A> {
    ghost output = { λ l. Some (said_text (line_said A.reply l)) };

    fn fmt<W: fmt::Write>(&self, f: &mut fmt::Formatter<W>) -> fmt::Result {
        let step = self.step;
        let cabin = self.cabin;
        let standing = Standing(self.state);
        let answer = self.answer.number();
        write!(f, "{step} {cabin} {standing} {answer}")
    }
}
