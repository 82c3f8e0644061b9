// What every rehearsal has: its settings, the steps of an input, how a step is answered, and the line that it prints.
#![tactic(auto)]

mod fixed;
mod line;
mod outcome;
mod steps;

pub use fixed::{BRANCH, settings};
pub use line::Line;
pub use outcome::Outcome;
pub use steps::{STEP, step_bytes};
