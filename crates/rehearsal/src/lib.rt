// Rehearsals: steps of eight bytes are played on a hall of four cabins, and each step gives one line of text.
#![tactic(auto)]

mod hall;
mod line;
mod run;
mod seat;
mod step;

pub use hall::Hall;
pub use line::Line;
pub use run::transcript;
pub use step::Step;
