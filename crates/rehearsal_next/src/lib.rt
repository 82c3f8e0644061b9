// Rehearsals: steps of eight bytes are played on a hall of four cabins, and each step gives one line of text.
#![tactic(auto)]

mod answer;
mod claim;
mod coin;
mod hall;
mod packet;
mod run;
mod seat;
mod step;
mod wordlist;

pub use answer::{Answer, Line};
pub use claim::Claim;
pub use hall::Hall;
pub use run::transcript;
pub use script::Outcome;
pub use step::Step;
