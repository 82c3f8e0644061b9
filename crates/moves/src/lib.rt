// What a cabin's calls do, over a plain state: their definitions, how a record is judged, and how a cabin moves.
#![tactic(auto)]

mod fault;
mod judging;
mod moving;
mod state;

pub use fault::{Fault, Finding, Layer};
pub use judging::judge;
pub use state::State;
