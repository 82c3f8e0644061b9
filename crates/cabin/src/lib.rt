// A cabin of a hall and its calls: open, announce and hear. Its table stays with the host, who lends it to each call.
#![tactic(auto)]

mod cabin;
mod records;
mod tally;
mod writing;

pub use cabin::Cabin;
pub use moves::State;
pub use table::{Place, places};
pub use tally::Heard;

#[cfg(test)]
mod tests;
