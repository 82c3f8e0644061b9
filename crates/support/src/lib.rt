// The support of an announcement: which records of the table go out beside it.
#![tactic(auto)]

mod choice;
mod chosen;
mod support;

pub use choice::choose;
use chosen::Chosen;
pub use support::Support;

#[cfg(test)]
mod tests;
