// A cabin's table: its places, the counts over them, and the three rules that a record must meet.
#![tactic(auto)]

mod counts;
mod layout;
mod place;
mod rules;
mod view;

pub use layout::{filled_at, place_of, places};
pub use place::Place;
pub use rules::{last_decide, last_lock};
pub use view::Table;

#[cfg(test)]
mod tests;
