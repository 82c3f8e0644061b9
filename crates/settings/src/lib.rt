// What a hall agrees on before it opens: its settings, the kinds of a phase, slots, the status of a record, and the refusals.
#![tactic(auto)]

mod kind;
mod refusal;
mod settings;
mod slot;
mod status;

pub use kind::{CYCLE, NO_PREFERENCE, PhaseKind};
pub use refusal::Refusal;
pub use settings::Settings;
pub use slot::Slot;
pub use status::Status;

#[cfg(test)]
mod tests;
