// Words: SHA-256, the checks that a word passes or not, and the sealers that give words.
#![tactic(auto)]

mod cabin_entries;
mod check;
mod compare;
mod form;
mod hashed;
mod hashing;
mod list;
mod plain;
mod sealer;

pub use check::WordCheck;
pub use hashed::HashedSealer;
pub use hashing::sha256;
pub use list::{HashedList, PlainList};
pub use plain::PlainSealer;
pub use sealer::Sealer;

#[cfg(test)]
mod tests;
