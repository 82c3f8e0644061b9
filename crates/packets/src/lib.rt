// The bytes on the air: records of 40 bytes, and packets of them.
#![tactic(auto)]

mod format;
mod packet;
mod record;
mod writer;

pub use format::{LONGEST_PACKET, MOST_RECORDS, RECORD_SIZE, WORD_SIZE};
pub use packet::{Reading, read, records};
pub use record::Fields;
pub use writer::write;

#[cfg(test)]
mod tests;
