// The numbers of the format: the sizes of a record, a word and a packet, and where each field of a record begins.
pub const RECORD_SIZE: usize = 40;

pub const WORD_SIZE: usize = 32;

pub const MOST_RECORDS: usize = 36;

pub const LONGEST_PACKET: usize = MOST_RECORDS * RECORD_SIZE;

pub(crate) const CABIN: usize = 0;

pub(crate) const VALUE: usize = 1;

pub(crate) const STATUS: usize = 2;

pub(crate) const ZERO: usize = 3;

pub(crate) const BRANCH: usize = 4;

pub(crate) const PHASE: usize = 6;

pub(crate) const WORD: usize = 8;
