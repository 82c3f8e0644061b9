// A place of the table.
use settings::Status;

// One place of a cabin's table: empty, or filled by a record that was kept, with its status and its word.
// No `Option`: a table lies in the host's memory, also across the C interface, and the rules call a place empty or filled.
#[derive(Clone, Copy, PartialEq, Eq, Debug)]
pub enum Place {
    Empty,
    Filled { status: Status, word: [u8; 32] },
}
