// What a word, an entry of a list and a place of a table belong to.

// A cabin, a phase and a value. A cabin has one word for each phase and value, a list one entry for each slot, and a table one place.
#[derive(Clone, Copy, PartialEq, Eq, Debug)]
pub struct Slot {
    pub cabin: u8,
    pub phase: u16,
    pub value: u8,
}
