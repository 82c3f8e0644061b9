// The support of an announcement: places of the table whose records go out beside it.
ghost use Rattle.std.specs.Prelude.{◌≤◌};
ghost use Rattle.support.specs.Support.{most_support};

mod methods;

// A packet has room for so many records of support.
const MOST_SUPPORT: usize = 35;

// Places of the table, by number; the first `count` entries are in use. The kit's vector of a fixed capacity is not `Copy`, and
// a support is.
#[derive(Clone, Copy, Debug)]
pub struct Support {
    places: [u16; MOST_SUPPORT],
    count: u8,
    ghost few: { count ≤ most_support },
}
