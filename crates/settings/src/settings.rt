// The settings of a hall, which keep their bounds in the type.
ghost use Rattle.std.specs.Prelude.{◌≡◌, ◌*◌, ◌%◌, ◌<◌, ◌≤◌};

mod methods;

// Settings of a hall: how many cabins it has (n), how many of them may be faulty (f), and its last phase (P).
// The ghost fields are bounds that every value of this type keeps; they take no memory.
#[derive(Clone, Copy, PartialEq, Eq, Debug)]
pub struct Settings {
    cabins: u8,
    faults: u8,
    phases: u16,
    ghost fewest: { 4 ≤ cabins },
    ghost most: { cabins ≤ 16 },
    ghost third: { 3 * faults < cabins },
    ghost first: { 3 ≤ phases },
    ghost last: { phases ≤ 24 },
    ghost cycles: { phases % 3 ≡ 0 },
}
