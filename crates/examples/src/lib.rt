// Worked examples of the rules, and runs in which a hall decides, shown over the definitions that the calls meet.
#![tactic(auto)]

ghost use Rattle.std.specs.Prelude.{◌≡◌, ℕ, ◌<◌};
ghost use Rattle.examples.specs.Examples.{Examples};
ghost use Rattle.examples.specs.Witness.{Witness};

// The examples of `Examples`.
const SHOWN: usize = 22;

// The courses of a two-way hall: a number of its own, so that a wrong one is refused by the runs that are shown here.
const COURSES: u8 = 2;

// How many examples of the rules are shown.
pub fn examples_shown() -> usize
    ensures value { result ≡ 22 }
    ensures shown { Examples }
{
    SHOWN
}

// The courses that a hall can come to: for each there is a run in which the honest cabins were opened with both courses and
// hold this one as their decision.
pub fn courses_reached() -> u8
    ensures value { result ≡ 2 }
    ensures reached { (v : ℕ) → v < result → Witness v }
{
    COURSES
}
