// Whole runs of a hall, and the laws that hold after every call of every run.
#![tactic(auto)]

ghost use Rattle.std.specs.Prelude.{◌≡◌};
ghost use Rattle.runs.specs.Laws.{HallAgrees};

// The phases that an honest cabin may lag behind one that was given its decision: after so many more it has decided.
pub fn lag() -> u16
    ensures value { result ≡ 3 }
    ensures agrees { HallAgrees }
{
    3
}
