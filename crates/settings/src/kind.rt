// The three kinds of a phase.
ghost use Rattle.std.specs.Prelude.{◌≡◌};
ghost use Rattle.settings.specs.Kinds.{kind_of};

// How many phases a cycle has.
pub const CYCLE: u16 = 3;

// The value that names no course: no preference.
pub const NO_PREFERENCE: u8 = 2;

// Phases come in cycles of three: a CONVERGE, a LOCK and a DECIDE phase.
#[derive(Clone, Copy, PartialEq, Eq, Debug)]
pub enum PhaseKind {
    Converge,
    Lock,
    Decide,
}

// The kind of a phase.
impl From<u16> for PhaseKind {
    ghost from_gives = { λ phase kind. kind ≡ kind_of phase };

    fn from(phase: u16) -> PhaseKind {
        match phase % CYCLE {
            1 => PhaseKind::Converge,
            2 => PhaseKind::Lock,
            _ => PhaseKind::Decide,
        }
    }
}
