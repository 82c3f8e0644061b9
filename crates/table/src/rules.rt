// The three rules that a record must meet at a table.
ghost use Rattle.std.specs.Prelude.{◌≡◌};
ghost use Rattle.agreement.specs.Rules.{has_quorum};
ghost use Rattle.agreement.specs.Status.{last_decide};
ghost use Rattle.agreement.specs.TwoWay.{both_held, has_weak_quorum, last_lock};
ghost use Rattle.table.specs.Rules.{hall_of, meets_phase, meets_status, meets_value};
ghost use Rattle.table.specs.View.{records};

use crate::Table;
use settings::{CYCLE, NO_PREFERENCE, PhaseKind, Status};

impl Table<'_> {
    // The phase rule: phase 1, or a quorum in the phase before.
    pub fn phase_rule(&self, phase: u16) -> bool
        ensures { result ≡ meets_phase self.now.settings (records self.now) phase }
    {
        phase == 1 || self.turnout(phase.saturating_sub(1)) >= self.settings.quorum()
    }

    // The value rule, by the kind of the phase.
    #[tactic(auto, unfolding(agreement::specs::TwoWay::two_way))]
    pub fn value_rule(&self, phase: u16, value: u8) -> bool
        ensures { result ≡ meets_value self.now.settings (records self.now) phase value }
    {
        let before = phase.saturating_sub(1);
        let second = phase.saturating_sub(2);
        match PhaseKind::from(phase) {
            PhaseKind::Converge => {
                phase == 1
                    || self.has_quorum(second, value)
                    || self.has_quorum(before, NO_PREFERENCE)
            }
            PhaseKind::Lock => self.has_weak_quorum(before, value),
            PhaseKind::Decide => {
                if value == NO_PREFERENCE {
                    self.both_held(second)
                } else {
                    self.has_quorum(before, value)
                }
            }
        }
    }

    // The status rule: undecided in the first cycle; later by the last DECIDE or the last LOCK phase.
    #[tactic(auto, unfolding(agreement::specs::TwoWay::two_way))]
    pub fn status_rule(&self, phase: u16, value: u8, status: Status) -> bool
        ensures { result ≡ meets_status self.now.settings (records self.now) phase value status }
    {
        match status {
            Status::Decided => {
                phase > CYCLE && value < NO_PREFERENCE && self.has_quorum(last_decide(phase), value)
            }
            Status::Undecided => phase <= CYCLE || self.both_held(last_lock(phase)),
        }
    }

    // c(φ, v) ≥ q
    pub fn has_quorum(&self, phase: u16, value: u8) -> bool
        ensures { result ≡ has_quorum (hall_of self.now.settings) (records self.now) phase value }
    {
        self.count(phase, value) >= self.settings.quorum()
    }

    // c(φ, v) ≥ h. Not one function with `has_quorum`: the number to compare with would then stand in every call.
    fn has_weak_quorum(&self, phase: u16, value: u8) -> bool
        ensures { result ≡ has_weak_quorum self.now.settings.cabins self.now.settings.faults (records self.now) phase value }
    {
        self.count(phase, value) >= self.settings.weak_quorum()
    }

    // c(φ, 0) ≥ h and c(φ, 1) ≥ h
    fn both_held(&self, phase: u16) -> bool
        ensures { result ≡ both_held self.now.settings.cabins self.now.settings.faults (records self.now) phase }
    {
        self.has_weak_quorum(phase, 0) && self.has_weak_quorum(phase, 1)
    }
}

// The highest DECIDE phase below a phase.
pub fn last_decide(phase: u16) -> u16
    ensures { result ≡ last_decide phase }
{
    phase.saturating_sub(1) / CYCLE * CYCLE
}

// The highest LOCK phase below a phase.
pub fn last_lock(phase: u16) -> u16
    ensures { result ≡ last_lock phase }
{
    (phase / CYCLE * CYCLE).saturating_sub(1)
}
