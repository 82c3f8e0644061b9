// The choice of a support: for each rule that the table meets, the fewest records that meet it, lowest cabins first.
ghost use Rattle.std.specs.Prelude.{◌≡◌};
ghost use Rattle.settings.specs.Kinds.{kind_of};
ghost use Rattle.settings.specs.declared.kind.PhaseKind.TheVariants.{Converge};
ghost use Rattle.agreement.specs.TwoWay.{both_held};
ghost use Rattle.table.specs.Rules.{meets_phase, meets_status, meets_value};
ghost use Rattle.support.specs.Support.{Supports};
ghost use Rattle.support.specs.View.{support_places};
ghost use Rattle.support.specs.Passes.{Adds, Carries, Serves, most_quorum, most_rule};

use crate::{Chosen, Support};
use settings::{CYCLE, NO_PREFERENCE, PhaseKind, Status};
use table::Table;

// The support of a record for a phase with a value and a status. The phase rule comes last: what the others chose counts for
// it. The three stay apart: each rule looks at other ones of them, and `Fields` would ask for a cabin and a branch point too.
pub fn choose(table: Table, phase: u16, value: u8, status: Status) -> Support
    ensures { Supports table.entry.settings table.entry.places.now phase value status (support_places result) }
{
    let mut chosen = Chosen::none();
    chosen.for_value(table, phase, value);
    chosen.for_status(table, phase, value, status);
    chosen.for_phase(table, phase);
    chosen.listed()
}

impl Chosen {
    // What the value rule needs, by the kind of the phase.
    fn for_value(&mut self, table: Table, phase: u16, value: u8)
        ensures { Serves table.entry.settings table.entry.places.now phase most_rule (λ t. meets_value table.entry.settings t phase value) self.old.places self.new.places }
    {
        if !table.value_rule(phase, value) {
            return;
        }
        let before = phase.saturating_sub(1);
        match PhaseKind::from(phase) {
            PhaseKind::Converge => self.for_converge(table, phase, value),
            PhaseKind::Lock => self.lowest(table, before, value, table.settings.weak_quorum()),
            PhaseKind::Decide => {
                if value == NO_PREFERENCE {
                    self.both(table, phase.saturating_sub(2))
                } else {
                    self.lowest(table, before, value, table.settings.quorum())
                }
            }
        }
    }

    // What the value rule needs in a CONVERGE phase: a quorum for no preference in the phase before, since it serves the
    // phase rule too, or else one for the value two phases before. In phase 1 there is neither, and none is needed.
    fn for_converge(&mut self, table: Table, phase: u16, value: u8)
        requires { Converge ≡ kind_of phase }
        ensures { Serves table.entry.settings table.entry.places.now phase most_rule (λ t. meets_value table.entry.settings t phase value) self.old.places self.new.places }
    {
        let quorum = table.settings.quorum();
        let before = phase.saturating_sub(1);
        let second = phase.saturating_sub(2);
        if table.has_quorum(before, NO_PREFERENCE) {
            self.lowest(table, before, NO_PREFERENCE, quorum)
        } else {
            self.lowest(table, second, value, quorum)
        }
    }

    // What the status rule needs: a quorum in the last DECIDE phase, or, after the first cycle, a weak quorum for each
    // course in the last LOCK phase.
    fn for_status(&mut self, table: Table, phase: u16, value: u8, status: Status)
        ensures { Serves table.entry.settings table.entry.places.now phase most_rule (λ t. meets_status table.entry.settings t phase value status) self.old.places self.new.places }
    {
        if !table.status_rule(phase, value, status) {
            return;
        }
        match status {
            Status::Decided => self.lowest(
                table,
                table::last_decide(phase),
                value,
                table.settings.quorum(),
            ),
            Status::Undecided => {
                if phase > CYCLE {
                    self.both(table, table::last_lock(phase))
                }
            }
        }
    }

    // What the phase rule needs: a quorum of cabins in the phase before.
    fn for_phase(&mut self, table: Table, phase: u16)
        ensures { Serves table.entry.settings table.entry.places.now phase most_quorum (λ t. meets_phase table.entry.settings t phase) self.old.places self.new.places }
    {
        if table.phase_rule(phase) {
            self.top_up(table, phase.saturating_sub(1), table.settings.quorum())
        }
    }

    // A weak quorum for each course in a phase.
    #[tactic(auto, using(crate::proofs::Serving::both_carries))]
    fn both(&mut self, table: Table, phase: u16)
        ensures adds { Adds table.entry.settings table.entry.places.now phase phase most_rule self.old.places self.new.places }
        ensures carries { Carries table.entry.settings table.entry.places.now self.new.places (λ t. both_held table.entry.settings.cabins table.entry.settings.faults t phase) }
    {
        let weak = table.settings.weak_quorum();
        self.lowest(table, phase, 0, weak);
        self.lowest(table, phase, 1, weak);
    }
}
