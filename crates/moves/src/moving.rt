// How a cabin moves after a packet: it catches up, leaves its phase, and settles.
ghost use Rattle.std.specs.Prelude.{◌≡◌, is_some, nat_le, not, unwrap_or};
ghost use Rattle.settings.specs.Kinds.{kind_of};
ghost use Rattle.agreement.specs.Rules.{has_quorum};
ghost use Rattle.table.specs.Places.{records_of};
ghost use Rattle.table.specs.Rules.{count_for, hall_of};
ghost use Rattle.moves.specs.Moving.{catch_up, catch_value, course_where, decision_of, leave, leave_status, moved, moves_to, settled, value_after, with_bits};

use crate::State;
use coins::Coin;
use packets::Fields;
use settings::{NO_PREFERENCE, PhaseKind, Status};
use table::Place;

impl State {
    // Moves once, by the records of a table and the record to catch up with, if there is one. The places are handed on, and not a `Table`:
    // the settings in it are those of the state, which a contract would have to say.
    #[tactic(auto, using(crate::proofs::Moves::catch_up_settings))]
    pub fn advance<C: Coin>(&mut self, places: &[Place], ahead: Option<Fields>, coin: &mut C)
        ensures state { self.new ≡ (moved (records_of self.old.settings places.now) ahead (with_bits self.old (C.Coin.bits coin.old))).state }
        ensures bits { C.Coin.bits coin.new ≡ (moved (records_of self.old.settings places.now) ahead (with_bits self.old (C.Coin.bits coin.old))).bits }
    {
        let before = self.phase;
        self.catch_up(places, ahead, coin);
        self.leave(places, coin);
        self.settle(before);
    }

    // Catches up with a record of a higher phase.
    fn catch_up<C: Coin>(&mut self, places: &[Place], ahead: Option<Fields>, coin: &mut C)
        ensures state { self.new ≡ (catch_up (records_of self.old.settings places.now) ahead (with_bits self.old (C.Coin.bits coin.old))).state }
        ensures bits { C.Coin.bits coin.new ≡ (catch_up (records_of self.old.settings places.now) ahead (with_bits self.old (C.Coin.bits coin.old))).bits }
    {
        if let Some(fields) = ahead.filter(|fields| fields.phase > self.phase) {
            let value = self.catch_value(places, fields);
            self.move_to(fields.phase, value, fields.status, coin);
        }
    }

    // Goes to a phase with a status and a value, which is tossed where there is none.
    fn move_to<C: Coin>(&mut self, phase: u16, value: Option<u8>, status: Status, coin: &mut C)
        ensures state { self.new ≡ (moves_to (not (is_some value)) (with_bits self.old (C.Coin.bits coin.old)) phase (unwrap_or value 0) status).state }
        ensures bits { C.Coin.bits coin.new ≡ (moves_to (not (is_some value)) (with_bits self.old (C.Coin.bits coin.old)) phase (unwrap_or value 0) status).bits }
    {
        self.phase = phase;
        self.status = status;
        // no `unwrap_or_else`: its contract does not tell what its closure leaves of the coin
        self.value = match value {
            Some(value) => value,
            None => coin.toss(),
        };
    }

    // The value that is taken from a record; in CONVERGE one that has no quorum in LOCK is tossed.
    fn catch_value(&self, places: &[Place], fields: Fields) -> Option<u8>
        ensures { result ≡ catch_value (kind_of fields.phase) self.now (records_of self.now.settings places.now) fields }
    {
        let held = match PhaseKind::from(fields.phase) {
            PhaseKind::Converge => {
                let lock = fields.phase.saturating_sub(2);
                self.table(places).has_quorum(lock, fields.value)
            }
            PhaseKind::Lock | PhaseKind::Decide => true,
        };
        held.then_some(fields.value)
    }

    // Leaves the phase, if it has a quorum.
    #[tactic(auto, using(crate::proofs::Moves::counted_within))]
    fn leave<C: Coin>(&mut self, places: &[Place], coin: &mut C)
        ensures state { self.new ≡ (leave (records_of self.old.settings places.now) (with_bits self.old (C.Coin.bits coin.old))).state }
        ensures bits { C.Coin.bits coin.new ≡ (leave (records_of self.old.settings places.now) (with_bits self.old (C.Coin.bits coin.old))).bits }
    {
        if self.table(places).turnout(self.phase) < self.settings.quorum() {
            return;
        }
        let value = self.value_after(places);
        let status = self.status_after(places);
        self.move_to(self.phase + 1, value, status, coin);
    }

    // The value with which the phase is left; after a DECIDE phase in which no cabin named a course it is tossed.
    fn value_after(&self, places: &[Place]) -> Option<u8>
        ensures { result ≡ value_after (kind_of self.now.phase) self.now (records_of self.now.settings places.now) }
    {
        let table = self.table(places);
        match PhaseKind::from(self.phase) {
            PhaseKind::Converge => {
                let more = table.count(self.phase, 1) > table.count(self.phase, 0);
                Some(u8::from(more))
            }
            PhaseKind::Lock => Some(self.course_held(places).unwrap_or(NO_PREFERENCE)),
            PhaseKind::Decide => self
                .course_held(places)
                .or_else(|| self.course_said(places)),
        }
    }

    // The status with which the phase is left: decided after a DECIDE phase with a quorum for a course.
    fn status_after(&self, places: &[Place]) -> Status
        ensures { result ≡ leave_status (kind_of self.now.phase) self.now (records_of self.now.settings places.now) }
    {
        match PhaseKind::from(self.phase) {
            PhaseKind::Decide if self.course_held(places).is_some() => Status::Decided,
            _ => self.status,
        }
    }

    // The course that has a quorum in the phase, if one has.
    fn course_held(&self, places: &[Place]) -> Option<u8>
        ensures { result ≡ course_where (λ v. has_quorum (hall_of self.now.settings) (records_of self.now.settings places.now) self.now.phase v) }
    {
        let table = self.table(places);
        (0..NO_PREFERENCE).find(|course| table.has_quorum(self.phase, *course))
    }

    // The lowest course that a cabin named in the phase, if one did. Like the other, one `find` over the courses.
    fn course_said(&self, places: &[Place]) -> Option<u8>
        ensures { result ≡ course_where (λ v. nat_le 1 (count_for self.now.settings (records_of self.now.settings places.now) self.now.phase v)) }
    {
        let table = self.table(places);
        (0..NO_PREFERENCE).find(|course| table.count(self.phase, *course) >= 1)
    }

    // Clears the mark if the phase has changed, and fills the decision.
    fn settle(&mut self, before: u16)
        ensures { self.new ≡ settled before self.old }
    {
        self.decision = self.decision.or(self.course_decided());
        self.announced = self.announced && self.phase == before;
    }

    // The value of a cabin that is decided, if it is a course.
    fn course_decided(&self) -> Option<u8>
        ensures { result ≡ decision_of None self.now.status self.now.value }
    {
        let decided = self.status == Status::Decided && self.value < NO_PREFERENCE;
        decided.then_some(self.value)
    }
}
