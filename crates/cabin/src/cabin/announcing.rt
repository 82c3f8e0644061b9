// Announcing where the cabin stands.
ghost use Rattle.std.specs.Prelude.{◌≡◌, ℕ, IfOk};
ghost use Rattle.settings.specs.Refusals.{told};
ghost use Rattle.moves.specs.Announcing.{Announced, announce_answer, announce_state};
ghost use Rattle.runs.specs.Laws.{AnnounceKeeps, HallAgrees};
ghost use Rattle.cabin.specs.Sealings.{sealing_of};
ghost use Rattle.cabin.specs.Views.{cabin_state, when_refused};

use crate::{Cabin, Place, writing};
use packets::LONGEST_PACKET;
use settings::Refusal;
use words::Sealer;

impl Cabin {
    // Writes a packet that announces the cabin's phase, value and status, and answers its length.
    #[tactic(auto, using(runs::proofs::Calls::announce_keeps, runs::proofs::Running::hall_agrees))]
    pub fn announce<S: Sealer>(
        &mut self,
        table: &[Place],
        sealer: &S,
        buffer: &mut [u8],
    ) -> Result<usize, Refusal>
        ensures answer { told (λ (size : ℕ). tt) result ≡ announce_answer (cabin_state self.old) table.now (sealing_of S.Sealer.own sealer.now) buffer.old }
        ensures cabin { cabin_state self.new ≡ announce_state (announce_answer (cabin_state self.old) table.now (sealing_of S.Sealer.own sealer.now) buffer.old) (cabin_state self.old) }
        ensures packet { IfOk result (λ size. Announced (cabin_state self.old) table.now (sealing_of S.Sealer.own sealer.now) buffer.old buffer.new size) }
        ensures buffer { when_refused result (buffer.new ≡ buffer.old) }
        ensures agrees { HallAgrees }
        ensures keeps { AnnounceKeeps (cabin_state self.old) (cabin_state self.new) table.now (told (λ (size : ℕ). size) result) buffer.new }
    {
        self.may_announce(table, sealer, buffer)?;
        let size = writing::write_packet(self.state, table, sealer, buffer);
        self.state.announced = true;
        Ok(size)
    }

    // Why the cabin cannot announce, if so.
    fn may_announce<S: Sealer>(
        &self,
        table: &[Place],
        sealer: &S,
        buffer: &[u8],
    ) -> Result<(), Refusal>
        ensures { told (λ x. tt) result ≡ announce_answer (cabin_state self.now) table.now (sealing_of S.Sealer.own sealer.now) buffer.now }
    {
        if table.len() != table::places(&self.state.settings) {
            return Err(Refusal::TableSize);
        }
        if sealer.cabin() != self.state.number {
            return Err(Refusal::CabinNumber);
        }
        if sealer.last_phase() != self.state.settings.phases() {
            return Err(Refusal::WordsSize);
        }
        if buffer.len() < LONGEST_PACKET {
            return Err(Refusal::BufferSize);
        }
        if self.state.phase > self.state.settings.phases() {
            return Err(Refusal::Finished);
        }
        Ok(())
    }
}
