// Announcing such a packet, and reading it.
ghost use Rattle.std.specs.Prelude.{◌≡◌, IfOk};
ghost use Rattle.cabin.specs.Views.{cabin_state};
ghost use Rattle.moves.specs.Announcing.{announce_state};
ghost use Rattle.settings.specs.Refusals.{told};
ghost use Rattle.rehearsal_next.specs.Seats.{Writes, announce_reply, packet_bytes};

use crate::packet::Packet;
use crate::wordlist::Words;
use cabin::{Cabin, Place};
use packets::LONGEST_PACKET;
use settings::Refusal;

impl Packet {
    // The packet that a cabin announces.
    pub(crate) fn announced(
        cabin: &mut Cabin,
        number: u8,
        table: &[Place],
        words: &Words,
    ) -> Result<Packet, Refusal>
        ensures answer { told (λ (p : Packet). tt) result ≡ announce_reply number (cabin_state cabin.old) table.now }
        ensures cabin { cabin_state cabin.new ≡ announce_state (announce_reply number (cabin_state cabin.old) table.now) (cabin_state cabin.old) }
        ensures packet { IfOk result (λ p. Writes number (cabin_state cabin.old) table.now (packet_bytes p)) }
    {
        let mut bytes = [0; LONGEST_PACKET];
        let size = cabin.announce(table, &words.sealer(number), &mut bytes)?;
        Ok(Packet { bytes, size })
    }

    // The bytes of the packet.
    pub(crate) fn bytes(&self) -> &[u8]
        ensures { result.now ≡ packet_bytes self.now }
    {
        &self.bytes[..self.size]
    }
}
