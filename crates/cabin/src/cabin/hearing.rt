// Hearing a packet.
ghost use Rattle.std.specs.Prelude.{◌≡◌};
ghost use Rattle.settings.specs.Refusals.{told};
ghost use Rattle.moves.specs.Hearing.{hear_answer, hear_bits, hear_state, hear_table};
ghost use Rattle.runs.specs.Laws.{HallAgrees, HearKeeps};
ghost use Rattle.cabin.specs.Views.{cabin_state, heard_view, when_refused};

use crate::{Cabin, Heard, Place, records};
use coins::Coin;
use settings::Refusal;
use words::WordCheck;

impl Cabin {
    // Hears a packet: each of its records in their order, and then the cabin moves once. The laws over runs need that the
    // coin's bits are bits, so the coin is asked in any case.
    #[tactic(auto, using(runs::proofs::Calls::hear_keeps, runs::proofs::Running::hall_agrees))]
    pub fn hear<W: WordCheck, C: Coin>(
        &mut self,
        table: &mut [Place],
        packet: &[u8],
        check: &W,
        coin: &mut C,
    ) -> Result<Heard, Refusal>
        ensures answer { told heard_view result ≡ hear_answer (W.WordCheck.answers check.now) (cabin_state self.old) table.old packet.now (C.Coin.bits coin.old) }
        ensures cabin { cabin_state self.new ≡ hear_state (W.WordCheck.answers check.now) (cabin_state self.old) table.old packet.now (C.Coin.bits coin.old) (told heard_view result) }
        ensures table { table.new ≡ hear_table (W.WordCheck.answers check.now) (cabin_state self.old) table.old packet.now (told heard_view result) }
        ensures bits { C.Coin.bits coin.new ≡ hear_bits (W.WordCheck.answers check.now) (cabin_state self.old) table.old packet.now (C.Coin.bits coin.old) (told heard_view result) }
        ensures coin { when_refused result (coin.new ≡ coin.old) }
        ensures agrees { HallAgrees }
        ensures keeps { HearKeeps (W.WordCheck.answers check.now) (cabin_state self.old) (cabin_state self.new) table.old table.new packet.now (told heard_view result) }
    {
        let left = coin.left();
        if table.len() != table::places(&self.state.settings) {
            return Err(Refusal::TableSize);
        }
        if left == 0 {
            return Err(Refusal::CoinEmpty);
        }
        let count = packets::records(packet)?;
        let tally = records::hear_records(check, &self.state, table, packet, count);
        self.state.advance(table, tally.ahead, coin);
        Ok(tally.heard())
    }
}
