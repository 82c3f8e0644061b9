// Hearing the records of a packet, one after another.
ghost use Rattle.std.specs.Prelude.{◌≡◌, ◌≤◌, true, length, slice_set};
ghost use Rattle.settings.specs.Refusals.{told};
ghost use Rattle.packets.specs.Packets.{places_in, read_answer};
ghost use Rattle.table.specs.Places.{in_table, place_of};
ghost use Rattle.table.specs.declared.place.Place.TheVariants.{Filled};
ghost use Rattle.moves.specs.Hearing.{heard};
ghost use Rattle.cabin.specs.Records.{found_of, table_after};
ghost use Rattle.cabin.specs.Views.{tally_view};

use crate::tally::Tally;
use moves::{Finding, State};
use packets::Fields;
use settings::{Refusal, Settings};
use table::Place;
use words::WordCheck;

// Hears the records of a packet in their order. Their number comes with the packet: asked for here, it would be an error that cannot come.
pub(crate) fn hear_records<W: WordCheck>(
    check: &W,
    state: &State,
    table: &mut [Place],
    packet: &[u8],
    count: usize,
) -> Tally
    requires all { count ≡ places_in packet.now }
    requires few { count ≤ 36 }
    ensures tally { tally_view result ≡ (heard (W.WordCheck.answers check.now) state.now table.old packet.now).progress }
    ensures table { table.new ≡ (heard (W.WordCheck.answers check.now) state.now table.old packet.now).table }
{
    let mut tally = Tally::default();
    // places, since the reader and the fault go by the place
    for place in 0..count {
        let answer = hear_record(check, state, table, packet, place);
        tally.count(place, answer);
    }
    tally
}

// Hears the record at a place of a packet: a new one is kept. Support and announcements are heard alike.
fn hear_record<W: WordCheck>(
    check: &W,
    state: &State,
    table: &mut [Place],
    packet: &[u8],
    place: usize,
) -> Result<(Finding, Fields), Refusal>
    ensures answer { told (λ x. x) result ≡ found_of (W.WordCheck.answers check.now) state.now table.old (read_answer state.now.settings state.now.branch packet.now place) }
    ensures table { table.new ≡ table_after (W.WordCheck.answers check.now) state.now table.old (read_answer state.now.settings state.now.branch packet.now place) }
{
    let reading = packets::read(packet, place, &state.settings, state.branch)?;
    let fields = reading.fields();
    let finding = moves::judge(check, state.table(table), fields, reading.word())?;
    if finding == Finding::New {
        keep(table, &state.settings, fields, reading.word());
    }
    Ok((finding, fields))
}

// Fills the place of a record with its status and its word; a place that the table does not have is passed over.
#[tactic(auto, using(std::proofs::lemmas::List::set_past))]
fn keep(table: &mut [Place], settings: &Settings, fields: Fields, word: &[u8])
    requires placed { in_table settings.now fields.phase fields.cabin fields.value ≡ true }
    requires whole { length word.now ≡ 32 }
    ensures { table.new ≡ slice_set table.old (place_of settings.now fields.phase fields.cabin fields.value) (Filled fields.status word.now) }
{
    let place = table::place_of(settings, fields.slot()).unwrap();
    let word = <[u8; 32]>::try_from(word).unwrap();
    // the contract of a slice's `get_mut` does not tell a write through it
    if place < table.len() {
        table[place] = Place::Filled {
            status: fields.status,
            word,
        };
    }
}
