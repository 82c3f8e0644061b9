// Writing the packet of an announcement. The buffer has room for 36 records, so no write of one is refused.
ghost use Rattle.std.specs.Prelude.{◌≡◌, ◌≤◌, length, slice_index, slice_index_or};
ghost use Rattle.packets.specs.Format.{longest_packet, word_size};
ghost use Rattle.packets.specs.Packets.{write_buffer};
ghost use Rattle.table.specs.declared.place.Place.TheVariants.{Empty};
ghost use Rattle.support.specs.View.{support_places};
ghost use Rattle.moves.specs.Announcing.{Announced, copied, own_content, place_status, place_word};
ghost use Rattle.cabin.specs.Packets.{Chosen, Wrote, Written};
ghost use Rattle.cabin.specs.Sealings.{sealing_of};

use crate::{Place, State};
use packets::{Fields, RECORD_SIZE};
use settings::Status;
use support::Support;
use words::Sealer;

// Writes the packet of a cabin that may announce, and answers its length. State and table go side by side, as in the calls: a table is
// lent for the call, and only the support needs it with the settings.
pub(crate) fn write_packet<S: Sealer>(
    state: State,
    table: &[Place],
    sealer: &S,
    buffer: &mut [u8],
) -> usize
    requires { longest_packet ≤ length buffer.old }
    ensures { Announced state table.now (sealing_of S.Sealer.own sealer.now) buffer.old buffer.new result }
{
    let support = support_of(&state, table);
    write_support(&state, table, &support, buffer);
    let copies = support.len();
    write_own(&state, sealer, copies, buffer);
    (copies + 1) * RECORD_SIZE
}

// The support that is sent: none in phase 1, and none with the first announcement in a phase.
fn support_of(state: &State, table: &[Place]) -> Support
    ensures { Chosen state.now table.now (support_places result) }
{
    if state.phase > 1 && state.announced {
        support::choose(state.table(table), state.phase, state.value, state.status)
    } else {
        Support::none()
    }
}

// Writes a copy of each record of the support.
fn write_support(state: &State, table: &[Place], support: &Support, buffer: &mut [u8])
    requires { longest_packet ≤ length buffer.old }
    ensures { Written (λ j. copied state.now table.now (slice_index (support_places support.now) j)) (length (support_places support.now)) buffer.old buffer.new }
{
    for (index, place) in support.places().iter().enumerate() {
        write_copy(state, table, *place, index, buffer);
    }
}

// Writes a copy of the record at a place of the table.
fn write_copy(state: &State, table: &[Place], place: u16, index: usize, buffer: &mut [u8])
    ensures { Wrote (copied state.now table.now place) index buffer.old buffer.new }
{
    let (status, word) = contents(held(table, usize::from(place)));
    // the way back from a place; cabin and value are below 256, so nothing is lost
    let row = 3 * u16::from(state.settings.cabins());
    let fields = Fields {
        cabin: (place % row / 3) as u8,
        value: (place % 3) as u8,
        status,
        branch: state.branch,
        phase: place / row + 1,
    };
    let _ = packets::write(buffer, index, fields, &word);
}

// Writes the cabin's own record.
fn write_own<S: Sealer>(state: &State, sealer: &S, index: usize, buffer: &mut [u8])
    ensures { Wrote (own_content state.now (sealing_of S.Sealer.own sealer.now)) index buffer.old buffer.new }
{
    let fields = Fields {
        cabin: state.number,
        value: state.value,
        status: state.status,
        branch: state.branch,
        phase: state.phase,
    };
    let word = sealer.seal(state.phase, state.value);
    let _ = packets::write(buffer, index, fields, &word);
}

// What a place of a table holds.
#[tactic(auto, using(std::proofs::lemmas::List::get_or_past))]
fn held(table: &[Place], place: usize) -> Place
    ensures { result ≡ slice_index_or table.now place Empty }
{
    table.get(place).copied().unwrap_or(Place::Empty)
}

// The status and the word that a place holds.
fn contents(held: Place) -> (Status, [u8; 32])
    ensures status { result.0 ≡ place_status held }
    ensures word { result.1 ≡ place_word held }
{
    match held {
        Place::Filled { status, word } => (status, word),
        Place::Empty => (Status::Undecided, [0; 32]),
    }
}
