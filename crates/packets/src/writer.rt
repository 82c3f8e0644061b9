// Writing a record at a place of a buffer.
ghost use Rattle.std.specs.Prelude.{◌≡◌, ◌<◌, OnOk};
ghost use Rattle.settings.specs.Refusals.{told};
ghost use Rattle.packets.specs.Laws.{ReadsBack};
ghost use Rattle.packets.specs.Packets.{places_in, write_answer, write_buffer, written};
ghost use Rattle.packets.specs.Records.{head_bytes, record_bytes};

use crate::Fields;
use crate::format::{RECORD_SIZE, WORD, WORD_SIZE};
use settings::Refusal;

// Writes a record at a place of a buffer, from 0. The other bytes of the buffer stay.
pub fn write(
    buffer: &mut [u8],
    place: usize,
    fields: Fields,
    word: &[u8; WORD_SIZE],
) -> Result<(), Refusal>
    ensures answer { told (λ x. x) result ≡ write_answer buffer.old place }
    ensures after { buffer.new ≡ write_buffer buffer.old place fields word.now }
    ensures back { OnOk result (ReadsBack buffer.old buffer.new place fields word.now) }
{
    if place >= buffer.len() / RECORD_SIZE {
        return Err(Refusal::BufferSize);
    }
    put(buffer, place, fields, word);
    Ok(())
}

// Writes a record at a place that the buffer has.
#[tactic(auto, using(crate::proofs::Places::parts_written, crate::proofs::Places::reads_back))]
fn put(buffer: &mut [u8], place: usize, fields: Fields, word: &[u8; WORD_SIZE])
    requires { place < places_in buffer.old }
    ensures after { buffer.new ≡ written buffer.old place (record_bytes fields word.now) }
    ensures back { ReadsBack buffer.old buffer.new place fields word.now }
{
    let start = place * RECORD_SIZE;
    buffer[start..start + WORD].copy_from_slice(&head(fields));
    buffer[start + WORD..start + RECORD_SIZE].copy_from_slice(word);
}

// The bytes of a record before its word.
fn head(fields: Fields) -> [u8; WORD]
    ensures { result ≡ head_bytes fields }
{
    let branch = fields.branch.to_be_bytes();
    let phase = fields.phase.to_be_bytes();
    [
        fields.cabin,
        fields.value,
        u8::from(fields.status),
        0,
        branch[0],
        branch[1],
        phase[0],
        phase[1],
    ]
}
