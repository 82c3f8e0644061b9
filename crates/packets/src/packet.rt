// Reading a packet: how many records it has, and the record at a place.
ghost use Rattle.std.specs.Prelude.{◌≡◌, IfOk};
ghost use Rattle.settings.specs.Refusals.{told};
ghost use Rattle.packets.specs.Laws.{Rewrites};
ghost use Rattle.packets.specs.Packets.{read_answer, records_answer, shown};

use crate::format::{LONGEST_PACKET, RECORD_SIZE, WORD};
use crate::{Fields, record};
use settings::{Refusal, Settings};

// A record of a packet: what its sender announces, at the end, or a record of support before that.
// The word lies in the packet; it is not copied. That each case holds its own parts is a rule of the project.
#[derive(Clone, Copy, PartialEq, Eq, Debug)]
pub enum Reading<'a> {
    Support { fields: Fields, word: &'a [u8] },
    Announcement { fields: Fields, word: &'a [u8] },
}

impl<'a> Reading<'a> {
    // What the record says besides its word.
    pub fn fields(self) -> Fields
        ensures { result ≡ (shown self.entry).fields }
    {
        match self {
            Reading::Support { fields, .. } | Reading::Announcement { fields, .. } => fields,
        }
    }

    // The word of the record, where it lies in the packet.
    pub fn word(self) -> &'a [u8]
        ensures { result.now ≡ (shown self.entry).word }
    {
        match self {
            Reading::Support { word, .. } | Reading::Announcement { word, .. } => word,
        }
    }
}

// How many records a packet has.
pub fn records(packet: &[u8]) -> Result<usize, Refusal>
    ensures { told (λ x. x) result ≡ records_answer packet.now }
{
    let size = packet.len();
    if size < 1 || size > LONGEST_PACKET || size % RECORD_SIZE != 0 {
        return Err(Refusal::PacketSize);
    }
    Ok(size / RECORD_SIZE)
}

// The record at a place of a packet, from 0.
#[tactic(auto, using(crate::proofs::Places::rewrites))]
pub fn read<'a>(
    packet: &'a [u8],
    place: usize,
    settings: &Settings,
    branch: u16,
) -> Result<Reading<'a>, Refusal>
    ensures answer { told shown result ≡ read_answer settings.now branch packet.now place }
    ensures back { IfOk result (λ reading. Rewrites packet.now place (shown reading).fields (shown reading).word) }
{
    let count = records(packet)?;
    if place >= count {
        return Err(Refusal::PacketSize);
    }
    let start = place * RECORD_SIZE;
    let end = start + RECORD_SIZE;
    let fields = record::read_fields(&packet[start..end], settings, branch)?;
    let word = &packet[start + WORD..end];
    if place + 1 == count {
        Ok(Reading::Announcement { fields, word })
    } else {
        Ok(Reading::Support { fields, word })
    }
}
