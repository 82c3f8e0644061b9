// One cabin of a rehearsal, with its table, its coin and its latest packet.
ghost use Rattle.std.specs.Prelude.{◌≡◌, IfOk};
ghost use Rattle.std.specs.Option.{option_map};
ghost use Rattle.script.specs.Answers.{heard_reply};
ghost use Rattle.rehearsal_next.specs.Seats.{MayAnnounce, packet_bytes, packet_or_none, seat_announces, seat_hears, seat_opens, seat_view};
ghost use Rattle.rehearsal_next.specs.Stage.{first_seat};

use crate::Answer;
use crate::coin::coin;
use crate::packet::Packet;
use crate::wordlist::Words;
use cabin::{Cabin, Place, State};
use coins::RegisterCoin;
use settings::Refusal;
use std::alloc::{AllocError, Global};

// A seat holds a cabin once it is open.
#[derive(Drop)]
pub(crate) struct Seat {
    cabin: Option<Cabin>,
    table: Vec<Place>,
    coin: RegisterCoin,
    packet: Option<Packet>,
}

impl Seat {
    // The seat of a cabin that is not open.
    pub(crate) fn new(heap: Global, number: u8) -> Result<Seat, AllocError>
        ensures { IfOk result (λ s. seat_view s ≡ first_seat number) }
    {
        let table = vec![in heap; Place::Empty; cabin::places(&script::settings())]?;
        Ok(Seat {
            cabin: None,
            table,
            coin: coin(number),
            packet: None,
        })
    }

    // Opens the seat's cabin, unless it is open.
    pub(crate) fn open(&mut self, number: u8, choice: u8) -> Answer
        ensures reply { heard_reply result ≡ (seat_opens number choice (seat_view self.old)).reply }
        ensures after { seat_view self.new ≡ (seat_opens number choice (seat_view self.old)).seat }
    {
        if self.cabin.is_some() {
            return Err(Refusal::Step);
        }
        let table = self.table.as_mut_slice();
        let cabin = Cabin::open(script::settings(), number, script::BRANCH, choice, table)?;
        self.cabin = Some(cabin);
        Ok(None)
    }

    // Lets the seat's cabin announce, if it is open. A refused announce leaves the latest packet as it is.
    pub(crate) fn announce(&mut self, words: &Words, number: u8) -> Answer
        ensures reply { heard_reply result ≡ (seat_announces number (packet_or_none (seat_view self.new).packet) (seat_view self.old)).reply }
        ensures after { seat_view self.new ≡ (seat_announces number (packet_or_none (seat_view self.new).packet) (seat_view self.old)).seat }
        ensures lawful { MayAnnounce number (seat_view self.old) (packet_or_none (seat_view self.new).packet) }
    {
        let Some(cabin) = &mut self.cabin else {
            return Err(Refusal::Step);
        };
        let packet = Packet::announced(cabin, number, self.table.as_slice(), words)?;
        self.packet = Some(packet);
        Ok(None)
    }

    // Lets the seat's cabin hear a packet, if it is open.
    pub(crate) fn hear(&mut self, words: &Words, packet: &[u8]) -> Answer
        ensures reply { heard_reply result ≡ (seat_hears packet.now (seat_view self.old)).reply }
        ensures after { seat_view self.new ≡ (seat_hears packet.now (seat_view self.old)).seat }
    {
        let Some(cabin) = &mut self.cabin else {
            return Err(Refusal::Step);
        };
        let table = self.table.as_mut_slice();
        let heard = cabin.hear(table, packet, &words.check(), &mut self.coin)?;
        Ok(heard.fault.map(|fault| fault.refusal))
    }

    // The state of the seat's cabin, if it is open.
    pub(crate) fn state(&self) -> Option<State>
        ensures { result ≡ (seat_view self.now).state }
    {
        self.cabin.as_ref().map(|cabin| cabin.state())
    }

    // The latest packet that the seat's cabin announced, if there is one.
    pub(crate) fn packet(&self) -> Option<Packet>
        ensures { option_map packet_bytes result ≡ (seat_view self.now).packet }
    {
        self.packet
    }
}
