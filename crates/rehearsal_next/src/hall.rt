// The hall of a rehearsal: its seats, and what a step does to them.
ghost use Rattle.std.specs.Prelude.{◌≡◌, [], IfOk};
ghost use Rattle.std.specs.Option.{option_map};
ghost use Rattle.script.specs.Answers.{heard_reply};
ghost use Rattle.script.specs.Lines.{line_said};
ghost use Rattle.script.specs.Stage.{Keeps, Turned};
ghost use Rattle.rehearsal_next.specs.Seats.{MayAnnounce, closed_seat, packet_bytes, seat_announces, seat_hears, seat_hears_latest, seat_opens};
ghost use Rattle.rehearsal_next.specs.Stage.{MayWrite, first_stage, latest, seat_at, stage_after, stage_of, step_said, turn};
ghost use Rattle.script.specs.Steps.{actor};
ghost use Rattle.rehearsal_next.specs.Steps.{step_of};
ghost use Rattle.rehearsal_next.specs.Words.{claimed};

use crate::packet::Packet;
use crate::seat::Seat;
use crate::wordlist::Words;
use crate::{Answer, Claim, Line, Step};
use cabin::State;
use settings::Refusal;
use std::alloc::{AllocError, Global};

// A rehearsal's hall: a seat for each cabin, by its number, and the words of all.
#[derive(Drop)]
pub struct Hall {
    seats: Vec<Seat>,
    words: Words,
}

impl Hall {
    // A hall in which no cabin is open.
    pub fn new(heap: Global) -> Result<Hall, AllocError>
        ensures { IfOk result (λ h. stage_of h ≡ first_stage) }
    {
        let words = Words::new(heap)?;
        let mut seats = Vec::new(heap);
        for number in 0..script::settings().cabins() {
            seats.push(Seat::new(heap, number)?)?;
        }
        Ok(Hall { seats, words })
    }

    // Takes one step, which is the `step`-th from 1, and tells what it did.
    pub fn step(&mut self, step: usize, bytes: [u8; 8]) -> Line
        ensures line { line_said heard_reply result ≡ step_said step bytes (latest (stage_of self.new) (actor bytes)) (stage_of self.old) }
        ensures after { stage_of self.new ≡ stage_after (step_of bytes) (actor bytes) (latest (stage_of self.new) (actor bytes)) (stage_of self.old) }
        ensures lawful { MayWrite (step_of bytes) (actor bytes) (stage_of self.old) (latest (stage_of self.new) (actor bytes)) }
        ensures keeps { Keeps (closed_seat []) (actor bytes) (line_said heard_reply result).reply (stage_of self.old) (stage_of self.new) }
    {
        let cabin = bytes[1];
        let answer = self.act(cabin, Step::read(bytes));
        let state = self.state(cabin);
        Line {
            step,
            cabin,
            state,
            answer,
        }
    }

    // Does what a step asks of a cabin; bytes that ask for nothing are refused.
    fn act(&mut self, cabin: u8, step: Option<Step>) -> Answer
        ensures turned { Turned cabin (turn step cabin (latest (stage_of self.new) cabin) (stage_of self.old)) (heard_reply result) (stage_of self.old) (stage_of self.new) }
        ensures lawful { MayWrite step cabin (stage_of self.old) (latest (stage_of self.new) cabin) }
    {
        // the cases of an enum: each asks another call with its own arguments
        match step.ok_or(Refusal::Step)? {
            Step::Open { choice } => self.open(cabin, choice),
            Step::Announce => self.announce(cabin),
            Step::Hear { sender } => self.hear(cabin, sender),
            Step::HearRecord { claim } => self.hear_record(cabin, claim),
        }
    }

    // Opens a cabin with a choice; a number that no seat has is refused. Each of these takes its seat itself: a method that lends a seat
    // would lend the words too.
    fn open(&mut self, cabin: u8, choice: u8) -> Answer
        ensures { Turned cabin (seat_opens cabin choice (seat_at (stage_of self.old) cabin)) (heard_reply result) (stage_of self.old) (stage_of self.new) }
    {
        let seat = self.seats.get_mut(usize::from(cabin)).ok_or(Refusal::Step)?;
        seat.open(cabin, choice)
    }

    // Lets a cabin announce; a number that no seat has is refused.
    fn announce(&mut self, cabin: u8) -> Answer
        ensures turned { Turned cabin (seat_announces cabin (latest (stage_of self.new) cabin) (seat_at (stage_of self.old) cabin)) (heard_reply result) (stage_of self.old) (stage_of self.new) }
        ensures lawful { MayAnnounce cabin (seat_at (stage_of self.old) cabin) (latest (stage_of self.new) cabin) }
    {
        let seat = self.seats.get_mut(usize::from(cabin)).ok_or(Refusal::Step)?;
        seat.announce(&self.words, cabin)
    }

    // Lets a cabin hear the latest packet of a sender; refused if there is none.
    fn hear(&mut self, cabin: u8, sender: u8) -> Answer
        ensures { Turned cabin (seat_hears_latest (seat_at (stage_of self.old) sender).packet (seat_at (stage_of self.old) cabin)) (heard_reply result) (stage_of self.old) (stage_of self.new) }
    {
        let packet = self.packet(sender).ok_or(Refusal::Step)?;
        self.hear_packet(cabin, packet.bytes())
    }

    // Lets a cabin hear a packet of one made-up record.
    fn hear_record(&mut self, cabin: u8, claim: Claim) -> Answer
        ensures { Turned cabin (seat_hears (claimed claim) (seat_at (stage_of self.old) cabin)) (heard_reply result) (stage_of self.old) (stage_of self.new) }
    {
        let record = self.words.record(claim);
        self.hear_packet(cabin, &record)
    }

    // Lets a cabin hear a packet; a number that no seat has is refused.
    fn hear_packet(&mut self, cabin: u8, packet: &[u8]) -> Answer
        ensures { Turned cabin (seat_hears packet.now (seat_at (stage_of self.old) cabin)) (heard_reply result) (stage_of self.old) (stage_of self.new) }
    {
        let seat = self.seats.get_mut(usize::from(cabin)).ok_or(Refusal::Step)?;
        seat.hear(&self.words, packet)
    }

    // The state of a cabin, if there is such a cabin and it is open.
    fn state(&self, cabin: u8) -> Option<State>
        ensures { result ≡ (seat_at (stage_of self.now) cabin).state }
    {
        self.seats
            .get(usize::from(cabin))
            .and_then(|seat| seat.state())
    }

    // The latest packet of a cabin, if there is such a cabin and it has announced.
    fn packet(&self, cabin: u8) -> Option<Packet>
        ensures { option_map packet_bytes result ≡ (seat_at (stage_of self.now) cabin).packet }
    {
        self.seats
            .get(usize::from(cabin))
            .and_then(|seat| seat.packet())
    }
}
