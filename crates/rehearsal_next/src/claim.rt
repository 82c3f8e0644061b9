// A record that a step makes up.
ghost use Rattle.std.specs.Prelude.{◌≡◌, length};
ghost use Rattle.rehearsal_next.specs.Words.{claim_bytes, claim_head};

use packets::RECORD_SIZE;

// What a made-up record says of a cabin; it need not be lawful.
#[derive(Clone, Copy)]
pub struct Claim {
    pub cabin: u8,
    pub phase: u8,
    pub value: u8,
    pub status: u8,
}

impl Claim {
    // The 40 bytes of the record with a word: branch point 0, and byte 3 is 0. Not written by `packets`, since its status is any byte.
    pub(crate) fn record(self, word: [u8; 32]) -> [u8; RECORD_SIZE]
        ensures { result ≡ claim_bytes self word }
    {
        let mut bytes = [0; RECORD_SIZE];
        bytes[..8].copy_from_slice(&self.head());
        bytes[8..].copy_from_slice(&word);
        bytes
    }

    // The bytes before the word.
    fn head(self) -> [u8; 8]
        ensures { result ≡ claim_head self }
    {
        [self.cabin, self.value, self.status, 0, 0, 0, 0, self.phase]
    }
}
