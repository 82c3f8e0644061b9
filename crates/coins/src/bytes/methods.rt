// Making a byte coin, and its bits.
ghost use Rattle.std.specs.Prelude.{◌≡◌};
ghost use Rattle.settings.specs.Refusals.{told};
ghost use Rattle.coins.specs.Bytes.{byte_coin_answer, byte_coin_bits};

use crate::bits::bit;
use crate::{ByteCoin, Coin};
use settings::Refusal;

const MOST_BYTES: usize = 4096;

impl<'a> ByteCoin<'a> {
    // A coin of all bits of at most 4,096 bytes.
    #[tactic(auto, using(crate::proofs::ByteLists::last_bits_all))]
    pub fn new(bytes: &'a [u8]) -> Result<ByteCoin<'a>, Refusal>
        ensures { told byte_coin_bits result ≡ byte_coin_answer bytes.now }
    {
        if bytes.len() > MOST_BYTES {
            return Err(Refusal::CoinSource);
        }
        let left = 8 * bytes.len();
        Ok(ByteCoin { bytes, left })
    }
}

impl Coin for ByteCoin<'_> {
    ghost bits = { byte_coin_bits };

    #[tactic(auto, using(crate::proofs::ByteLists::last_bits_step), unfolding(crate::specs::Bytes::last_bits))]
    fn toss(&mut self) -> u8 {
        if self.left == 0 {
            return 0;
        }
        let left = self.left - 1;
        let byte = self.bytes[self.bytes.len() - 1 - left / 8];
        self.left = left;
        bit(u16::from(byte), left % 8)
    }

    #[tactic(auto, using(crate::proofs::ByteLists::last_bits_length, crate::proofs::ByteLists::last_bits_each))]
    fn left(&self) -> usize {
        self.left
    }
}
