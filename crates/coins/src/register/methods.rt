// Making a register coin, and its bits.
ghost use Rattle.std.specs.Prelude.{◌≡◌};
ghost use Rattle.settings.specs.Refusals.{told};
ghost use Rattle.coins.specs.Register.{register_coin_answer, register_coin_bits};

use crate::bits::bit;
use crate::{Coin, RegisterCoin, shift};
use settings::Refusal;

// How many bits a register gives. It is then back at its start for the first time, as a test shows.
const PERIOD: u16 = 65535;

impl RegisterCoin {
    // A coin that begins with a register which is not 0.
    pub fn new(register: u16) -> Result<RegisterCoin, Refusal>
        ensures { told register_coin_bits result ≡ register_coin_answer register }
    {
        if register == 0 {
            return Err(Refusal::CoinSource);
        }
        Ok(RegisterCoin {
            register,
            left: PERIOD,
        })
    }
}

impl Coin for RegisterCoin {
    ghost bits = { register_coin_bits };

    #[tactic(auto, using(crate::proofs::RegisterLists::register_bits_step), unfolding(crate::specs::Register::register_bits))]
    fn toss(&mut self) -> u8 {
        if self.left == 0 {
            return 0;
        }
        let answer = bit(self.register, 0);
        self.register = shift::shifted(self.register);
        self.left -= 1;
        answer
    }

    #[tactic(auto, using(crate::proofs::RegisterLists::register_bits_length, crate::proofs::RegisterLists::register_bits_each))]
    fn left(&self) -> usize {
        usize::from(self.left)
    }
}
