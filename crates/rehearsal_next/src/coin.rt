// The coins of a rehearsal.
ghost use Rattle.std.specs.Prelude.{◌≡◌};
ghost use Rattle.coins.specs.Register.{register_coin_bits};
ghost use Rattle.rehearsal_next.specs.Coins.{coin_bits};

use coins::RegisterCoin;

// The coin of a cabin: its register begins with one more than the cabin's number.
pub(crate) fn coin(cabin: u8) -> RegisterCoin
    ensures { register_coin_bits result ≡ coin_bits cabin }
{
    RegisterCoin::new(u16::from(cabin) + 1).unwrap()
}
