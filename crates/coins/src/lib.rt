// Coins: where a cabin takes its random bits from.
#![tactic(auto)]

mod bits;
mod bytes;
mod coin;
mod register;
mod shift;

pub use bytes::ByteCoin;
pub use coin::Coin;
pub use register::RegisterCoin;

#[cfg(test)]
mod tests;
