// Coins on examples: the order of a byte's bits, the taps of the register, its period, and coins that run out.
use super::*;
use crate::shift::shifted;
use settings::Refusal;
use std::process::Abort;
use std::test::Fail;

// Tosses a coin once for each expected bit.
fn tosses<C: Coin>(rt: &impl Abort, coin: &mut C, bits: &[u8]) {
    for bit in bits {
        assert_eq!(rt; coin.toss(), *bit);
    }
}

#[test]
fn bytes_come_high_bit_first(rt: HostRuntime) -> Result<(), Fail> {
    let mut coin = ByteCoin::new(&[0xa1, 0x80])?;
    assert_eq!(rt; coin.left(), 16);
    tosses(&rt, &mut coin, &[1, 0, 1, 0, 0, 0, 0, 1]);
    assert_eq!(rt; coin.left(), 8);
    tosses(&rt, &mut coin, &[1, 0, 0, 0, 0, 0, 0, 0]);
    assert_eq!(rt; coin.left(), 0);
    tosses(&rt, &mut coin, &[0, 0]);
    assert_eq!(rt; coin.left(), 0);
    Ok(())
}

#[test]
fn byte_sizes(rt: HostRuntime) -> Result<(), Fail> {
    let bytes = [255; 4097];
    assert_eq!(rt; ByteCoin::new(&[])?.left(), 0);
    assert_eq!(rt; ByteCoin::new(&bytes[0..1])?.left(), 8);
    assert_eq!(rt; ByteCoin::new(&bytes[0..4096])?.left(), 32768);
    assert_eq!(rt; ByteCoin::new(&bytes).err(), Some(Refusal::CoinSource));
    Ok(())
}

// Bits 0, 2, 3 and 5 are taps, alone and together; bits 1, 4 and 15 are not.
#[test]
fn taps(rt: HostRuntime) {
    for (register, next) in [
        (0x0001, 0x8000),
        (0x0002, 0x0001),
        (0x0004, 0x8002),
        (0x0008, 0x8004),
        (0x0010, 0x0008),
        (0x0020, 0x8010),
        (0x8000, 0x4000),
        (0x0005, 0x0002),
        (0x0009, 0x0004),
        (0x0021, 0x0010),
        (0x002c, 0x8016),
        (0x002d, 0x0016),
        (0xffff, 0x7fff),
    ] {
        assert_eq!(rt; shifted(register), next);
    }
}

// From register 1 come the bits 1, 0, 0, 0; it is then 1000h, whose own bits follow.
#[test]
fn register_1(rt: HostRuntime) -> Result<(), Fail> {
    assert_eq!(rt; shifted(shifted(shifted(shifted(1)))), 0x1000);
    let mut coin = RegisterCoin::new(1)?;
    tosses(&rt, &mut coin, &[1, 0, 0, 0]);
    assert_eq!(rt; coin.left(), 65531);
    let mut later = RegisterCoin::new(0x1000)?;
    for _ in 0..64 {
        assert_eq!(rt; coin.toss(), later.toss());
    }
    Ok(())
}

#[test]
fn register_returns_after_65535_bits(rt: HostRuntime) {
    let mut register = shifted(1);
    for _ in 1..65535 {
        assert_ne!(rt; register, 1);
        register = shifted(register);
    }
    assert_eq!(rt; register, 1);
}

#[test]
fn register_runs_out(rt: HostRuntime) -> Result<(), Fail> {
    assert_eq!(rt; RegisterCoin::new(0).err(), Some(Refusal::CoinSource));
    let mut coin = RegisterCoin::new(0xffff)?;
    for tossed in 0..65535 {
        assert_eq!(rt; coin.left(), 65535 - tossed);
        assert!(rt; coin.toss() <= 1);
    }
    assert_eq!(rt; coin.left(), 0);
    assert_eq!(rt; coin.toss(), 0);
    assert_eq!(rt; coin.left(), 0);
    Ok(())
}
