//! Addresses, flags and processors by their numbers.

ghost use Rattle.std.specs.Prelude.{◌≡◌, ◌<◌};

use cm_bits::{Addr, FlagNo, Proc};

pub fn address(number: u16) -> Addr
    requires within { number < 4096 }
    ensures value { result ≡ number }
{
    Addr::new(number).unwrap()
}

pub fn flag(number: u8) -> FlagNo
    requires within { number < 16 }
    ensures value { result ≡ number }
{
    FlagNo::new(number).unwrap()
}

pub fn processor(number: u8) -> Proc
    requires within { number < 16 }
    ensures value { result ≡ number }
{
    Proc::new(number).unwrap()
}
