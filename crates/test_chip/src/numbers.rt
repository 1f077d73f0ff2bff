//! Addresses, flags and processors by their numbers; none where a table is wrong about the range.

use cm_bits::{Addr, FlagNo, Proc};
use std::test::Fail;

pub(crate) fn address(number: u16) -> Result<Addr, Fail> {
    Ok(Addr::new(number).ok_or("no address")?)
}

pub(crate) fn flag(number: u8) -> Result<FlagNo, Fail> {
    Ok(FlagNo::new(number).ok_or("no flag")?)
}

pub(crate) fn processor(number: u8) -> Result<Proc, Fail> {
    Ok(Proc::new(number).ok_or("no processor")?)
}
