//! Wires of a cube that are drawn, to be cut.

ghost use Rattle.std.specs.Prelude.{◌≡◌, ◌≢◌, ◌∷◌, [], ◌+◌, ◌<◌, ◌≤◌, ◌++◌, true, Ok, Err, IfOk, IfErr, OnOk, length};
ghost use Rattle.cm_router.specs.Cuts.{most_wires};
ghost use Rattle.lab_fresh.specs.Drawn.{lower_end, wire_end, is_drawn, with_drawn, drawn_wires, cut_wires_of};

use crate::blanks::{FreshFault, WireEnd};
use crate::draws::draw;
use cm_bits::NoMemory;
use std::alloc::Global;

/// The number of the draw of a cube's first wire, which no other draw has.
const FIRST_DRAW: u64 = 1 << 62;

/// These wires, and behind them so many that are drawn by this seed: every choice of so many of a cube's wires is as
/// likely.
pub fn cut_wires(
    alloc: Global,
    n: u16,
    named: &[WireEnd],
    count: u16,
    seed: u64,
) -> Result<Vec<WireEnd>, FreshFault>
    ensures value { IfOk result (λ ends. cut_wires_of n named.now count seed ≡ Ok ends.items) }
    ensures refused { IfErr result (λ fault. fault ≢ FreshFault.Memory
        → cut_wires_of n named.now count seed ≡ Err fault) }
    ensures count { IfOk result (λ ends. length ends.items ≡ length named.now + count) }
{
    if n > 12 {
        return Err(FreshFault::Dimension(n));
    }
    let most = wire_count(n as u8);
    if u32::from(count) > most {
        return Err(FreshFault::Drawn { most, count });
    }
    match named_and_drawn(alloc, n as u8, named, count, seed) {
        Ok(ends) => Ok(ends),
        Err(_) => Err(FreshFault::Memory),
    }
}

/// The same, where the cube has so many.
fn named_and_drawn(
    alloc: Global,
    n: u8,
    named: &[WireEnd],
    count: u16,
    seed: u64,
) -> Result<Vec<WireEnd>, NoMemory>
    requires dimension { n ≤ 12 }
    requires count { count ≤ most_wires n }
    ensures value { IfOk result (λ ends. ends.items ≡ named.now ++ drawn_wires n count seed) }
    ensures count { IfOk result (λ ends. length ends.items ≡ length named.now + count) }
{
    let drawn = drawn_wires(alloc, n, count, seed)?;
    let mut ends = Vec::from_slice(alloc, named)?;
    ends.extend_from_slice(&drawn)?;
    Ok(ends)
}

/// So many wires of a cube, drawn by this seed.
fn drawn_wires(alloc: Global, n: u8, count: u16, seed: u64) -> Result<Vec<WireEnd>, NoMemory>
    requires dimension { n ≤ 12 }
    requires count { count ≤ most_wires n }
    ensures value { IfOk result (λ ends. ends.items ≡ drawn_wires n count seed) }
    ensures count { IfOk result (λ ends. length ends.items ≡ count) }
{
    let mut ends = Vec::new(alloc);
    for i in 0..wire_count(n) {
        push_drawn(&mut ends, n, count, seed, i)?;
    }
    Ok(ends)
}

/// Wire i comes to those that were drawn, if it is.
fn push_drawn(ends: &mut Vec<WireEnd>, n: u8, count: u16, seed: u64, i: u32) -> Result<(), NoMemory>
    requires dimension { n ≤ 12 }
    requires wire { i < most_wires n }
    requires few { length ends.old.items ≤ count }
    requires left { count + i ≤ length ends.old.items + most_wires n }
    ensures ok { OnOk result (ends.new.items ≡ with_drawn n count seed i ends.old.items) }
    ensures few { OnOk result (length ends.new.items ≤ count) }
    ensures left { OnOk result (count + i < length ends.new.items + most_wires n) }
{
    if is_drawn(n, count, seed, i, ends.len()) {
        push_end(ends, wire_end(n, i))
    } else {
        Ok(())
    }
}

/// How many wires a cube of so many dimensions has.
fn wire_count(n: u8) -> u32
    requires dimension { n ≤ 12 }
    ensures value { result ≡ most_wires n }
    ensures within { result ≤ 24576 }
{
    let chips = 1u32 << n;
    u32::from(n) * chips / 2
}

/// Whether wire i is drawn, where so many were before it.
fn is_drawn(n: u8, count: u16, seed: u64, i: u32, before: usize) -> bool
    requires dimension { n ≤ 12 }
    requires wire { i < most_wires n }
    requires before { before ≤ count }
    ensures value { result ≡ is_drawn n count seed i before }
    ensures wanted { result ≡ true → before < count }
    ensures all { most_wires n + before ≤ i + count → result ≡ true }
{
    let left = u64::from(wire_count(n) - i);
    let wanted = u64::from(count) - before as u64;
    draw(seed, FIRST_DRAW + u64::from(i)) % left < wanted
}

/// Wire i of a cube, by its lower end.
fn wire_end(n: u8, i: u32) -> WireEnd
    requires dimension { n ≤ 12 }
    requires wire { i < most_wires n }
    ensures value { result ≡ wire_end n i }
{
    let half = 1u32 << (n - 1);
    lower_end((i / half) as u16, i % half)
}

/// Wire j of those over a dimension, by its lower end.
fn lower_end(dim: u16, j: u32) -> WireEnd
    requires dimension { dim < 12 }
    requires few { j < 2048 }
    ensures value { result ≡ lower_end dim j }
{
    let step = 1u32 << dim;
    let chip = j / step * (2 * step) + j % step;
    WireEnd {
        chip: chip as u16,
        dim,
    }
}

fn push_end(ends: &mut Vec<WireEnd>, end: WireEnd) -> Result<(), NoMemory>
    ensures ok { OnOk result (ends.new.items ≡ ends.old.items ++ end ∷ []) }
{
    match ends.push(end) {
        Ok(()) => Ok(()),
        Err(_) => Err(NoMemory),
    }
}
