//! Calls of lab_fresh.

ghost use Rattle.std.specs.Prelude.{◌≡◌, ◌≢◌, ◌+◌, Ok, Err, IfOk, IfErr, length};
ghost use Rattle.lab_fresh.specs.Drawn.{cut_wires_of};
ghost use Rattle.lab_fresh.specs.Fresh.{fresh_of};

use lab_fresh::{FreshFault, WireEnd};
use std::alloc::Global;

/// What `lab_fresh::fresh` promises, word for word.
pub fn fresh(
    alloc: Global,
    n: u16,
    room: u16,
    cuts: &[WireEnd],
    rule: u16,
) -> Result<Vec<u8>, FreshFault>
    ensures value { IfOk result (λ text. fresh_of n room cuts.now rule ≡ Ok text.items) }
    ensures refused { IfErr result (λ fault. fault ≢ FreshFault.Memory → fresh_of n room cuts.now rule ≡ Err fault) }
{
    lab_fresh::fresh(alloc, n, room, cuts, rule)
}

/// What `lab_fresh::cut_wires` promises, word for word.
pub fn cut_wires(
    alloc: Global,
    n: u16,
    named: &[WireEnd],
    count: u16,
    seed: u64,
) -> Result<Vec<WireEnd>, FreshFault>
    ensures value { IfOk result (λ ends. cut_wires_of n named.now count seed ≡ Ok ends.items) }
    ensures refused { IfErr result (λ fault. fault ≢ FreshFault.Memory
        → cut_wires_of n named.now count seed ≡ Err fault) }
    ensures count { IfOk result (λ ends. length ends.items ≡ length named.now + count) }
{
    lab_fresh::cut_wires(alloc, n, named, count, seed)
}
