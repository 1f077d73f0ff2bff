//! The sizes of a machine, which contracts alone know: code reads them from the machine.

ghost use Rattle.std.specs.Prelude.{ℕ};

use std::marker::Brand;

/// The sizes of a machine: it has 2^`n` chips, whose routers have room for `cap` messages each. Only contracts can read
/// them, so machines of all sizes share their code.
pub trait Sizes {
    ghost n: { ℕ };

    ghost cap: { ℕ };
}

/// Sizes that a type tells.
pub struct Fixed<const N: usize, const CAP: usize>;

impl<const N: usize, const CAP: usize> Sizes for Fixed<N, CAP> {
    ghost n = { N };

    ghost cap = { CAP };
}

// Sizes that are known at run time alone: the proof of a call picks them.
impl Sizes for Brand {
    ghost n = { 0 };

    ghost cap = { 0 };
}
