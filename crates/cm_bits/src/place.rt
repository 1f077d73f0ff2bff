//! Places: a processor of a chip of the whole machine.

use crate::number::Proc;

/// A processor of the whole machine: the number of its chip, 0 to 4095, and its own number there.
#[derive(Clone, Copy, Debug, PartialEq, Eq)]
pub struct Place {
    pub chip: u16,
    pub proc: Proc,
}
