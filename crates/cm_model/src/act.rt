//! Acts: what the machine is told to do, one after another.

use cm_bits::{Addr, Dir, FlagNo};

/// One instruction, which every processor gets (Hillis 1985, the microcontroller's instruction).
///
/// In each processor A is memory bit `a`, B memory bit `b` and F flag `read`. Each output is the
/// entry `4 * A + 2 * B + F` of its truth table, where entry 0 is the lowest bit of the table's byte.
/// Where flag `cond` equals `sense`, the output of `mem_table` goes to memory bit `a`, and that of
/// `flag_table` to flag `write`, over NEWS from the direction that `dir` leads away from.
#[derive(Clone, Copy, PartialEq, Eq)]
pub struct Nano {
    pub a: Addr,
    pub b: Addr,
    pub read: FlagNo,
    pub write: FlagNo,
    pub cond: FlagNo,
    pub sense: bool,
    pub mem_table: u8,
    pub flag_table: u8,
    pub dir: Dir,
}

/// What the machine does at one place of a program.
#[derive(Clone, Copy, PartialEq, Eq)]
pub enum Act {
    /// One instruction in every processor.
    Nano(Nano),
    /// A look at the global wire, which changes nothing.
    Sense,
    /// One petit cycle of the router.
    Cycle,
}
