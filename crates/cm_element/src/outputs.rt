//! What the sixteen processors of a chip compute of one instruction.

use cm_bits::Plane;

/// The two outputs of an instruction in each processor of a chip, and where its condition holds.
#[derive(Clone, Copy, PartialEq, Eq)]
pub struct Outputs {
    pub mem: Plane,
    pub flag: Plane,
    pub holds: Plane,
}
