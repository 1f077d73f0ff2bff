//! Chips: sixteen processors each, kept as one plane per memory address and one per flag, by rows over a run of them.
#![tactic(auto)]

mod chip;
mod near;
mod outputs;
mod run;
mod wide_outputs;
mod word;

pub use chip::Chip;
pub use cm_bits::NoMemory;
pub use near::NearRun;
pub use outputs::Outputs;
pub use run::{ChipView, FIELD_PITCH, PITCH, Run, ZeroFlag, takes_incoming};
pub use wide_outputs::WideOutputs;
pub use word::sixteen_bits_in;
