//! Tests of one chip and of what it stands on, up to sessions from bytes to bytes; it has no code of its own.
#![tactic(auto)]

#[cfg(test)]
mod cases;
#[cfg(test)]
mod chips;
#[cfg(test)]
mod faults;
#[cfg(test)]
mod fields;
#[cfg(test)]
mod grids;
#[cfg(test)]
mod growths;
#[cfg(test)]
mod instructions;
#[cfg(test)]
mod numbers;
#[cfg(test)]
mod planes;
#[cfg(test)]
mod scripted;
#[cfg(test)]
mod sinks;
#[cfg(test)]
mod sources;
#[cfg(test)]
mod texts;
#[cfg(test)]
mod wide_fields;
#[cfg(test)]
mod wires;
