//! Tests of exchanges that are stepped by hand; it has no code of its own.
#![tactic(auto)]

#[cfg(test)]
mod drawn;
#[cfg(test)]
mod growths;
#[cfg(test)]
mod lists;
#[cfg(test)]
mod machines;
#[cfg(test)]
mod order;
#[cfg(test)]
mod orders;
#[cfg(test)]
mod plain;
#[cfg(test)]
mod refused;
#[cfg(test)]
mod trial;
