//! Tests of what crosses crates; it has no code of its own.
#![tactic(auto)]

#[cfg(test)]
mod accounts;
#[cfg(test)]
mod array;
#[cfg(test)]
mod beside;
#[cfg(test)]
mod both;
#[cfg(test)]
mod building;
#[cfg(test)]
mod faults;
#[cfg(test)]
mod growths;
#[cfg(test)]
mod machines;
#[cfg(test)]
mod nodes;
#[cfg(test)]
mod plain;
#[cfg(test)]
mod router;
#[cfg(test)]
mod scenario;
#[cfg(test)]
mod scenarios;
#[cfg(test)]
mod steps;
