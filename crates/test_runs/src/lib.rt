//! Tests of runs, from an image, a program and commands to answers and an image; it has no code of its own.
#![tactic(auto)]

#[cfg(test)]
mod files;
#[cfg(test)]
mod growths;
#[cfg(test)]
mod limits;
#[cfg(test)]
mod performed;
#[cfg(test)]
mod runs;
#[cfg(test)]
mod shared;
