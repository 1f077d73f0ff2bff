//! Tests of machines that are cut into blocks, and of both kinds of workers: those that are joined at each round, and
//! those that run on; it has no code of its own.
#![tactic(auto)]

#[cfg(test)]
mod choices;
#[cfg(test)]
mod copies;
#[cfg(test)]
mod gates;
#[cfg(test)]
mod growths;
#[cfg(test)]
mod growths_of_blocks;
#[cfg(test)]
mod letters;
#[cfg(test)]
mod logs;
#[cfg(test)]
mod meeting;
#[cfg(test)]
mod program;
#[cfg(test)]
mod refused;
#[cfg(test)]
mod rounds_of_runs;
#[cfg(test)]
mod rows;
#[cfg(test)]
mod runners;
#[cfg(test)]
mod shares;
