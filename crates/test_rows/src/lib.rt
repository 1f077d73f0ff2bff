//! Tests of rows of planes, of a run of chips beside single chips and beside a plain machine, of tickets beside plain
//! lists, of runs that begin at any chip of a machine, of events in one row, and of the grid's row;
//! it has no code of its own.
#![tactic(auto)]

#[cfg(test)]
mod bands;
#[cfg(test)]
mod grids;
#[cfg(test)]
mod laid;
#[cfg(test)]
mod nodes;
#[cfg(test)]
mod plain;
#[cfg(test)]
mod queues;
#[cfg(test)]
mod routes;
#[cfg(test)]
mod runs;
#[cfg(test)]
mod told;
#[cfg(test)]
mod wide;
