//! Loads of the router: messages that are drawn, offered petit cycle after petit cycle, and what it does with them.
#![tactic(auto)]

mod asking;
mod cycles;
mod figures;
mod latencies;
mod laws;
mod logs;
mod offers;
mod quiet;
mod sources;
mod spreads;
mod tables;
mod telling;
mod trials;

pub use figures::{Figures, Period, measure};
pub use lab_counts::{ChipCrossings, chip_table};
pub use latencies::{Latencies, latency_table};
pub use laws::{
    chips_and_dimensions_agree, faults_come_in_order, latencies_are_told_so, loads_are_told_so,
    messages_are_delivered_or_stand, patterns_aim_so, spreads_are_told_so,
};
pub use offers::{Load, Pattern};
pub use spreads::{Column, Spread, Spreads};
pub use tables::{crossing_table, dimension_table, spread_table, table};
pub use trials::{LoadFault, LoadTable, Trial};
