//! The machine of 2^N chips with their routers, all of which step at once, and the runner of one thread.
#![tactic(auto)]

mod any_machine;
mod builder;
mod chip_state;
mod finding;
mod instructions;
mod limits;
mod log_laws;
mod log_view;
mod machine;
mod part;
mod poke_laws;
mod put;
mod routing;
mod row;
mod runner;
mod saved_logs;
mod sizes;
mod stepping;
mod tags;

pub use any_machine::AnyMachine;
pub use builder::{BuildFault, Builder, BuilderOf};
pub use limits::{LAST_CLOCK, LONGEST, MOST_CYCLES, MOST_DIMENSIONS, MOST_ROOM};
pub use log_laws::{few_events_are_told, logs_are_never_read};
pub use log_view::Log;
pub use machine::{Machine, MachineFault, MachineOf};
pub use part::Part;
pub use poke_laws::{flag_pokes_keep_machines, pokes_keep_machines};
pub use put::IntoPart;
pub use runner::{Plain, RunFault, Runner, check_stretch, wants_change_their_count};
pub use saved_logs::{InTurn, LogAppender, SavedLogs, append};
pub use sizes::{Fixed, Sizes};
pub use stepping::step;
