//! The tickets of a run of chips, slot by slot over tiles of 64 chips, so that a dimension is two passes.
#![tactic(auto)]

mod across;
mod arrivals;
mod choice;
mod departing;
pub mod laws;
mod moving;
mod order;
mod passes;
mod rows;
mod shape;
mod ticket;
mod ticket_queues;
mod tile;
mod tiles;

pub use arrivals::Arrivals;
pub use shape::Shape;
pub use ticket::Ticket;
pub use ticket_queues::TicketQueues;
