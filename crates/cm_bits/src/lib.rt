//! Numbers, planes and directions, memory fields, the ends from which bytes come and to which they
//! go, and the lines, words and numbers of texts.
#![tactic(auto)]

mod edge;
mod ends;
mod field;
mod no_memory;
mod number;
mod place;
mod plane;
mod text;

pub use edge::Edge;
pub use ends::{Failed, Sink, Source, Std, WriteFault, write_all};
pub use field::{Field, FieldFault, Meets};
pub use no_memory::NoMemory;
pub use number::{ADDRESSES, Addr, FLAGS, FlagNo, PROCESSORS, Proc};
pub use place::Place;
pub use plane::{Dir, Plane};
pub use text::{Lines, Words, read_number};
