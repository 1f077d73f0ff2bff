//! Images of machines: reading their bytes.
#![tactic(auto)]

mod chips;
mod loads;
mod messages;
mod pieces;
mod sourced;
mod waiting_chips;

pub use cm_image_fields::shape;
pub use cm_image_format::ImageFault;
pub use loads::{load, load_of};
pub use pieces::{PIECE, SourceFault, take_rest};
pub use sourced::{load_source, shapes_go_on};
