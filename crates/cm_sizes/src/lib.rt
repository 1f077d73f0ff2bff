//! Images of machines of the sizes that the programs have: opened as machines of any sizes, and written.
#![tactic(auto)]

mod images;
mod laws;
mod opening;

pub use images::image_of;
pub use laws::images_are_short_enough;
pub use opening::{IMAGE_LIMIT, OpenFault, OpenSourceFault, open_image, open_image_source};
