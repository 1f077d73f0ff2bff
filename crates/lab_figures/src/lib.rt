//! Numbers and pictures as texts, and pictures as PNG.
#![tactic(auto)]

mod checksums;
mod formats;
mod laws;
mod looks;
mod numbers;
mod palettes;
mod picture;
mod picture_reading;
mod png;

pub use formats::{Format, write_in};
pub use laws::{colours_are_so, pictures_are_looked_at_so};
pub use looks::{Look, write_look};
pub use numbers::{NumbersFault, read_numbers, write_numbers};
pub use palettes::Palette;
pub use picture::{Form, Picture, write_picture};
pub use picture_reading::{PictureFault, read_picture};
pub use png::write_png;
