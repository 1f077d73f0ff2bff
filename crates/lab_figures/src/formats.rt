//! In which formats pictures are written.

ghost use Rattle.std.specs.Prelude.{◌≡◌, ◌*◌, ◌<◌, length, IfOk};
ghost use Rattle.lab_figures.specs.Formats.{picture_bytes};

use crate::palettes::{Palette, write_colours};
use crate::picture::{Form, Picture, write_picture};
use crate::png::write_png;
use cm_bits::NoMemory;
use std::alloc::Global;

/// What the file of a picture is.
#[derive(Clone, Copy, Debug, PartialEq, Eq)]
pub enum Format {
    /// A PBM or a PGM.
    Netpbm(Form),
    /// Grey.
    Png,
    /// A PNG in colours.
    Colours(Palette),
}

/// A picture in a format.
pub fn write_in(alloc: Global, picture: &Picture, format: Format) -> Result<Vec<u8>, NoMemory>
    ensures value { IfOk result (λ bytes. bytes.items ≡ picture_bytes format picture.now) }
{
    match format {
        Format::Netpbm(form) => write_picture(alloc, picture, form),
        Format::Png => write_png(alloc, picture),
        Format::Colours(palette) => write_colours(alloc, picture, palette),
    }
}
