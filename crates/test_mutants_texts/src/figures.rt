//! Calls of lab_figures.

ghost use Rattle.std.specs.Prelude.{◌≡◌, ◌≢◌, ◌*◌, ◌<◌, ◌≤◌, Ok, Err, IfOk, IfErr, length};
ghost use Rattle.std.specs.List.{All};
ghost use Rattle.lab_figures.specs.Numbers.{numbers_in};
ghost use Rattle.lab_figures.specs.PictureReading.{picture_header_part, picture_in};
ghost use Rattle.lab_figures.specs.Pictures.{picture_text};
ghost use Rattle.lab_figures.specs.Png.{png_of};

use cm_bits::NoMemory;
use lab_figures::{Form, NumbersFault, Picture, PictureFault};
use std::alloc::Global;

/// What `lab_figures::read_numbers` promises, word for word.
pub fn read_numbers(
    alloc: Global,
    text: &[u8],
    len: u16,
    count: usize,
) -> Result<Vec<u64>, NumbersFault>
    ensures value { IfOk result (λ numbers. numbers_in len count text.now ≡ Ok numbers.items) }
    ensures count { IfOk result (λ numbers. length numbers.items ≡ count) }
    ensures refused { IfErr result (λ fault. fault ≢ NumbersFault.Memory → numbers_in len count text.now ≡ Err fault) }
{
    lab_figures::read_numbers(alloc, text, len, count)
}

/// What `lab_figures::read_picture` promises, word for word.
pub fn read_picture(
    alloc: Global,
    text: &[u8],
    width: u16,
    height: u16,
) -> Result<Picture, PictureFault>
    requires some { 0 < width }
    ensures value { IfOk result (λ picture. picture_in width height text.now ≡ Ok picture) }
    ensures count { IfOk result (λ picture. length picture.dots ≡ height * width) }
    ensures within { IfOk result (λ picture. All (λ dot. dot ≤ picture.greatest) picture.dots) }
    ensures refused { IfErr result (λ fault. fault ≢ PictureFault.Memory
        → picture_in width height text.now ≡ Err fault) }
    ensures header { (fault : PictureFault) → picture_header_part text.now width height ≡ Err fault
        → result ≡ Err fault }
{
    lab_figures::read_picture(alloc, text, width, height)
}

/// What `lab_figures::write_picture` promises, word for word.
pub fn write_picture(alloc: Global, picture: &Picture, form: Form) -> Result<Vec<u8>, NoMemory>
    ensures value { IfOk result (λ text. text.items ≡ picture_text form picture.now) }
{
    lab_figures::write_picture(alloc, picture, form)
}

/// What `lab_figures::write_png` promises, word for word.
pub fn write_png(alloc: Global, picture: &Picture) -> Result<Vec<u8>, NoMemory>
    ensures value { IfOk result (λ text. text.items ≡ png_of picture.now) }
{
    match lab_figures::write_png(alloc, picture) {
        Ok(text) => Ok(text),
        Err(fault) => Err(fault),
    }
}
