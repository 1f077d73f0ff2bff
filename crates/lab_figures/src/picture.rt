//! Pictures, and how they are written.

ghost use Rattle.std.specs.Prelude.{◌≡◌, ◌+◌, ◌*◌, ◌<◌, ◌≤◌, ◌++◌, length, nat_lt, min, IfOk, OnOk};
ghost use Rattle.lab_figures.specs.Pictures.{digit_of, header_text, greatest_text, numbers_in_line};
ghost use Rattle.lab_figures.specs.Pictures.{dot_bytes, row_bytes};
ghost use Rattle.lab_figures.specs.Pictures.{bit_at, eight_dots, packed_text, bytes_text, raster_text, picture_text};
ghost use Rattle.lab_figures.specs.Numbers.{numbers_text};

use crate::numbers::write_numbers;
use cm_bits::NoMemory;
use lab_digits::push_number;
use std::alloc::Global;
use std::marker::Model;

/// How the dots of a picture are written.
#[derive(Clone, Copy, Debug, PartialEq, Eq)]
pub enum Form {
    /// As bytes: P4 or P5.
    Raw,
    /// As numbers of a text: P1 or P2.
    Plain,
}

/// Dots in rows, the upper row first, each from the left: as many as the height times the width.
#[derive(Drop)]
pub struct Picture {
    width: u16,
    height: u16,
    greatest: u16,
    dots: Vec<u64>,
}

impl Model for Picture {
    ghost use Rattle.std.specs.Prelude.{◌≡◌, ◌*◌, length};
    ghost use Rattle.lab_figures.specs.Pictures.{Dots};

    ghost Value = { Dots };

    ghost view = { λ picture. record {
      width = picture.width;
      height = picture.height;
      greatest = picture.greatest;
      dots = picture.dots.items;
    } };

    ghost invariant = { λ picture. length picture.dots.items ≡ picture.height * picture.width };
}

impl Picture {
    /// The picture of these dots, of which none is to be above the greatest number.
    pub fn new(width: u16, height: u16, greatest: u16, dots: Vec<u64>) -> Picture
        requires dots { length dots.items ≡ height * width }
        ensures value { result
            ≡ record { width = width; height = height; greatest = greatest; dots = dots.items } }
    {
        Picture {
            width,
            height,
            greatest,
            dots,
        }
    }

    /// How many dots stand in a row.
    pub fn width(&self) -> u16
        ensures value { result ≡ self.now.width }
    {
        self.width
    }

    /// How many rows it has.
    pub fn height(&self) -> u16
        ensures value { result ≡ self.now.height }
    {
        self.height
    }

    /// The greatest number that a dot may have: with 1 it is a PBM, where 1 is black; else a PGM, where 0 is.
    pub fn greatest(&self) -> u16
        ensures value { result ≡ self.now.greatest }
    {
        self.greatest
    }

    /// Its dots, row by row.
    pub fn dots(&self) -> &[u64]
        ensures value { result.now ≡ self.now.dots }
        ensures count { length result.now ≡ self.now.height * self.now.width }
    {
        &self.dots
    }

    /// The same dots by another greatest number.
    pub(crate) fn with_greatest(self, greatest: u16) -> Picture
        ensures value { result ≡ record self { greatest = greatest } }
    {
        Picture { greatest, ..self }
    }
}

/// A picture as a PBM or a PGM.
#[tactic(auto, unfolding(crate::specs::Pictures::picture_text))]
pub fn write_picture(alloc: Global, picture: &Picture, form: Form) -> Result<Vec<u8>, NoMemory>
    ensures value { IfOk result (λ text. text.items ≡ picture_text form picture.now) }
{
    let mut text = header(alloc, picture, form)?;
    match form {
        Form::Plain => push_numbers(alloc, &mut text, picture)?,
        Form::Raw => push_raw(&mut text, picture)?,
    }
    Ok(text)
}

/// The bytes before the dots.
fn header(alloc: Global, picture: &Picture, form: Form) -> Result<Vec<u8>, NoMemory>
    ensures value { IfOk result (λ text. text.items ≡ header_text form picture.now) }
{
    let mut text = Vec::new(alloc);
    text.extend_from_slice(&[b'P', digit_of(form, picture.greatest()), b'\n'])?;
    push_number(&mut text, picture.width(), b' ')?;
    push_number(&mut text, picture.height(), b'\n')?;
    if picture.greatest() != 1 {
        push_number(&mut text, picture.greatest(), b'\n')?;
    }
    Ok(text)
}

/// What stands behind the P.
fn digit_of(form: Form, greatest: u16) -> u8
    ensures value { result ≡ digit_of form greatest }
{
    match (form, greatest == 1) {
        (Form::Plain, true) => b'1',
        (Form::Plain, false) => b'2',
        (Form::Raw, true) => b'4',
        (Form::Raw, false) => b'5',
    }
}

/// The dots as numbers.
fn push_numbers(alloc: Global, text: &mut Vec<u8>, picture: &Picture) -> Result<(), NoMemory>
    ensures ok { OnOk result (text.new.items
        ≡ text.old.items ++ numbers_text (numbers_in_line picture.now) 0 picture.now.dots) }
{
    let most = if picture.greatest() == 1 { 32 } else { 8 };
    let in_line = picture.width().min(most).max(1);
    let numbers = write_numbers(alloc, picture.dots(), usize::from(in_line))?;
    text.extend_from_slice(&numbers)?;
    Ok(())
}

/// The dots as bytes.
fn push_raw(text: &mut Vec<u8>, picture: &Picture) -> Result<(), NoMemory>
    ensures ok { OnOk result (text.new.items ≡ text.old.items ++ raster_text Form.Raw picture.now) }
{
    if picture.greatest() == 1 {
        push_packed(text, picture)
    } else {
        push_bytes(text, picture)
    }
}

/// Eight dots a byte, row by row.
fn push_packed(text: &mut Vec<u8>, picture: &Picture) -> Result<(), NoMemory>
    ensures ok { OnOk result (text.new.items ≡ text.old.items ++ packed_text picture.now) }
{
    let in_row = usize::from(picture.width()).div_ceil(8);
    for b in 0..usize::from(picture.height()) * in_row {
        let byte = eight_dots(picture, b / in_row, 8 * (b % in_row));
        let Ok(()) = text.push(byte) else {
            return Err(NoMemory);
        };
    }
    Ok(())
}

/// Eight dots of a row from a column on.
pub(crate) fn eight_dots(picture: &Picture, y: usize, x: usize) -> u8
    requires row { y < picture.now.height }
    requires column { x ≤ 65536 }
    ensures value { result ≡ eight_dots picture.now y x }
{
    let bit = |k: usize| bit_at(picture, y, x + k);
    128 * bit(0)
        + 64 * bit(1)
        + 32 * bit(2)
        + 16 * bit(3)
        + 8 * bit(4)
        + 4 * bit(5)
        + 2 * bit(6)
        + bit(7)
}

/// One dot, or 0 behind the end of the row.
fn bit_at(picture: &Picture, y: usize, x: usize) -> u8
    requires row { y < picture.now.height }
    ensures value { result ≡ bit_at picture.now y x }
    ensures within { result ≤ 1 }
{
    let width = usize::from(picture.width());
    if x < width {
        (picture.dots()[y * width + x] % 2) as u8
    } else {
        0
    }
}

/// A byte or two for each dot.
fn push_bytes(text: &mut Vec<u8>, picture: &Picture) -> Result<(), NoMemory>
    ensures ok { OnOk result (text.new.items ≡ text.old.items ++ bytes_text picture.now) }
{
    for dot in picture.dots() {
        push_dot(text, *dot, picture.greatest())?;
    }
    Ok(())
}

fn push_dot(text: &mut Vec<u8>, dot: u64, greatest: u16) -> Result<(), NoMemory>
    ensures ok { OnOk result (text.new.items ≡ text.old.items ++ dot_bytes greatest dot) }
{
    let low = (dot % 256) as u8;
    if greatest < 256 {
        text.extend_from_slice(&[low])?;
    } else {
        text.extend_from_slice(&[(dot / 256 % 256) as u8, low])?;
    }
    Ok(())
}
