//! How a picture is shown: larger, and by the greatest number that it has.

ghost use Rattle.std.specs.Prelude.{◌≡◌, ◌+◌, ◌*◌, ◌<◌, ◌≤◌, ◌++◌, max, length, IfOk, OnOk};
ghost use Rattle.std.specs.List.{flat_map, range_with_len};
ghost use Rattle.lab_figures.specs.Pictures.{dot_at};
ghost use Rattle.lab_figures.specs.Looks.{greatest_dot, level_of, levelled, wider_row, enlarged, look_bytes};

use crate::formats::{Format, write_in};
use crate::picture::Picture;
use cm_bits::NoMemory;
use std::alloc::Global;

/// How a picture is shown.
#[derive(Clone, Copy, Debug, PartialEq, Eq)]
pub struct Look {
    pub format: Format,
    /// Each dot becomes so many by so many; 0 counts as 1.
    pub scale: u16,
    /// Whether the greatest number is the greatest that a dot has.
    pub is_by_dots: bool,
}

/// A picture as it is looked at.
pub fn write_look(alloc: Global, picture: Picture, look: Look) -> Result<Vec<u8>, NoMemory>
    ensures value { IfOk result (λ bytes. bytes.items ≡ look_bytes look picture) }
{
    let levelled = levelled(look.is_by_dots, picture);
    let enlarged = enlarged(alloc, look.scale.max(1), levelled)?;
    write_in(alloc, &enlarged, look.format)
}

/// The picture by the greatest number of its dots, or by its own.
fn levelled(is_by_dots: bool, picture: Picture) -> Picture
    ensures value { result ≡ levelled is_by_dots picture }
{
    if !is_by_dots {
        return picture;
    }
    let greatest = level_of(picture.greatest(), picture.dots());
    picture.with_greatest(greatest)
}

/// The greatest number of a dot: of a picture that is none of bits 2 at least.
fn level_of(greatest: u16, dots: &[u64]) -> u16
    ensures value { result ≡ level_of greatest dots.now }
{
    if greatest == 1 {
        return 1;
    }
    greatest_dot(dots).max(2).min(u64::from(greatest)) as u16
}

fn greatest_dot(dots: &[u64]) -> u64
    ensures value { result ≡ greatest_dot dots.now }
{
    let mut most = 0;
    for dot in dots {
        most = most.max(*dot);
    }
    most
}

/// The picture, so many times as large.
fn enlarged(alloc: Global, k: u16, picture: Picture) -> Result<Picture, NoMemory>
    ensures value { IfOk result (λ made. made ≡ enlarged k picture) }
{
    let width = u32::from(k) * u32::from(picture.width());
    let height = u32::from(k) * u32::from(picture.height());
    if width > 65535 || height > 65535 {
        return Ok(picture);
    }
    let dots = repeated(alloc, usize::from(k), &picture)?;
    Ok(Picture::new(width as u16, height as u16, picture.greatest(), dots))
}

/// Each row so many times, and in it each dot.
fn repeated(alloc: Global, k: usize, picture: &Picture) -> Result<Vec<u64>, NoMemory>
    requires wide { k * picture.now.width < 65536 }
    requires high { k * picture.now.height < 65536 }
    ensures value { IfOk result (λ dots. dots.items
        ≡ flat_map (wider_row k picture.now) (range_with_len 0 (k * picture.now.height))) }
    ensures count { IfOk result (λ dots. length dots.items
        ≡ k * picture.now.height * (k * picture.now.width)) }
{
    let mut dots = Vec::new(alloc);
    for y in 0..k * usize::from(picture.height()) {
        push_wider_row(&mut dots, k, picture, y)?;
    }
    Ok(dots)
}

/// A row, each dot of which comes so many times.
fn push_wider_row(
    dots: &mut Vec<u64>,
    k: usize,
    picture: &Picture,
    y: usize,
) -> Result<(), NoMemory>
    requires wide { k * picture.now.width < 65536 }
    requires row { y < k * picture.now.height }
    ensures ok { OnOk result (dots.new.items ≡ dots.old.items ++ wider_row k picture.now y) }
    ensures count { OnOk result (length dots.new.items ≡ length dots.old.items + k * picture.now.width) }
{
    for x in 0..k * usize::from(picture.width()) {
        let Ok(()) = dots.push(dot_at(picture, y / k, x / k)) else {
            return Err(NoMemory);
        };
    }
    Ok(())
}

/// The dot in a row and a column.
fn dot_at(picture: &Picture, y: usize, x: usize) -> u64
    requires row { y < picture.now.height }
    requires column { x < picture.now.width }
    ensures value { result ≡ dot_at picture.now y x }
{
    picture.dots()[y * usize::from(picture.width()) + x]
}
