//! How a picture is read: its text is a PBM or a PGM, of numbers or of bytes.

ghost use Rattle.std.specs.Prelude.{◌≡◌, ◌≢◌, ◌+◌, ◌-◌, ◌*◌, ◌/◌, ◌%◌, ◌<◌, ◌≤◌, ◌==◌, Ok, Err, IfOk, IfErr, OnOk};
ghost use Rattle.std.specs.Prelude.{length, nat_lt, if◌then◌else◌, map, drop, false};
ghost use Rattle.std.specs.List.{All, position_or_len, range_with_len};
ghost use Rattle.cm_bits.specs.Text.{has_bytes};
ghost use Rattle.lab_figures.specs.Pictures.{row_bytes};
ghost use Rattle.lab_figures.specs.PictureReading.{GivesPicture, GivesDots, is_space, behind_blanks, line_of_rest};
ghost use Rattle.lab_figures.specs.PictureReading.{picture_number_at};
ghost use Rattle.lab_figures.specs.PictureReading.{number_part};
ghost use Rattle.lab_figures.specs.PictureReading.{form_in, greatest_part, sizes_part, picture_header_part, plain_dot};
ghost use Rattle.lab_figures.specs.PictureReading.{digit_at};
ghost use Rattle.lab_figures.specs.PictureReading.{plain_dots};
ghost use Rattle.lab_figures.specs.PictureReading.{raster_len, packed_dot, raw_dot, raw_dots, dots_part, first_large};
ghost use Rattle.lab_figures.specs.PictureReading.{judged, picture_in};

use crate::picture::{Form, Picture};
use cm_bits::read_number;
use std::alloc::Global;
use thiserror::Error;

/// Why a text is not the picture that is wanted. Lines are counted from 1, rows and columns from 0.
#[derive(Clone, Copy, Debug, PartialEq, Eq, Error)]
pub enum PictureFault {
    #[error("no picture: a PBM or PGM begins with P1, P2, P4 or P5; pngtopnm and others make one")]
    Magic,
    #[error("line {0}: a word that is no number")]
    NotNumber(u64),
    /// Width and height, and those that are wanted.
    #[error("{0} by {1} dots, where {2} by {3} are wanted; pamscale -xsize {2} -ysize {3} makes them")]
    Size(u64, u64, u16, u16),
    #[error("the greatest value is {0}, not 2 to 65535; pamdepth 255 makes it 255")]
    Greatest(u64),
    #[error("row {0}, column {1}: a number above the greatest value")]
    TooLarge(u64, u64),
    #[error("it ends before its last dot")]
    TooFew,
    #[error("something stands behind its last dot")]
    TooMany,
    #[error("out of memory")]
    Memory,
}

/// What stands before the dots.
#[derive(Clone, Copy)]
struct Header<'a> {
    form: Form,
    greatest: u16,
    rest: &'a [u8],
}

/// The picture of a text, which is to have this width and height.
#[tactic(auto, unfolding(crate::specs::PictureReading::picture_in))]
pub fn read_picture(
    alloc: Global,
    text: &[u8],
    width: u16,
    height: u16,
) -> Result<Picture, PictureFault>
    requires some { 0 < width }
    ensures value { IfOk result (λ picture. picture_in width height text.now ≡ Ok picture) }
    ensures count { IfOk result (λ picture. length picture.dots ≡ height * width) }
    ensures within { IfOk result (λ picture. All (λ dot. dot ≤ picture.greatest) picture.dots) }
    ensures refused { IfErr result (λ fault. fault ≢ PictureFault.Memory
        → picture_in width height text.now ≡ Err fault) }
    ensures header { (fault : PictureFault) → picture_header_part text.now width height ≡ Err fault
        → result ≡ Err fault }
{
    let header = read_header(text, width, height)?;
    let dots = read_dots(alloc, text, header, width, height)?;
    judge(&dots, header.greatest, usize::from(width))?;
    Ok(Picture::new(width, height, header.greatest, dots))
}

/// What stands before the dots, where it tells this width and height.
#[tactic(auto, unfolding(crate::specs::PictureReading::picture_header_part))]
fn read_header(text: &[u8], width: u16, height: u16) -> Result<Header<'_>, PictureFault>
    ensures value { GivesPicture (λ header. (header.form, header.greatest, header.rest.now)) result
        (picture_header_part text.now width height) }
{
    let Some((form, is_bits)) = kind_of(text) else {
        return Err(PictureFault::Magic);
    };
    let (greatest, rest) = take_sizes(text, width, height, is_bits, behind_magic(text))?;
    Ok(Header {
        form,
        greatest,
        rest,
    })
}

/// The bytes behind the first two.
fn behind_magic(text: &[u8]) -> &[u8]
    ensures value { result.now ≡ drop 2 text.now }
{
    match text {
        [_, _, rest @ ..] => rest,
        _ => &[],
    }
}

/// The greatest number of a dot behind width and height, where these are those that are wanted.
fn take_sizes<'a>(
    text: &[u8],
    width: u16,
    height: u16,
    is_bits: bool,
    bytes: &'a [u8],
) -> Result<(u16, &'a [u8]), PictureFault>
    ensures value { GivesPicture (λ read. (read.0, read.1.now)) result
        (sizes_part text.now width height is_bits bytes.now) }
{
    let (w, rest) = take_number(text, bytes)?;
    let (h, rest) = take_number(text, rest)?;
    if w == u64::from(width) && h == u64::from(height) {
        take_greatest(text, is_bits, rest)
    } else {
        Err(PictureFault::Size(w, h, width, height))
    }
}

/// What a picture is by its first two bytes: its form, and whether its dots have one bit.
fn kind_of(text: &[u8]) -> Option<(Form, bool)>
    ensures value { result ≡ form_in text.now }
{
    match text {
        [b'P', b'1', ..] => Some((Form::Plain, true)),
        [b'P', b'2', ..] => Some((Form::Plain, false)),
        [b'P', b'4', ..] => Some((Form::Raw, true)),
        [b'P', b'5', ..] => Some((Form::Raw, false)),
        _ => None,
    }
}

/// The greatest number of a dot.
fn take_greatest<'a>(
    text: &[u8],
    is_bits: bool,
    bytes: &'a [u8],
) -> Result<(u16, &'a [u8]), PictureFault>
    ensures value { GivesPicture (λ read. (read.0, read.1.now)) result (greatest_part text.now is_bits bytes.now) }
{
    if is_bits {
        return Ok((1, bytes));
    }
    let (greatest, rest) = take_number(text, bytes)?;
    if greatest > 1 && greatest < 65536 {
        Ok((greatest as u16, rest))
    } else {
        Err(PictureFault::Greatest(greatest))
    }
}

/// The number whose word comes first.
fn take_number<'a>(text: &[u8], bytes: &'a [u8]) -> Result<(u64, &'a [u8]), PictureFault>
    ensures value { GivesPicture (λ read. (read.0, read.1.now)) result (number_part text.now bytes.now) }
{
    number_at(text, behind_blanks(bytes))
}

/// The number whose word stands here.
fn number_at<'a>(text: &[u8], rest: &'a [u8]) -> Result<(u64, &'a [u8]), PictureFault>
    ensures value { GivesPicture (λ read. (read.0, read.1.now)) result (picture_number_at text.now rest.now) }
{
    let end = word_len(rest);
    match read_number(&rest[..end]) {
        Some(number) => Ok((number, &rest[end..])),
        None => Err(PictureFault::NotNumber(line_of_rest(text, rest))),
    }
}

/// The place of the first space, or the length.
fn word_len(bytes: &[u8]) -> usize
    ensures value { result ≡ position_or_len is_space bytes.now }
    ensures within { result ≤ length bytes.now }
{
    for (i, byte) in bytes.iter().enumerate() {
        if is_space(*byte) {
            return i;
        }
    }
    bytes.len()
}

fn is_space(byte: u8) -> bool
    ensures value { result ≡ is_space byte }
{
    8 < byte && byte < 14 || byte == b' '
}

/// The bytes behind spaces and comments.
fn behind_blanks(bytes: &[u8]) -> &[u8]
    ensures value { result.now ≡ behind_blanks false bytes.now }
{
    let mut in_comment = false;
    for (i, byte) in bytes.iter().enumerate() {
        if in_comment {
            in_comment = *byte != b'\n';
        } else if *byte == b'#' {
            in_comment = true;
        } else if !is_space(*byte) {
            return &bytes[i..];
        }
    }
    &[]
}

/// The line of a text in which its last bytes begin.
#[tactic(auto, unfolding(crate::specs::PictureReading::line_of_rest))]
fn line_of_rest(text: &[u8], rest: &[u8]) -> u64
    ensures value { result ≡ line_of_rest text.now rest.now }
{
    let before = &text[..text.len().saturating_sub(rest.len())];
    1 + before.iter().filter(|byte| **byte == b'\n').count() as u64
}

/// The dots behind a header.
fn read_dots(
    alloc: Global,
    text: &[u8],
    header: Header<'_>,
    width: u16,
    height: u16,
) -> Result<Vec<u64>, PictureFault>
    ensures value { GivesDots (λ dots. dots.items) result
        (dots_part header.entry.form text.now header.entry.greatest width height header.entry.rest.now) }
    ensures count { IfOk result (λ dots. length dots.items ≡ height * width) }
{
    match header.form {
        Form::Plain => {
            let count = usize::from(height) * usize::from(width);
            read_plain(alloc, text, header.greatest, count, header.rest)
        }
        Form::Raw => read_raw(alloc, header.greatest, width, height, header.rest),
    }
}

/// So many dots as numbers.
fn read_plain(
    alloc: Global,
    text: &[u8],
    greatest: u16,
    count: usize,
    bytes: &[u8],
) -> Result<Vec<u64>, PictureFault>
    ensures value { GivesDots (λ dots. dots.items) result (plain_dots text.now greatest count bytes.now) }
    ensures count { IfOk result (λ dots. length dots.items ≡ count) }
{
    let Ok(mut dots) = Vec::with_capacity(alloc, count) else {
        return Err(PictureFault::Memory);
    };
    let mut rest = bytes;
    for i in 0..count {
        let (dot, after) = match take_dot(text, greatest, rest) {
            Ok(read) => read,
            Err(fault) => return Err(fault),
        };
        let Ok(()) = dots.push(dot) else {
            return Err(PictureFault::Memory);
        };
        rest = after;
    }
    if has_more(rest) {
        Err(PictureFault::TooMany)
    } else {
        Ok(dots)
    }
}

/// Whether more stands there than spaces and comments.
fn has_more(bytes: &[u8]) -> bool
    ensures value { result ≡ has_bytes (behind_blanks false bytes.now) }
{
    !behind_blanks(bytes).is_empty()
}

/// The dot that comes first.
fn take_dot<'a>(
    text: &[u8],
    greatest: u16,
    bytes: &'a [u8],
) -> Result<(u64, &'a [u8]), PictureFault>
    ensures value { GivesPicture (λ read. (read.0, read.1.now)) result (plain_dot text.now greatest bytes.now) }
{
    let rest = behind_blanks(bytes);
    if rest.is_empty() {
        Err(PictureFault::TooFew)
    } else if greatest == 1 {
        digit_at(text, rest)
    } else {
        number_at(text, rest)
    }
}

/// The digit 0 or 1 that stands here.
fn digit_at<'a>(text: &[u8], rest: &'a [u8]) -> Result<(u64, &'a [u8]), PictureFault>
    ensures value { GivesPicture (λ read. (read.0, read.1.now)) result (digit_at text.now rest.now) }
{
    match rest {
        [b'0', after @ ..] => Ok((0, after)),
        [b'1', after @ ..] => Ok((1, after)),
        _ => Err(PictureFault::NotNumber(line_of_rest(text, rest))),
    }
}

/// The dots as bytes, which begin behind one space.
#[tactic(auto, unfolding(crate::specs::PictureReading::raw_dots))]
fn read_raw(
    alloc: Global,
    greatest: u16,
    width: u16,
    height: u16,
    bytes: &[u8],
) -> Result<Vec<u64>, PictureFault>
    ensures value { GivesDots (λ dots. dots.items) result (raw_dots greatest width height bytes.now) }
    ensures count { IfOk result (λ dots. length dots.items ≡ height * width) }
{
    let raster = match bytes {
        [space, raster @ ..] if is_space(*space) => raster,
        _ => return Err(PictureFault::TooFew),
    };
    let wanted = raster_len(greatest, width, height);
    if raster.len() < wanted {
        return Err(PictureFault::TooFew);
    }
    if raster.len() > wanted {
        return Err(PictureFault::TooMany);
    }
    dots_of(alloc, raster, greatest, width, height)
}

/// How many bytes the dots have.
fn raster_len(greatest: u16, width: u16, height: u16) -> usize
    ensures value { result ≡ raster_len greatest width height }
{
    let dots = usize::from(height) * usize::from(width);
    if greatest == 1 {
        usize::from(height) * usize::from(width).div_ceil(8)
    } else if greatest < 256 {
        dots
    } else {
        2 * dots
    }
}

/// The dots of as many bytes as they have.
fn dots_of(
    alloc: Global,
    raster: &[u8],
    greatest: u16,
    width: u16,
    height: u16,
) -> Result<Vec<u64>, PictureFault>
    requires raster { length raster.now ≡ raster_len greatest width height }
    ensures value { IfOk result (λ dots.
        dots.items ≡ map (raw_dot raster.now greatest width) (range_with_len 0 (height * width))) }
    ensures count { IfOk result (λ dots. length dots.items ≡ height * width) }
    ensures memory { IfErr result (λ fault. fault ≡ PictureFault.Memory) }
{
    let count = usize::from(height) * usize::from(width);
    let Ok(mut dots) = Vec::with_capacity(alloc, count) else {
        return Err(PictureFault::Memory);
    };
    for i in 0..count {
        let dot = raw_dot(raster, greatest, width, height, i);
        let Ok(()) = dots.push(dot) else {
            return Err(PictureFault::Memory);
        };
    }
    Ok(dots)
}

/// The dot of a number.
fn raw_dot(raster: &[u8], greatest: u16, width: u16, height: u16, i: usize) -> u64
    requires dot { i < height * width }
    requires raster { length raster.now ≡ raster_len greatest width height }
    ensures value { result ≡ raw_dot raster.now greatest width i }
{
    if greatest == 1 {
        let width = usize::from(width);
        packed_dot(raster, width, usize::from(height), i / width, i % width)
    } else if greatest < 256 {
        u64::from(raster[i])
    } else {
        256 * u64::from(raster[2 * i]) + u64::from(raster[2 * i + 1])
    }
}

/// The dot in a row and a column where eight stand in a byte.
fn packed_dot(raster: &[u8], width: usize, height: usize, y: usize, x: usize) -> u64
    requires row { y < height }
    requires column { x < width }
    requires narrow { width < 65536 }
    requires raster { length raster.now ≡ height * row_bytes width }
    ensures value { result ≡ packed_dot raster.now width y x }
{
    let byte = raster[y * width.div_ceil(8) + x / 8];
    u64::from(byte >> (7 - x % 8) & 1)
}

/// Whether no dot has a number above the greatest.
fn judge(dots: &[u64], greatest: u16, width: usize) -> Result<(), PictureFault>
    requires some { 0 < width }
    ensures ok { OnOk result (judged greatest width dots.now ≡ Ok dots.now) }
    ensures within { OnOk result (All (λ dot. dot ≤ greatest) dots.now) }
    ensures refused { IfErr result (λ fault. judged greatest width dots.now ≡ Err fault) }
{
    for (i, dot) in dots.iter().enumerate() {
        if *dot > u64::from(greatest) {
            return Err(PictureFault::TooLarge((i / width) as u64, (i % width) as u64));
        }
    }
    Ok(())
}
