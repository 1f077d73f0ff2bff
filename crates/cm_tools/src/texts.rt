//! The text that tells a chip.

ghost use Rattle.std.specs.Prelude.{◌≡◌, ◌<◌, ◌++◌, OnOk, IfOk};
ghost use Rattle.cm_tools.specs.ChipText.{plane_text, plane_line, flag_plane, memory_plane, flag_line};
ghost use Rattle.cm_language.specs.Listing.{hex_digit};
ghost use Rattle.cm_tools.specs.ChipText.{memory_line, lines_below, chip_session_text};

use cm_bits::{ADDRESSES, Addr, FLAGS, FlagNo, Plane};
use cm_element::ChipView;
use itoa::Buffer;
use std::alloc::{AllocError, Global};

/// The flag planes, then each plane of memory that is not 0, addresses rising.
pub fn chip_text(alloc: Global, chip: &ChipView<'_>) -> Result<Vec<u8>, AllocError>
    ensures value { IfOk result (λ text. text.items ≡ chip_session_text chip.now) }
{
    let mut text = Vec::new(alloc);
    push_flags(&mut text, chip)?;
    push_memory(&mut text, chip)?;
    Ok(text)
}

fn push_flags(text: &mut Vec<u8>, chip: &ChipView<'_>) -> Result<(), AllocError>
    ensures ok { OnOk result (text.new.items ≡ text.old.items ++ lines_below 16 (flag_line chip.now)) }
{
    for index in 0..FLAGS {
        push_flag_line(text, chip, index)?;
    }
    Ok(())
}

fn push_memory(text: &mut Vec<u8>, chip: &ChipView<'_>) -> Result<(), AllocError>
    ensures ok { OnOk result (text.new.items ≡ text.old.items ++ lines_below 4096 (memory_line chip.now)) }
{
    for index in 0..ADDRESSES {
        push_memory_line(text, chip, index)?;
    }
    Ok(())
}

fn push_flag_line(text: &mut Vec<u8>, chip: &ChipView<'_>, index: u8) -> Result<(), AllocError>
    requires { index < 16 }
    ensures ok { OnOk result (text.new.items ≡ text.old.items ++ flag_line chip.now index) }
{
    push_line(text, b"flag ", u16::from(index), flag_plane(chip, index))
}

fn push_memory_line(text: &mut Vec<u8>, chip: &ChipView<'_>, index: u16) -> Result<(), AllocError>
    requires { index < 4096 }
    ensures ok { OnOk result (text.new.items ≡ text.old.items ++ memory_line chip.now index) }
{
    let plane = memory_plane(chip, index);
    if plane == 0 {
        return Ok(());
    }
    push_line(text, b"plane ", index, plane)
}

fn flag_plane(chip: &ChipView<'_>, index: u8) -> Plane
    requires { index < 16 }
    ensures value { result ≡ flag_plane chip.now index }
{
    let number = FlagNo::new(index).unwrap();
    chip.flag_plane(number)
}

fn memory_plane(chip: &ChipView<'_>, index: u16) -> Plane
    requires { index < 4096 }
    ensures value { result ≡ memory_plane chip.now index }
{
    let at = Addr::new(index).unwrap();
    chip.plane(at)
}

fn push_line(text: &mut Vec<u8>, name: &[u8], number: u16, plane: Plane) -> Result<(), AllocError>
    ensures ok { OnOk result (text.new.items ≡ text.old.items ++ plane_line name.now number plane) }
{
    let mut digits = Buffer::new();
    text.extend_from_slice(name)?;
    text.extend_from_slice(digits.format(number).as_bytes())?;
    text.push(b' ')?;
    text.extend_from_slice(&plane_digits(plane))?;
    text.push(b'\n')?;
    Ok(())
}

/// Four hexadecimal digits, the highest first.
fn plane_digits(plane: Plane) -> [u8; 4]
    ensures value { result ≡ plane_text plane }
{
    [
        hex_digit(plane / 4096 % 16),
        hex_digit(plane / 256 % 16),
        hex_digit(plane / 16 % 16),
        hex_digit(plane % 16),
    ]
}

/// A hexadecimal digit, lower case.
fn hex_digit(digit: u16) -> u8
    requires { digit < 16 }
    ensures value { result ≡ hex_digit digit }
{
    if digit < 10 {
        b'0' + digit as u8
    } else {
        b'a' + (digit as u8 - 10)
    }
}
