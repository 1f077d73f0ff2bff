//! What is told of all processors and of the whole machine.

ghost use Rattle.std.specs.Prelude.{◌≡◌, ◌≤◌, ◌<◌, ◌+◌, ◌/◌, ◌%◌, ◌^◌, ◌++◌, ◌∷◌, [], OnOk, length, sum};
ghost use Rattle.cm_bits.specs.Bit.{bit, bit_number};
ghost use Rattle.cm_model.specs.Each.{tabulate};
ghost use Rattle.cm_language.specs.Listing.{hex_digit};
ghost use Rattle.cm_image_format.specs.Whole.{text_of};
ghost use Rattle.lab_data.specs.declared.order.Order.TheVariants.{Chips};
ghost use Rattle.lab_data.specs.Data.{numbers_of, flags_of};
ghost use Rattle.lab_data.specs.Pictures.{buffered, chip_rows};
ghost use Rattle.cm_model.specs.Place.{chip_columns};
ghost use Rattle.lab_front.specs.Telling.{numbers_lines, standing_count, asking, standing_counts_line, behind_byte};
ghost use Rattle.lab_front.specs.Telling.{hex_text};
ghost use Rattle.lab_front.specs.Telling.{image_lines};

use cm_array::{MachineOf, Sizes};
use cm_bits::{Field, FlagNo, NoMemory, PROCESSORS, Plane};
use cm_debug::push_number;
use cm_image_dump::dump;
use lab_data::{Order, Shown, flags, get, show, write_numbers};
use lab_digits::push_words;
use std::alloc::Global;

/// Bytes of an image in a line.
const HEX_BYTES: usize = 32;

/// The number that each processor has in a field.
pub fn push_field<S: Sizes>(
    alloc: Global,
    text: &mut Vec<u8>,
    machine: &MachineOf<S>,
    field: Field,
) -> Result<(), NoMemory>
    ensures ok { OnOk result (text.new.items ≡ text.old.items
        ++ numbers_lines (2 ^ S.n) 16 (numbers_of S.n Chips field.at field.len machine.now.machine.chips)) }
{
    let numbers = get(alloc, machine, Order::Chips, field)?;
    push_numbers(
        alloc,
        text,
        &numbers,
        usize::from(machine.chip_count()),
        usize::from(PROCESSORS),
    )
}

/// A flag of each processor.
pub fn push_flags<S: Sizes>(
    alloc: Global,
    text: &mut Vec<u8>,
    machine: &MachineOf<S>,
    number: FlagNo,
) -> Result<(), NoMemory>
    ensures ok { OnOk result (text.new.items ≡ text.old.items
        ++ numbers_lines (2 ^ S.n) 16 (flags_of S.n Chips number machine.now.machine.chips)) }
{
    let numbers = flags(alloc, machine, Order::Chips, number)?;
    push_numbers(
        alloc,
        text,
        &numbers,
        usize::from(machine.chip_count()),
        usize::from(PROCESSORS),
    )
}

/// How many messages stand at each chip.
pub fn push_buffers<S: Sizes>(
    alloc: Global,
    text: &mut Vec<u8>,
    machine: &MachineOf<S>,
) -> Result<(), NoMemory>
    ensures ok { OnOk result (text.new.items ≡ text.old.items
        ++ numbers_lines (chip_rows S.n) (chip_columns S.n) (buffered S.n machine.now.machine)) }
{
    let Ok(picture) = show(alloc, machine, Shown::Buffers) else {
        return Err(NoMemory);
    };
    let rows = usize::from(picture.height());
    let columns = usize::from(picture.width());
    push_numbers(alloc, text, picture.dots(), rows, columns)
}

/// Numbers, so many in a line, after a line that tells how many lines they are.
fn push_numbers(
    alloc: Global,
    text: &mut Vec<u8>,
    numbers: &[u64],
    lines: usize,
    width: usize,
) -> Result<(), NoMemory>
    requires some { 0 < width }
    ensures ok { OnOk result (text.new.items ≡ text.old.items ++ numbers_lines lines width numbers.now) }
{
    push_number(text, b"numbers", lines as u64)?;
    let told = write_numbers(alloc, numbers, width)?;
    text.extend_from_slice(&told)?;
    Ok(())
}

/// How many messages stand in all routers, and how many processors ask to send.
#[tactic(auto, unfolding(cm_session::specs::Answer::line))]
pub fn push_standing<S: Sizes>(text: &mut Vec<u8>, machine: &MachineOf<S>) -> Result<(), NoMemory>
    ensures ok { OnOk result (text.new.items ≡ text.old.items ++ standing_counts_line S.n machine.now.machine) }
{
    push_words(text, b"standing ")?;
    lab_digits::push_number(text, standing(machine), b' ')?;
    lab_digits::push_number(text, asking(machine), b'\n')
}

/// How many messages stand in all routers.
fn standing<S: Sizes>(machine: &MachineOf<S>) -> u128
    ensures value { result ≡ standing_count S.n machine.now.machine }
{
    let mut total = 0;
    for chip in 0..machine.chip_count() {
        total += machine.buffer(chip).len() as u128;
    }
    total
}

/// How many processors ask to send.
fn asking<S: Sizes>(machine: &MachineOf<S>) -> u64
    ensures value { result ≡ asking S.n machine.now.machine }
{
    let mut total = 0;
    for chip in 0..machine.chip_count() {
        total += ones(machine.chip(chip).flag_plane(FlagNo::SEND));
    }
    total
}

/// How many bits of a plane are 1.
fn ones(plane: Plane) -> u64
    ensures value { result ≡ sum (tabulate 0 16 (λ p. bit_number (bit plane p))) }
    ensures within { result ≤ 16 }
{
    let mut total = 0;
    for p in 0..16 {
        total += bit_number(bit(plane, p));
    }
    total
}

fn bit(plane: Plane, p: u32) -> bool
    requires { p < 16 }
    ensures value { result ≡ bit plane p }
{
    plane >> p & 1 == 1
}

fn bit_number(bit: bool) -> u64
    ensures value { result ≡ bit_number bit }
    ensures within { result ≤ 1 }
{
    if bit { 1 } else { 0 }
}

/// The image of a machine, in hexadecimal digits.
pub fn push_image<S: Sizes>(
    alloc: Global,
    text: &mut Vec<u8>,
    machine: &MachineOf<S>,
) -> Result<(), NoMemory>
    ensures ok { OnOk result (text.new.items ≡ text.old.items ++ image_lines (text_of S.n S.cap machine.now.machine)) }
{
    let image = dump(alloc, machine)?;
    push_bytes(text, &image)
}

/// Bytes in hexadecimal digits, after a line that tells how many lines they are.
fn push_bytes(text: &mut Vec<u8>, bytes: &[u8]) -> Result<(), NoMemory>
    ensures ok { OnOk result (text.new.items ≡ text.old.items ++ image_lines bytes.now) }
{
    push_number(text, b"image", line_count(bytes.len()) as u64)?;
    push_hex(text, bytes)
}

/// How many lines so many bytes are.
fn line_count(bytes: usize) -> usize
    ensures value { result ≡ (bytes + 31) / 32 }
{
    bytes.div_ceil(HEX_BYTES)
}

fn push_hex(text: &mut Vec<u8>, bytes: &[u8]) -> Result<(), NoMemory>
    ensures ok { OnOk result (text.new.items ≡ text.old.items ++ hex_text (length bytes.now) 0 bytes.now) }
{
    for i in 0..bytes.len() {
        push_hex_byte(text, bytes[i], bytes.len(), i)?;
    }
    Ok(())
}

/// Byte `i` of so many, and the end of its line, if it has come.
fn push_hex_byte(text: &mut Vec<u8>, byte: u8, count: usize, i: usize) -> Result<(), NoMemory>
    requires within { i < count }
    ensures ok { OnOk result (text.new.items ≡ text.old.items
        ++ hex_digit (byte / 16) ∷ hex_digit (byte % 16) ∷ behind_byte count i) }
{
    push_words(text, &[hex_digit(byte / 16), hex_digit(byte % 16)])?;
    if (i + 1) % HEX_BYTES == 0 || i + 1 == count {
        push_words(text, b"\n")?;
    }
    Ok(())
}

/// A hexadecimal digit, lower case.
fn hex_digit(digit: u8) -> u8
    requires { digit < 16 }
    ensures value { result ≡ hex_digit digit }
{
    if digit < 10 {
        b'0' + digit
    } else {
        b'a' + (digit - 10)
    }
}
