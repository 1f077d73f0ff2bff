//! Numbers of an image, the highest byte first: at the front of bytes, and behind a text; the number of chips.

ghost use Rattle.std.specs.Prelude.{◌≡◌, ◌+◌, ◌++◌, ◌<◌, ◌≤◌, ◌^◌, IfOk, OnErr, OnOk, length, replicate, vec_capacity};
ghost use Rattle.std.specs.Int.{w8, w16, w32, w64};
ghost use Rattle.cm_message.specs.Bytes.{number_bytes};
ghost use Rattle.cm_image_format.specs.Reading.{Gives, number_at};
ghost use Rattle.cm_image_format.specs.Cuts.{chip_number_part};

use cm_array::Sizes;
use cm_bits::NoMemory;
use cm_image_format::ImageFault;

/// A number of one byte, and the bytes after it.
#[tactic(auto, unfolding(cm_image_format::specs::Reading::number_at))]
pub fn take_u8(bytes: &[u8]) -> Result<(u8, &[u8]), ImageFault>
    ensures value { Gives (λ x. (x.0, x.1.now)) result (number_at w8 bytes.now) }
{
    if bytes.len() < 1 {
        return Err(ImageFault::Short);
    }
    Ok((bytes[0], &bytes[1..]))
}

/// A number of two bytes, and the bytes after it.
#[tactic(auto, unfolding(cm_image_format::specs::Reading::number_at))]
pub fn take_u16(bytes: &[u8]) -> Result<(u16, &[u8]), ImageFault>
    ensures value { Gives (λ x. (x.0, x.1.now)) result (number_at w16 bytes.now) }
{
    if bytes.len() < 2 {
        return Err(ImageFault::Short);
    }
    Ok((u16::from_be_bytes([bytes[0], bytes[1]]), &bytes[2..]))
}

/// A number of four bytes, and the bytes after it.
#[tactic(auto, unfolding(cm_image_format::specs::Reading::number_at))]
pub fn take_u32(bytes: &[u8]) -> Result<(u32, &[u8]), ImageFault>
    ensures value { Gives (λ x. (x.0, x.1.now)) result (number_at w32 bytes.now) }
{
    if bytes.len() < 4 {
        return Err(ImageFault::Short);
    }
    Ok((
        u32::from_be_bytes([bytes[0], bytes[1], bytes[2], bytes[3]]),
        &bytes[4..],
    ))
}

/// A number of eight bytes, and the bytes after it.
#[tactic(auto, unfolding(cm_image_format::specs::Reading::number_at))]
pub fn take_u64(bytes: &[u8]) -> Result<(u64, &[u8]), ImageFault>
    ensures value { Gives (λ x. (x.0, x.1.now)) result (number_at w64 bytes.now) }
{
    if bytes.len() < 8 {
        return Err(ImageFault::Short);
    }
    let number = u64::from_be_bytes([
        bytes[0], bytes[1], bytes[2], bytes[3], bytes[4], bytes[5], bytes[6], bytes[7],
    ]);
    Ok((number, &bytes[8..]))
}

/// The number of one of so many chips, and the bytes after it.
pub fn take_chip_number<S: Sizes>(chips: u16, bytes: &[u8]) -> Result<(u16, &[u8]), ImageFault>
    requires cube { chips ≡ 2 ^ S.n }
    ensures value { Gives (λ x. (x.0, x.1.now)) result (chip_number_part S.n bytes.now) }
    ensures below { IfOk result (λ x. x.0 < chips) }
{
    let (chip, rest) = take_u16(bytes)?;
    if chip >= chips {
        return Err(ImageFault::Value);
    }
    Ok((chip, rest))
}

/// Appends bytes.
pub fn push(text: &mut Vec<u8>, more: &[u8]) -> Result<(), NoMemory>
    ensures ok { OnOk result (text.new.items ≡ text.old.items ++ more.now) }
    ensures capacity { vec_capacity text.old ≤ vec_capacity text.new }
    ensures grows { OnOk result (length text.new.items ≤ length text.old.items + length more.now) }
    ensures full { OnErr result (vec_capacity text.old < length text.old.items + length more.now) }
{
    text.extend_from_slice(more)?;
    Ok(())
}

/// Appends a number of one byte.
#[tactic(auto, unfolding(cm_message::specs::Bytes::number_bytes))]
pub fn push_u8(text: &mut Vec<u8>, n: u8) -> Result<(), NoMemory>
    ensures ok { OnOk result (text.new.items ≡ text.old.items ++ number_bytes w8 n) }
    ensures capacity { vec_capacity text.old ≤ vec_capacity text.new }
    ensures grows { OnOk result (length text.new.items ≤ length text.old.items + 1) }
    ensures full { OnErr result (vec_capacity text.old < length text.old.items + 1) }
{
    push(text, &[n])
}

/// Appends a number of two bytes.
#[tactic(auto, unfolding(cm_message::specs::Bytes::number_bytes))]
pub fn push_u16(text: &mut Vec<u8>, n: u16) -> Result<(), NoMemory>
    ensures ok { OnOk result (text.new.items ≡ text.old.items ++ number_bytes w16 n) }
    ensures capacity { vec_capacity text.old ≤ vec_capacity text.new }
    ensures grows { OnOk result (length text.new.items ≤ length text.old.items + 2) }
    ensures full { OnErr result (vec_capacity text.old < length text.old.items + 2) }
{
    push(text, &n.to_be_bytes())
}

/// Appends a number of eight bytes.
#[tactic(auto, unfolding(cm_message::specs::Bytes::number_bytes))]
pub fn push_u64(text: &mut Vec<u8>, n: u64) -> Result<(), NoMemory>
    ensures ok { OnOk result (text.new.items ≡ text.old.items ++ number_bytes w64 n) }
    ensures capacity { vec_capacity text.old ≤ vec_capacity text.new }
    ensures grows { OnOk result (length text.new.items ≤ length text.old.items + 8) }
    ensures full { OnErr result (vec_capacity text.old < length text.old.items + 8) }
{
    push(text, &n.to_be_bytes())
}

/// Appends so many zero bytes.
pub fn push_zeros(text: &mut Vec<u8>, count: usize) -> Result<(), NoMemory>
    requires few { count ≤ 1000000 }
    ensures ok { OnOk result (text.new.items ≡ text.old.items ++ replicate count 0) }
    ensures err { OnErr result (text.new.items ≡ text.old.items) }
    ensures capacity { vec_capacity text.old ≤ vec_capacity text.new }
    ensures full { OnErr result (vec_capacity text.old < length text.old.items + count) }
{
    text.resize(text.len() + count, 0)?;
    Ok(())
}
