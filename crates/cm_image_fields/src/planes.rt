//! The planes of one chip, in an image: of its flags, and those of its memory that are listed.

ghost use Rattle.std.specs.Prelude.{◌≡◌, ◌+◌, ◌<◌, ◌≤◌, ◌^◌, IfOk, IfErr, OnOk, Ok, Err, fold, length, slice_index};
ghost use Rattle.cm_image_format.specs.Reading.{Gives, made};
ghost use Rattle.cm_image_format.specs.Image.{flag_part, address_fault, listed_part, flags_part, memory_part};
ghost use Rattle.cm_image_fields.specs.Memory.{with_listed};

use crate::numbers::take_u16;
use cm_array::{BuilderOf, Sizes};
use cm_bits::{Addr, Plane};
use cm_image_format::ImageFault;

/// The bytes of a blank chip: its flag planes, how many memory planes are listed, and how many messages it has.
pub const BLANK_CHIP_LEN: usize = 35;

/// The bytes that list a memory plane: its address and the plane.
pub const LISTING_LEN: usize = 4;

/// The flag planes of a chip, by number.
pub fn take_flags(bytes: &[u8]) -> Result<([Plane; 16], &[u8]), ImageFault>
    ensures value { Gives (λ x. (x.0, x.1.now)) result (flags_part bytes.now) }
    ensures zero { IfOk result (λ x. slice_index x.0 8 ≡ 0) }
{
    let mut flags = [0u16; 16];
    let mut rest = bytes;
    for f in 0..16 {
        let (plane, after) = take_flag(f, rest)?;
        flags[f] = plane;
        rest = after;
    }
    Ok((flags, rest))
}

fn take_flag(f: usize, bytes: &[u8]) -> Result<(Plane, &[u8]), ImageFault>
    ensures value { Gives (λ x. (x.0, x.1.now)) result (flag_part f bytes.now) }
    ensures zero { IfOk result (λ x. f ≡ 8 → x.0 ≡ 0) }
{
    let (plane, rest) = take_u16(bytes)?;
    if f == 8 && plane != 0 {
        return Err(ImageFault::Value);
    }
    Ok((plane, rest))
}

/// The fault of an address at which no plane may be listed: it has to be this one or above it.
#[inline(always)]
fn address_fault(least: u16, at: u16) -> Option<ImageFault>
    ensures value { result ≡ address_fault least at }
{
    if at > 4095 {
        return Some(ImageFault::Value);
    }
    if at < least {
        return Some(ImageFault::Order);
    }
    None
}

/// The address of a plane, which is this one or above it, and the plane, where the bytes of both are there.
#[inline(always)]
#[tactic(auto, unfolding(cm_image_format::specs::Reading::number_at))]
pub(crate) fn take_listed(least: u16, bytes: &[u8]) -> Result<(u16, Plane, &[u8]), ImageFault>
    requires here { 4 ≤ length bytes.now }
    ensures value { Gives (λ x. (record { at = x.0; plane = x.1 }, x.2.now)) result
        (listed_part least bytes.now) }
    ensures below { IfOk result (λ x. x.0 < 4096) }
    ensures len { IfOk result (λ x. length x.2.now + 4 ≡ length bytes.now) }
{
    let at = u16::from_be_bytes([bytes[0], bytes[1]]);
    if let Some(fault) = address_fault(least, at) {
        return Err(fault);
    }
    let plane = u16::from_be_bytes([bytes[2], bytes[3]]);
    if plane == 0 {
        return Err(ImageFault::Order);
    }
    Ok((at, plane, &bytes[LISTING_LEN..]))
}

/// The fault of bytes that end before a plane is listed whole.
#[tactic(auto, unfolding(cm_image_format::specs::Reading::number_at))]
fn short_fault(least: u16, bytes: &[u8]) -> ImageFault
    requires short { length bytes.now < 4 }
    ensures value { listed_part least bytes.now ≡ Err result }
{
    match take_u16(bytes) {
        Ok((at, _)) => address_fault(least, at).unwrap_or(ImageFault::Short),
        Err(fault) => fault,
    }
}

/// Puts the memory planes that are listed into a chip, and gives the bytes after them.
pub fn take_memory<'a, S: Sizes>(
    builder: &mut BuilderOf<S>,
    chip: u16,
    bytes: &'a [u8],
) -> Result<&'a [u8], ImageFault>
    requires chip { chip < 2 ^ S.n }
    ensures ok { IfOk result (λ rest. made (λ listed. fold (with_listed chip) builder.old listed) memory_part bytes.now
        ≡ Ok (builder.new, rest.now)) }
    ensures refused { IfErr result (λ fault. memory_part bytes.now ≡ Err fault) }
    ensures buffers { OnOk result (builder.new.buffers ≡ builder.old.buffers) }
    ensures clock { OnOk result (builder.new.clock ≡ builder.old.clock) }
{
    let (count, mut rest) = take_u16(bytes)?;
    if count > 4096 {
        return Err(ImageFault::Count);
    }
    // So many are listed whole: the loop need not look at how many bytes there are.
    let whole = usize::from(count).min(rest.len() / LISTING_LEN);
    let mut least = 0;
    for i in 0..whole {
        let (at, plane, after) = take_listed(least, rest)?;
        builder.plane(chip, Addr::new(at).unwrap(), plane);
        least = at + 1;
        rest = after;
    }
    if whole < usize::from(count) {
        return Err(short_fault(least, rest));
    }
    Ok(rest)
}
