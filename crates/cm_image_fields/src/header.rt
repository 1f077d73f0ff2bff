//! The header of an image: its shape, its rule, and the counter.

ghost use Rattle.std.specs.Prelude.{◌≡◌, ◌+◌, ◌++◌, ◌<◌, ◌≤◌, ◌^◌, ◌==◌, true, IfOk, IsOk, OnErr, OnOk, length};
ghost use Rattle.std.specs.Prelude.{vec_capacity};
ghost use Rattle.std.specs.Int.{w8, w32};
ghost use Rattle.cm_model.specs.Wiring.{rule_number};
ghost use Rattle.cm_model.specs.Keeping.{AreSizes};
ghost use Rattle.cm_image_format.specs.Reading.{Gives, must, checked_number};
ghost use Rattle.cm_image_format.specs.Header.{MAGIC, is_version, is_rule, header_part, head_text};
ghost use Rattle.cm_image_format.specs.Whole.{read_shape};
ghost use Rattle.cm_image_fields.specs.Cuts.{header_of};

use crate::numbers::{push, take_u8, take_u32, take_u64};
use cm_array::Sizes;
use cm_bits::NoMemory;
use cm_image_format::ImageFault;
use cm_message::Rule;

/// The four bytes `CM1I`.
const MAGIC: u32 = 0x434d_3149;

/// What the header of an image tells beside its sizes.
#[derive(Clone, Copy)]
pub struct Header {
    pub version: u8,
    pub rule: Rule,
    pub clock: u64,
}

/// The dimension of the machine whose image this is, and the room of its routers, as far as the first eight
/// bytes tell.
#[tactic(auto, unfolding(cm_image_format::specs::Whole::read_shape))]
pub fn shape(bytes: &[u8]) -> Result<(u8, u8), ImageFault>
    ensures value { Gives (λ x. x) result (read_shape bytes.now) }
    ensures dimension { IfOk result (λ shape. shape.0 ≤ 12) }
    ensures some_room { IfOk result (λ shape. 1 ≤ shape.1) }
    ensures most_room { IfOk result (λ shape. shape.1 ≤ 15) }
{
    let rest = take_magic(bytes)?;
    let (version, rest) = take_version(rest)?;
    let (dimension, rest) = take_u8(rest)?;
    if dimension > 12 {
        return Err(ImageFault::Shape);
    }
    let (room, rest) = take_u8(rest)?;
    if room < 1 || room > 15 {
        return Err(ImageFault::Shape);
    }
    take_rule(version, rest)?;
    Ok((dimension, room))
}

/// The header of an image of these sizes, and the bytes after it.
pub fn take_header<S: Sizes>(
    n: usize,
    cap: usize,
    bytes: &[u8],
) -> Result<(Header, &[u8]), ImageFault>
    requires n { n ≡ S.n }
    requires cap { cap ≡ S.cap }
    ensures value { Gives (λ x. (header_of S.n S.cap x.0, x.1.now)) result (header_part S.n S.cap bytes.now) }
    ensures sizes { IsOk result → AreSizes S.n S.cap }
    ensures early { IfOk result (λ x. x.0.clock < 2 ^ 63) }
{
    let rest = take_magic(bytes)?;
    let (version, rest) = take_version(rest)?;
    let (dimension, rest) = take_u8(rest)?;
    if dimension > 12 || usize::from(dimension) != n {
        return Err(ImageFault::Shape);
    }
    let (room, rest) = take_u8(rest)?;
    if room < 1 || room > 15 || usize::from(room) != cap {
        return Err(ImageFault::Shape);
    }
    let (rule, rest) = take_rule(version, rest)?;
    let (clock, rest) = take_u64(rest)?;
    if clock >= 1 << 63 {
        return Err(ImageFault::Value);
    }
    let header = Header {
        version,
        rule,
        clock,
    };
    Ok((header, rest))
}

/// The bytes after the four with which each image begins.
fn take_magic(bytes: &[u8]) -> Result<&[u8], ImageFault>
    ensures value { Gives (λ rest. (MAGIC, rest.now)) result
        (checked_number w32 (must ImageFault.Magic (λ k. k == MAGIC)) bytes.now) }
{
    let (magic, rest) = take_u32(bytes)?;
    if magic != MAGIC {
        return Err(ImageFault::Magic);
    }
    Ok(rest)
}

fn take_version(bytes: &[u8]) -> Result<(u8, &[u8]), ImageFault>
    ensures value { Gives (λ x. (x.0, x.1.now)) result
        (checked_number w8 (must ImageFault.Version is_version) bytes.now) }
    ensures known { IfOk result (λ x. x.0 ≤ 2) }
{
    let (version, rest) = take_u8(bytes)?;
    if version != 1 && version != 2 {
        return Err(ImageFault::Version);
    }
    Ok((version, rest))
}

/// The rule of an image of this version.
fn take_rule(version: u8, bytes: &[u8]) -> Result<(Rule, &[u8]), ImageFault>
    requires known { version ≤ 2 }
    ensures value { Gives (λ x. (rule_number x.0, x.1.now)) result
        (checked_number w8 (must ImageFault.Shape (is_rule version)) bytes.now) }
{
    let (number, rest) = take_u8(bytes)?;
    if number >= version {
        return Err(ImageFault::Shape);
    }
    let rule = if number == 0 {
        Rule::First
    } else {
        Rule::Oldest
    };
    Ok((rule, rest))
}

/// Appends the header without the counter: magic, version, dimension, room, rule.
#[tactic(auto, unfolding(cm_message::specs::Bytes::number_bytes, cm_image_format::specs::Header::head_text))]
pub fn push_head(
    text: &mut Vec<u8>,
    version: u8,
    n: usize,
    cap: usize,
    rule: Rule,
) -> Result<(), NoMemory>
    requires dimension { n ≤ 12 }
    requires room { cap ≤ 15 }
    ensures ok { OnOk result (text.new.items ≡ text.old.items
        ++ head_text (record { version = version; dimension = n; room = cap; rule = rule_number rule })) }
    ensures capacity { vec_capacity text.old ≤ vec_capacity text.new }
    ensures grows { OnOk result (length text.new.items ≤ length text.old.items + 8) }
    ensures full { OnErr result (vec_capacity text.old < length text.old.items + 8) }
{
    let [first, second, third, fourth] = MAGIC.to_be_bytes();
    let (n, cap) = (n as u8, cap as u8);
    let rule = rule.number();
    push(text, &[first, second, third, fourth, version, n, cap, rule])
}
