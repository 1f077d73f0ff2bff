//! The wires that are cut, in an image.

ghost use Rattle.std.specs.Prelude.{◌≡◌, ◌*◌, ◌+◌, ◌++◌, ◌^◌, ◌<◌, ◌≤◌, [], IfOk, IfErr, OnErr, OnOk, Ok, Err, length};
ghost use Rattle.std.specs.Prelude.{vec_capacity};
ghost use Rattle.std.specs.List.{All};
ghost use Rattle.cm_model.specs.Wiring.{rule_number, plain_routing, IsWireOf};
ghost use Rattle.cm_image_format.specs.Reading.{Gives, made};
ghost use Rattle.cm_image_format.specs.Cuts.{cut_text, cut_part, is_cut_count, listed_cuts_part, cuts_text, version_by};
ghost use Rattle.cm_image_format.specs.Cuts.{routing_part};
ghost use Rattle.cm_image_fields.specs.Cuts.{header_of, with_routing, with_cuts};

use crate::header::Header;
use crate::numbers::{push_u8, push_u16, take_chip_number, take_u8, take_u16};
use cm_array::{BuilderOf, Sizes};
use cm_bits::{Edge, NoMemory};
use cm_image_format::ImageFault;
use cm_message::Rule;

/// Lets a machine route as its image tells behind this header, and gives the bytes after that.
pub fn take_routing<'a, S: Sizes>(
    builder: &mut BuilderOf<S>,
    header: Header,
    bytes: &'a [u8],
) -> Result<&'a [u8], ImageFault>
    requires dimension { S.n ≤ 12 }
    requires plain { builder.old.routing ≡ plain_routing }
    ensures ok { IfOk result (λ rest. made (with_routing builder.old) (routing_part S.n (header_of S.n S.cap header).0)
        bytes.now ≡ Ok (builder.new, rest.now)) }
    ensures refused { IfErr result (λ fault. routing_part S.n (header_of S.n S.cap header).0 bytes.now ≡ Err fault) }
{
    builder.rule(header.rule);
    if header.version == 1 {
        return Ok(bytes);
    }
    take_cuts(builder, header.rule, bytes)
}

/// Cuts the wires that are listed behind their count, under this rule, and gives the bytes after them.
fn take_cuts<'a, S: Sizes>(
    builder: &mut BuilderOf<S>,
    rule: Rule,
    bytes: &'a [u8],
) -> Result<&'a [u8], ImageFault>
    requires dimension { S.n ≤ 12 }
    requires none { builder.old.routing.cuts ≡ [] }
    ensures ok { IfOk result (λ rest. made (with_cuts builder.old) (listed_cuts_part S.n (rule_number rule)) bytes.now
        ≡ Ok (builder.new, rest.now)) }
    ensures refused { IfErr result (λ fault. listed_cuts_part S.n (rule_number rule) bytes.now ≡ Err fault) }
{
    let (count, mut rest) = take_u16(bytes)?;
    let n = usize::from(builder.dims());
    if !is_cut_count::<S>(n, rule, count) {
        return Err(ImageFault::Count);
    }
    let chips = builder.chip_count();
    let mut least = 0;
    for i in 0..count {
        let (chip, dim, after) = take_cut::<S>(n, chips, least, rest)?;
        builder.cut(Edge::new(chip, dim).unwrap());
        least = chip * 16 + u16::from(dim) + 1;
        rest = after;
    }
    Ok(rest)
}

/// Whether an image may list so many wires: under the first rule there has to be one.
fn is_cut_count<S: Sizes>(n: usize, rule: Rule, count: u16) -> bool
    requires n { n ≡ S.n }
    requires dimension { S.n ≤ 12 }
    ensures value { result ≡ is_cut_count S.n (rule_number rule) count }
{
    usize::from(count) <= n * (1 << n) / 2 && !(count == 0 && rule.number() == 0)
}

/// A wire by its lower chip and its dimension, and the bytes after it. As a number the pair is this one or above it.
fn take_cut<S: Sizes>(
    n: usize,
    chips: u16,
    least: u16,
    bytes: &[u8],
) -> Result<(u16, u8, &[u8]), ImageFault>
    requires n { n ≡ S.n }
    requires dimension { S.n ≤ 12 }
    requires cube { chips ≡ 2 ^ S.n }
    requires few { chips ≤ 4096 }
    ensures value { Gives (λ x. (record { chip = x.0; dim = x.1 }, x.2.now)) result
        (cut_part S.n least bytes.now) }
    ensures wire { IfOk result (λ x. IsWireOf S.n (record { chip = x.0; dim = x.1 })) }
    ensures above { IfOk result (λ x. least ≤ x.0 * 16 + x.1) }
{
    let (chip, rest) = take_chip_number::<S>(chips, bytes)?;
    let (dim, rest) = take_u8(rest)?;
    if usize::from(dim) >= n || chip >> dim & 1 == 1 {
        return Err(ImageFault::Value);
    }
    if chip * 16 + u16::from(dim) < least {
        return Err(ImageFault::Order);
    }
    Ok((chip, dim, rest))
}

/// The version of an image that tells these cuts and this rule: 1 where there are none and it is the first.
pub fn version_of(rule: Rule, cuts: &[Edge]) -> u8
    ensures value { result ≡ version_by rule cuts.now }
    ensures known { result ≤ 2 }
{
    match rule {
        Rule::First if cuts.is_empty() => 1,
        _ => 2,
    }
}

/// How many bytes list the wires that are cut, in an image of this version.
#[tactic(auto, unfolding(cm_message::specs::Bytes::number_bytes))]
pub fn cuts_len(version: u8, cuts: &[Edge]) -> usize
    requires few { length cuts.now < 65536 }
    ensures value { result ≡ length (cuts_text version cuts.now) }
    ensures within { result ≤ 200000 }
{
    if version == 1 { 0 } else { 2 + cuts.len() * 3 }
}

/// The wires that are cut, behind their count; in version 1 none are listed.
pub fn push_cuts(text: &mut Vec<u8>, version: u8, cuts: &[Edge]) -> Result<(), NoMemory>
    requires few { length cuts.now < 65536 }
    ensures ok { OnOk result (text.new.items ≡ text.old.items ++ cuts_text version cuts.now) }
    ensures capacity { vec_capacity text.old ≤ vec_capacity text.new }
    ensures grows { OnOk result (length text.new.items ≤ length text.old.items + (2 + 3 * length cuts.now)) }
    ensures full { OnErr result (vec_capacity text.old < length text.old.items + (2 + 3 * length cuts.now)) }
{
    if version == 1 {
        return Ok(());
    }
    push_u16(text, cuts.len() as u16)?;
    for edge in cuts {
        push_cut(text, *edge)?;
    }
    Ok(())
}

fn push_cut(text: &mut Vec<u8>, edge: Edge) -> Result<(), NoMemory>
    ensures ok { OnOk result (text.new.items ≡ text.old.items ++ cut_text edge) }
    ensures capacity { vec_capacity text.old ≤ vec_capacity text.new }
    ensures grows { OnOk result (length text.new.items ≤ length text.old.items + 3) }
    ensures full { OnErr result (vec_capacity text.old < length text.old.items + 3) }
{
    push_u16(text, edge.chip())?;
    push_u8(text, edge.dim())
}
