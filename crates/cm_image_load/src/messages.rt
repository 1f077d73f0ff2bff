//! The messages of a chip of an image.

ghost use Rattle.std.specs.Prelude.{◌≡◌, ◌≤◌, ◌<◌, ◌^◌, [], true, IfOk, IfErr, IsOk, Ok, Err, fold, length};
ghost use Rattle.cm_model.specs.Array.{nth_or_nil};
ghost use Rattle.cm_image_format.specs.Reading.{Gives, made};
ghost use Rattle.cm_image_format.specs.Image.{processor_part, message_part, messages_part};
ghost use Rattle.cm_image_load.specs.Chips.{with_message};

use cm_array::{BuilderOf, Sizes};
use cm_bits::Proc;
use cm_image_fields::{take_chip_number, take_u8, take_u32, take_u64};
use cm_image_format::ImageFault;
use cm_message::{Message, Tag};

/// The number of a processor, and the bytes after it.
fn take_processor(bytes: &[u8]) -> Result<(Proc, &[u8]), ImageFault>
    ensures value { Gives (λ x. (x.0, x.1.now)) result (processor_part bytes.now) }
{
    let (number, rest) = take_u8(bytes)?;
    match Proc::new(number) {
        Some(proc) => Ok((proc, rest)),
        None => Err(ImageFault::Value),
    }
}

/// A message of a cube of so many chips, born before this count of petit cycles.
fn take_message<S: Sizes>(
    chips: u16,
    clock: u64,
    bytes: &[u8],
) -> Result<(Message, &[u8]), ImageFault>
    requires cube { chips ≡ 2 ^ S.n }
    ensures value { Gives (λ x. (x.0, x.1.now)) result (message_part S.n clock bytes.now) }
    ensures rel { IfOk result (λ x. x.0.rel < chips) }
    ensures origin { IfOk result (λ x. x.0.tag.chip < chips) }
    ensures born { IfOk result (λ x. x.0.tag.birth < clock) }
{
    let (rel, rest) = take_chip_number::<S>(chips, bytes)?;
    // No `?`: the prover does not cover it for a value that has a number of a processor beside a reference.
    let (proc, rest) = match take_processor(rest) {
        Ok(read) => read,
        Err(fault) => return Err(fault),
    };
    let (payload, rest) = take_u32(rest)?;
    let (chip, rest) = take_chip_number::<S>(chips, rest)?;
    let (origin, rest) = match take_processor(rest) {
        Ok(read) => read,
        Err(fault) => return Err(fault),
    };
    let (birth, rest) = take_u64(rest)?;
    if birth >= clock {
        return Err(ImageFault::Value);
    }
    Ok((
        Message {
            rel,
            proc,
            payload,
            tag: Tag {
                chip,
                proc: origin,
                birth,
            },
        },
        rest,
    ))
}

/// Puts the messages of a chip into its buffer, and gives the bytes after them.
pub(crate) fn take_messages<'a, S: Sizes>(
    builder: &mut BuilderOf<S>,
    chip: u16,
    chips: u16,
    clock: u64,
    bytes: &'a [u8],
) -> Result<&'a [u8], ImageFault>
    requires cube { chips ≡ 2 ^ S.n }
    requires chip { chip < chips }
    requires buffer_count { length builder.old.buffers ≡ 2 ^ S.n }
    requires none { nth_or_nil builder.old.buffers chip ≡ [] }
    requires clock { builder.old.clock ≡ clock }
    ensures ok { IfOk result (λ rest. made (λ messages. fold (with_message chip) builder.old messages)
        (messages_part S.n S.cap clock) bytes.now ≡ Ok (builder.new, rest.now)) }
    ensures refused { IfErr result (λ fault. messages_part S.n S.cap clock bytes.now ≡ Err fault) }
{
    let (count, mut rest) = take_u8(bytes)?;
    if count > builder.room() {
        return Err(ImageFault::Count);
    }
    for i in 0..count {
        match take_message::<S>(chips, clock, rest) {
            Ok((message, after)) => {
                builder.message(chip, message);
                rest = after;
            }
            Err(fault) => return Err(fault),
        }
    }
    Ok(rest)
}

/// Whether the messages of a chip stand at the front of bytes without a fault.
pub(crate) fn are_messages<S: Sizes>(room: u8, chips: u16, clock: u64, bytes: &[u8]) -> bool
    requires room { room ≡ S.cap }
    requires cube { chips ≡ 2 ^ S.n }
    ensures value { result ≡ true → IsOk (messages_part S.n S.cap clock bytes.now) }
{
    let Ok((count, mut rest)) = take_u8(bytes) else {
        return false;
    };
    if count > room {
        return false;
    }
    for i in 0..count {
        let Ok((_, after)) = take_message::<S>(chips, clock, rest) else {
            return false;
        };
        rest = after;
    }
    true
}
