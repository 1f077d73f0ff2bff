//! The chips of an image.

ghost use Rattle.std.specs.Prelude.{◌≡◌, ◌↔◌, ◌≤◌, ◌<◌, ◌+◌, ◌^◌, ◌++◌, ℕ, List, [], IfOk, IfErr, OnOk, Ok, Err};
ghost use Rattle.std.specs.Prelude.{length, replicate, slice_index, IfSome, IsNone, IsErrOf, IsOk, true, false};
ghost use Rattle.cm_image_format.specs.Reading.{made};
ghost use Rattle.cm_image_format.specs.Image.{flags_part, chip_part};
ghost use Rattle.cm_image_load.specs.Chips.{with_flags, with_chip_image, IsBlankFrom, chips_onto};
ghost use Rattle.cm_image_load.specs.Pieces.{IsStopped};
ghost use Rattle.cm_image_load.specs.Taken.{IsTakenIn, AreTakenIn};
ghost use Rattle.cm_image_load.specs.WaitingChips.{with_waiting};

use crate::messages::{are_messages, take_messages};
use crate::pieces::{SourceFault, Window};
use crate::waiting_chips::{FULL_MEMORY_LEN, WaitingChips, lists_all};
use cm_array::{BuilderOf, Sizes};
use cm_bits::{FlagNo, Plane, Source};
use cm_image_fields::{BLANK_CHIP_LEN, behind_memory, take_flags, take_memory};
use cm_image_format::ImageFault;

/// Puts the flag planes into a chip, but not that of flag 8, which is 0.
fn put_flags<S: Sizes>(builder: &mut BuilderOf<S>, chip: u16, flags: &[Plane; 16])
    requires chip { chip < 2 ^ S.n }
    requires blank { IsBlankFrom S.n chip builder.old }
    requires zero { slice_index flags.now 8 ≡ 0 }
    ensures value { builder.new ≡ with_flags chip builder.old flags.now }
{
    for f in 0..16u8 {
        let plane = flags[usize::from(f)];
        if f != 8 {
            builder.flag_plane(chip, FlagNo::new(f).unwrap(), plane);
        }
    }
}

/// Puts what follows the flag planes of a chip into it, beside these, and gives the bytes after it.
fn take_listed_chip<'a, S: Sizes>(
    builder: &mut BuilderOf<S>,
    chip: u16,
    chips: u16,
    clock: u64,
    flags: &[Plane; 16],
    bytes: &'a [u8],
) -> Result<&'a [u8], ImageFault>
    requires cube { chips ≡ 2 ^ S.n }
    requires chip { chip < chips }
    requires blank { IsBlankFrom S.n chip builder.old }
    requires clock { builder.old.clock ≡ clock }
    requires zero { slice_index flags.now 8 ≡ 0 }
    ensures ok { IfOk result (λ rest. (whole : List ℕ) → flags_part whole ≡ Ok (flags.now, bytes.now)
        → made (with_chip_image chip builder.old) (chip_part S.n S.cap clock) whole ≡ Ok (builder.new, rest.now)) }
    ensures refused { IfErr result (λ fault. (whole : List ℕ) → flags_part whole ≡ Ok (flags.now, bytes.now)
        → chip_part S.n S.cap clock whole ≡ Err fault) }
{
    put_flags(builder, chip, flags);
    let rest = take_memory(builder, chip, bytes)?;
    take_messages(builder, chip, chips, clock, rest)
}

/// What stands behind a blank chip, if one stands at the front of bytes.
fn behind_blank_chip(bytes: &[u8]) -> Option<&[u8]>
    ensures value { IfSome result (λ rest. bytes.now ≡ replicate 35 0 ++ rest.now) }
{
    bytes.strip_prefix(&[0; BLANK_CHIP_LEN])
}

/// Takes in what an image has of a chip, and gives the bytes after it. A chip whose memory planes are all listed waits,
/// with those in front of it that wait; any other is put into its place at once, and a blank one is there already.
fn take_chip<'a, S: Sizes>(
    builder: &mut BuilderOf<S>,
    waiting: &mut WaitingChips,
    chip: u16,
    chips: u16,
    clock: u64,
    bytes: &'a [u8],
) -> Result<&'a [u8], ImageFault>
    requires cube { chips ≡ 2 ^ S.n }
    requires chip { chip < chips }
    requires waiting { length waiting.old ≤ chip }
    requires blank { IsBlankFrom S.n chip (with_waiting chip builder.old waiting.old) }
    requires clock { builder.old.clock ≡ clock }
    ensures ok { IfOk result (λ rest. made (with_chip_image chip (with_waiting chip builder.old waiting.old))
        (chip_part S.n S.cap clock) bytes.now ≡ Ok (with_waiting (chip + 1) builder.new waiting.new, rest.now)) }
    ensures refused { IfErr result (λ fault. chip_part S.n S.cap clock bytes.now ≡ Err fault) }
    ensures waiting { OnOk result (length waiting.new ≤ chip + 1) }
{
    if let Some(rest) = behind_blank_chip(bytes) {
        waiting.put(builder, chip);
        return Ok(rest);
    }
    let (flags, rest) = take_flags(bytes)?;
    waiting.make_room(builder, chip);
    if waiting.push(&flags, rest) {
        return take_messages(builder, chip, chips, clock, &rest[FULL_MEMORY_LEN..]);
    }
    waiting.put(builder, chip);
    take_listed_chip(builder, chip, chips, clock, &flags, rest)
}

/// Puts what an image has of each chip from this one on into it, and gives the bytes after the last. Those before it
/// were put in, or wait.
pub(crate) fn take_chips<'a, S: Sizes>(
    builder: &mut BuilderOf<S>,
    waiting: &mut WaitingChips,
    first: u16,
    clock: u64,
    bytes: &'a [u8],
) -> Result<&'a [u8], ImageFault>
    requires dimension { S.n ≤ 12 }
    requires first { first ≤ 2 ^ S.n }
    requires waiting { length waiting.old ≤ first }
    requires blank { IsBlankFrom S.n first (with_waiting first builder.old waiting.old) }
    requires clock { builder.old.clock ≡ clock }
    ensures ok { IfOk result (λ rest. chips_onto S.n S.cap clock first (with_waiting first builder.old waiting.old)
        bytes.now ≡ Ok ((builder.new, 2 ^ S.n), rest.now)) }
    ensures refused { IfErr result (λ fault. chips_onto S.n S.cap clock first
        (with_waiting first builder.old waiting.old) bytes.now ≡ Err fault) }
{
    let chips = builder.chip_count();
    let mut rest = bytes;
    for chip in first..chips {
        rest = take_chip(builder, waiting, chip, chips, clock, rest)?;
    }
    waiting.put(builder, chips);
    Ok(rest)
}

/// Takes in a chip whose memory planes are all listed, if all of it stands in these bytes without a fault. How many
/// bytes come after it.
fn take_full_chip<S: Sizes>(
    builder: &mut BuilderOf<S>,
    waiting: &mut WaitingChips,
    chip: u16,
    chips: u16,
    clock: u64,
    bytes: &[u8],
) -> Option<usize>
    requires cube { chips ≡ 2 ^ S.n }
    requires chip { chip < chips }
    requires waiting { length waiting.old ≤ chip }
    requires blank { IsBlankFrom S.n chip (with_waiting chip builder.old waiting.old) }
    requires clock { builder.old.clock ≡ clock }
    ensures full { IfSome result (λ len. IsTakenIn S.n S.cap clock chip (with_waiting chip builder.old waiting.old)
        (with_waiting (chip + 1) builder.new waiting.new) len bytes.now) }
    ensures waiting { IfSome result (λ len. length waiting.new ≤ chip + 1) }
    ensures other { IsNone result
        → with_waiting chip builder.new waiting.new ≡ with_waiting chip builder.old waiting.old }
    ensures few { IsNone result → length waiting.new ≤ chip }
{
    let Ok(read) = take_flags(bytes) else {
        return None;
    };
    let (flags, rest) = read;
    if rest.len() < FULL_MEMORY_LEN
        || !are_messages::<S>(builder.room(), chips, clock, &rest[FULL_MEMORY_LEN..])
    {
        return None;
    }
    waiting.make_room(builder, chip);
    if !waiting.push(&flags, rest) {
        return None;
    }
    match take_messages(builder, chip, chips, clock, &rest[FULL_MEMORY_LEN..]) {
        Ok(after) => Some(after.len()),
        Err(_) => unreachable!(),
    }
}

/// Whether a chip stands at the front of bytes without a fault.
fn is_chip<S: Sizes>(room: u8, chips: u16, clock: u64, bytes: &[u8]) -> bool
    requires room { room ≡ S.cap }
    requires cube { chips ≡ 2 ^ S.n }
    ensures value { result ≡ true → IsOk (chip_part S.n S.cap clock bytes.now) }
{
    let Ok((_, rest)) = take_flags(bytes) else {
        return false;
    };
    let Some(rest) = behind_memory(rest) else {
        return false;
    };
    are_messages::<S>(room, chips, clock, rest)
}

/// Takes in a chip, if all of it stands in these bytes without a fault. How many bytes come after it. A chip that does
/// not list all its memory planes is read twice: what was put into the machine cannot be taken back.
fn take_sound_chip<S: Sizes>(
    builder: &mut BuilderOf<S>,
    waiting: &mut WaitingChips,
    chip: u16,
    chips: u16,
    clock: u64,
    bytes: &[u8],
) -> Option<usize>
    requires cube { chips ≡ 2 ^ S.n }
    requires chip { chip < chips }
    requires waiting { length waiting.old ≤ chip }
    requires blank { IsBlankFrom S.n chip (with_waiting chip builder.old waiting.old) }
    requires clock { builder.old.clock ≡ clock }
    ensures full { IfSome result (λ len. IsTakenIn S.n S.cap clock chip (with_waiting chip builder.old waiting.old)
        (with_waiting (chip + 1) builder.new waiting.new) len bytes.now) }
    ensures waiting { IfSome result (λ len. length waiting.new ≤ chip + 1) }
    ensures other { IsNone result
        → with_waiting chip builder.new waiting.new ≡ with_waiting chip builder.old waiting.old }
    ensures few { IsNone result → length waiting.new ≤ chip }
{
    if lists_all(bytes) {
        return take_full_chip(builder, waiting, chip, chips, clock, bytes);
    }
    if !is_chip::<S>(builder.room(), chips, clock, bytes) {
        return None;
    }
    match take_chip(builder, waiting, chip, chips, clock, bytes) {
        Ok(after) => Some(after.len()),
        Err(_) => unreachable!(),
    }
}

/// Takes in chips of bytes and of those that a source has behind them, up to the first that has a fault or is not there
/// whole. Which chip that is, and how many bytes may still be read.
pub(crate) fn take_sound_chips<S: Sizes, I: Source>(
    builder: &mut BuilderOf<S>,
    waiting: &mut WaitingChips,
    clock: u64,
    window: &mut Window,
    source: &mut I,
    most: u64,
) -> Result<(u16, u64), SourceFault>
    requires dimension { S.n ≤ 12 }
    requires none { waiting.old ≡ [] }
    requires blank { IsBlankFrom S.n 0 builder.old }
    requires clock { builder.old.clock ≡ clock }
    requires working { I.has_failed source.old ≡ false }
    ensures value { IfOk result (λ x. AreTakenIn S.n S.cap clock x.0 builder.old
        (with_waiting x.0 builder.new waiting.new) window.old window.new (I.left source.old) (I.left source.new)
        most x.1) }
    ensures waiting { IfOk result (λ x. length waiting.new ≤ x.0) }
    ensures clock { OnOk result (builder.new.clock ≡ clock) }
    ensures refused { IfErr result (IsStopped most (I.left source.old) (I.left source.new) (λ fault more. ⊥)) }
    ensures read { (I.has_failed source.new ≡ true) ↔ IsErrOf result SourceFault.Read }
{
    let chips = builder.chip_count();
    let mut left = most;
    for chip in 0..chips {
        left -= window.fill(source, left)?;
        let taken = take_sound_chip(builder, waiting, chip, chips, clock, window.rest());
        let Some(rest) = taken else {
            return Ok((chip, left));
        };
        window.keep(rest);
    }
    Ok((chips, left))
}
