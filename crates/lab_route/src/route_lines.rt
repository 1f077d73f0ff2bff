//! The lines of a route.

ghost use Rattle.std.specs.Prelude.{◌≡◌, ◌++◌, ◌∷◌, [], ◌≤◌, ◌<◌, OnOk, decimal};
ghost use Rattle.std.specs.List.{flat_map, range_with_len};
ghost use Rattle.cm_bits.specs.Bit.{bit};
ghost use Rattle.lab_route.specs.RouteLines.{is_crossed, chip_behind, step_text, way_chips_text, referral_text};
ghost use Rattle.lab_route.specs.RouteLines.{referrals_text};
ghost use Rattle.lab_route.specs.RouteLines.{tag_text, wait_text};
ghost use Rattle.lab_route.specs.RouteLines.{stay_text, cycle_way_text, stand_line, delivery_line, target_text};
ghost use Rattle.lab_route.specs.RouteLines.{undelivered_line};

use crate::waits::Wait;
use crate::whereabouts::Stand;
use cm_bits::{NoMemory, Place};
use cm_model::{Message, Tag};
use lab_digits::{push_piece, push_words};

/// The line of a petit cycle at this count, which led a message from a chip to where it stands, and in which it waited
/// so.
#[tactic(auto, unfolding(crate::specs::RouteLines::stand_line))]
pub(crate) fn push_stand(
    text: &mut Vec<u8>,
    dims: u8,
    clock: u64,
    from: u16,
    stand: &Stand,
    waits: &[Wait],
) -> Result<(), NoMemory>
    requires dims { dims ≤ 12 }
    ensures ok { OnOk result (text.new.items ≡ text.old.items ++ stand_line dims clock from stand.now waits.now) }
{
    push_way(text, dims, clock, from, stand.chip)?;
    push_stay(text, from, stand.chip)?;
    push_referrals(text, dims, from, stand.chip, stand.message.rel)?;
    push_piece(text, b", place ", stand.place)?;
    push_piece(text, b" of ", stand.count)?;
    push_waits(text, waits)?;
    push_words(text, b"\n")
}

/// Why it waited.
fn push_waits(text: &mut Vec<u8>, waits: &[Wait]) -> Result<(), NoMemory>
    ensures ok { OnOk result (text.new.items ≡ text.old.items ++ flat_map wait_text waits.now) }
{
    for wait in waits {
        push_wait(text, wait)?;
    }
    Ok(())
}

fn push_wait(text: &mut Vec<u8>, wait: &Wait) -> Result<(), NoMemory>
    ensures ok { OnOk result (text.new.items ≡ text.old.items ++ wait_text wait.now) }
{
    match wait {
        Wait::Cut(dim) => {
            push_piece(text, b", waits in ", *dim)?;
            push_words(text, b" at a cut wire")
        }
        Wait::Behind(dim, tag) => {
            push_piece(text, b", waits in ", *dim)?;
            push_words(text, b" behind ")?;
            push_tag(text, tag)
        }
        Wait::Unfetched => push_words(text, b", waits for RECV"),
        Wait::Second(tag) => {
            push_words(text, b", waits for its processor behind ")?;
            push_tag(text, tag)
        }
    }
}

/// A message, by who sent it and the petit cycle in which it was taken in.
fn push_tag(text: &mut Vec<u8>, tag: &Tag) -> Result<(), NoMemory>
    ensures ok { OnOk result (text.new.items ≡ text.old.items ++ tag_text tag.now) }
{
    push_piece(text, b"", tag.chip)?;
    push_piece(text, b" ", tag.proc.get())?;
    push_piece(text, b" ", tag.birth)
}

/// The same, where it was delivered.
#[tactic(auto, unfolding(crate::specs::RouteLines::delivery_line))]
pub(crate) fn push_delivery(
    text: &mut Vec<u8>,
    dims: u8,
    clock: u64,
    from: u16,
    place: Place,
) -> Result<(), NoMemory>
    requires dims { dims ≤ 12 }
    ensures ok { OnOk result (text.new.items ≡ text.old.items ++ delivery_line dims clock from place) }
{
    push_way(text, dims, clock, from, place.chip)?;
    push_piece(text, b", delivered to processor ", place.proc.get())?;
    push_words(text, b"\n")
}

/// The last line of a message that stands in a router.
#[tactic(auto, unfolding(crate::specs::RouteLines::undelivered_line))]
pub(crate) fn push_end(text: &mut Vec<u8>, stand: &Stand) -> Result<(), NoMemory>
    ensures ok { OnOk result (text.new.items ≡ text.old.items ++ undelivered_line stand.now) }
{
    push_piece(text, b"stands at ", stand.chip)?;
    push_target(text, stand.chip, &stand.message)?;
    push_words(text, b"\n")
}

/// For whom a message is that stands at a chip.
#[tactic(auto, unfolding(crate::specs::RouteLines::target_text))]
fn push_target(text: &mut Vec<u8>, chip: u16, message: &Message) -> Result<(), NoMemory>
    ensures ok { OnOk result (text.new.items ≡ text.old.items ++ target_text chip message.now) }
{
    push_piece(text, b", for processor ", message.proc.get())?;
    push_piece(text, b" of chip ", chip ^ message.rel)?;
    Ok(())
}

/// The petit cycle and the way from one chip to another.
fn push_way(text: &mut Vec<u8>, dims: u8, clock: u64, from: u16, to: u16) -> Result<(), NoMemory>
    requires dims { dims ≤ 12 }
    ensures ok { OnOk result (text.new.items ≡ text.old.items ++ cycle_way_text dims clock from to) }
{
    push_piece(text, b"cycle ", clock)?;
    push_words(text, b": ")?;
    push_chips(text, dims, from, to)
}

/// The chips on the way.
fn push_chips(text: &mut Vec<u8>, dims: u8, from: u16, to: u16) -> Result<(), NoMemory>
    requires dims { dims ≤ 12 }
    ensures ok { OnOk result (text.new.items ≡ text.old.items ++ way_chips_text dims from to) }
{
    push_piece(text, b"", from)?;
    for dim in 0..dims {
        push_step(text, from, to, dim)?;
    }
    Ok(())
}

/// The chip behind a dimension, if that is crossed.
fn push_step(text: &mut Vec<u8>, from: u16, to: u16, dim: u8) -> Result<(), NoMemory>
    requires dim { dim < 12 }
    ensures ok { OnOk result (text.new.items ≡ text.old.items ++ step_text from to dim) }
{
    if is_crossed(from, to, dim) {
        push_piece(text, b" -> ", chip_behind(from, to, dim))
    } else {
        Ok(())
    }
}

/// That nothing was crossed.
fn push_stay(text: &mut Vec<u8>, from: u16, to: u16) -> Result<(), NoMemory>
    ensures ok { OnOk result (text.new.items ≡ text.old.items ++ stay_text from to) }
{
    if from == to {
        push_words(text, b", stays")
    } else {
        Ok(())
    }
}

/// The dimensions in which it was referred.
#[tactic(auto, unfolding(crate::specs::RouteLines::referrals_text))]
fn push_referrals(
    text: &mut Vec<u8>,
    dims: u8,
    from: u16,
    to: u16,
    rel: u16,
) -> Result<(), NoMemory>
    requires dims { dims ≤ 12 }
    ensures ok { OnOk result (text.new.items ≡ text.old.items ++ referrals_text dims from to rel) }
{
    for dim in 0..dims {
        push_referral(text, from, to, rel, dim)?;
    }
    Ok(())
}

fn push_referral(text: &mut Vec<u8>, from: u16, to: u16, rel: u16, dim: u8) -> Result<(), NoMemory>
    requires dim { dim < 12 }
    ensures ok { OnOk result (text.new.items ≡ text.old.items ++ referral_text from to rel dim) }
{
    if is_crossed(from, to, dim) && has_bit(rel, dim) {
        push_piece(text, b", referred in ", dim)
    } else {
        Ok(())
    }
}

/// Whether the way from one chip to another crosses a dimension.
fn is_crossed(from: u16, to: u16, dim: u8) -> bool
    requires dim { dim < 12 }
    ensures value { result ≡ is_crossed from to dim }
{
    has_bit(from ^ to, dim)
}

fn has_bit(number: u16, dim: u8) -> bool
    requires dim { dim < 12 }
    ensures value { result ≡ bit number dim }
{
    number >> dim & 1 == 1
}

/// The chip on the way behind a dimension.
fn chip_behind(from: u16, to: u16, dim: u8) -> u16
    requires dim { dim < 12 }
    ensures value { result ≡ chip_behind from to dim }
{
    from ^ (from ^ to) % (1 << (dim + 1))
}
