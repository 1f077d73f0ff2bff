//! The ticks of a panel.

ghost use Rattle.std.specs.Prelude.{◌≡◌, ◌++◌, ◌≤◌, OnOk};
ghost use Rattle.std.specs.List.{flat_map, range_with_len};
ghost use Rattle.lab_plot.specs.Ticks.{tick_at, up_text, up_tick, across_text, across_tick, middle_at, cycle_tick};
ghost use Rattle.lab_plot.specs.Ticks.{ticks_text};

use crate::axes::{Axis, along};
use crate::panels::Frame;
use crate::pieces::push_thousandths;
use cm_bits::NoMemory;
use lab_digits::{push_piece, push_words};

/// All ticks.
#[tactic(auto, unfolding(crate::specs::Ticks::ticks_text))]
pub(crate) fn push_ticks(text: &mut Vec<u8>, frame: &Frame) -> Result<(), NoMemory>
    ensures ok { OnOk result (text.new.items ≡ text.old.items ++ ticks_text frame.now) }
{
    push_up_ticks(text, frame.up)?;
    push_across_ticks(text, frame.across)
}

fn push_up_ticks(text: &mut Vec<u8>, axis: Axis) -> Result<(), NoMemory>
    ensures ok { OnOk result (text.new.items ≡ text.old.items ++ flat_map (up_tick axis) (range_with_len 0 12)) }
{
    for k in 0..12u8 {
        push_up_tick(text, axis, k)?;
    }
    Ok(())
}

/// A tick upward and its number, if the axis goes so far.
#[tactic(auto, unfolding(crate::specs::Ticks::up_tick))]
fn push_up_tick(text: &mut Vec<u8>, axis: Axis, k: u8) -> Result<(), NoMemory>
    ensures ok { OnOk result (text.new.items ≡ text.old.items ++ up_tick axis k) }
{
    let from = u128::from(k) * u128::from(axis.step);
    if from > axis.span {
        return Ok(());
    }
    let number = u128::from(axis.low) + from;
    push_up(text, 2400u128.saturating_sub(along(axis, number, 2400)))?;
    push_thousandths(text, number)?;
    push_words(text, b"</text>\n")
}

/// A line at this height, and the beginning of its number, behind which the end of a text is wanted.
pub fn push_up(text: &mut Vec<u8>, y: u128) -> Result<(), NoMemory>
    requires within { y ≤ 2400 }
    ensures ok { OnOk result (text.new.items ≡ text.old.items ++ up_text y) }
{
    push_piece(text, b"<path stroke='#ddd' stroke-width='8' d='M0 ", y)?;
    push_piece(text, b"h5600'/><text text-anchor='end' x='-80' y='", y + 50)?;
    push_words(text, b"'>")
}

/// Ticks to the right and their numbers.
fn push_across_ticks(text: &mut Vec<u8>, axis: Axis) -> Result<(), NoMemory>
    ensures ok { OnOk result (text.new.items ≡ text.old.items ++ flat_map (across_tick axis) (range_with_len 0 12)) }
{
    for k in 0..12u8 {
        push_across_tick(text, axis, k)?;
    }
    Ok(())
}

/// A tick to the right and its number, if the axis goes so far.
#[tactic(auto, unfolding(crate::specs::Ticks::across_tick))]
fn push_across_tick(text: &mut Vec<u8>, axis: Axis, k: u8) -> Result<(), NoMemory>
    ensures ok { OnOk result (text.new.items ≡ text.old.items ++ across_tick axis k) }
{
    let from = u128::from(k) * u128::from(axis.step);
    if from > axis.span {
        return Ok(());
    }
    let number = u128::from(axis.low) + from;
    let x = along(axis, number, 5600);
    push_across(text, x, x)?;
    push_thousandths(text, number)?;
    push_words(text, b"</text>\n")
}

/// Ticks to the right where petit cycles begin, and their numbers in the middle of these.
pub fn push_cycle_ticks(text: &mut Vec<u8>, axis: Axis) -> Result<(), NoMemory>
    ensures ok { OnOk result (text.new.items ≡ text.old.items ++ flat_map (cycle_tick axis) (range_with_len 0 12)) }
{
    for k in 0..12u8 {
        push_cycle_tick(text, axis, k)?;
    }
    Ok(())
}

/// Such a tick and its number, if a petit cycle begins there.
#[tactic(auto, unfolding(crate::specs::Ticks::cycle_tick))]
fn push_cycle_tick(text: &mut Vec<u8>, axis: Axis, k: u8) -> Result<(), NoMemory>
    ensures ok { OnOk result (text.new.items ≡ text.old.items ++ cycle_tick axis k) }
{
    let from = u128::from(k) * u128::from(axis.step);
    if from >= axis.span {
        return Ok(());
    }
    let number = u128::from(axis.low) + from;
    let x = along(axis, number, 5600);
    push_across(text, x, along(axis, number + 500, 5600))?;
    push_thousandths(text, number)?;
    push_words(text, b"</text>\n")
}

/// A line at this place from the left, and the beginning of its number, which stands at another.
fn push_across(text: &mut Vec<u8>, x: u128, at: u128) -> Result<(), NoMemory>
    ensures ok { OnOk result (text.new.items ≡ text.old.items ++ across_text x at) }
{
    push_piece(text, b"<path stroke='#ddd' stroke-width='8' d='M", x)?;
    push_piece(text, b" 0v2400'/><text y='2600' x='", at)?;
    push_words(text, b"'>")
}
