//! Axes: from which number to which, and where their ticks stand.

ghost use Rattle.std.specs.Prelude.{◌≡◌, ◌<◌, ◌≤◌, ◌^◌};
ghost use Rattle.lab_plot.specs.Axes.{in_columns, highest, leftmost, rightmost, wider, power_in, round_step, tick_step};
ghost use Rattle.lab_plot.specs.Axes.{whole_steps, axis_of, place_along};

use crate::points::Point;
use std::marker::Model;

/// An axis. Its numbers are in thousandths.
#[derive(Clone, Copy)]
pub struct Axis {
    /// The number at which it begins.
    pub(crate) low: u64,
    /// The distance of two ticks.
    pub(crate) step: u64,
    /// How far it goes: one step or more.
    pub(crate) span: u128,
}

impl Model for Axis {
    ghost use Rattle.std.specs.Prelude.{◌<◌};
    ghost use Rattle.lab_plot.specs.Axes.{Axis};

    ghost Value = { Axis };

    ghost view = { λ axis. record { low = axis.low; step = axis.step; span = axis.span } };

    ghost invariant = { λ axis. 0 < axis.span };

    ghost inverse = { λ axis. record { low = axis.low; step = axis.step; span = axis.span } };
}

/// The greatest number upward of so many columns from one on, or 0.
pub(crate) fn highest(first: usize, count: usize, points: &[Point]) -> u64
    ensures value { result ≡ highest first count points.now }
{
    let mut most = 0;
    for point in points {
        if in_columns(first, count, point.column) {
            most = most.max(point.y);
        }
    }
    most
}

fn in_columns(first: usize, count: usize, column: usize) -> bool
    ensures value { result ≡ in_columns first count column }
{
    first <= column && column - first < count
}

/// The least number to the right, where this was the one so far.
pub(crate) fn leftmost(x: u64, points: &[Point]) -> u64
    ensures value { result ≡ leftmost x points.now }
{
    let mut least = x;
    for point in points {
        least = least.min(point.x);
    }
    least
}

/// The greatest number to the right.
pub(crate) fn rightmost(x: u64, points: &[Point]) -> u64
    ensures value { result ≡ rightmost x points.now }
{
    let mut most = x;
    for point in points {
        most = most.max(point.x);
    }
    most
}

/// The greatest power of ten that is not above a number, or 1.
fn power_in(range: u64) -> u64
    ensures value { result ≡ power_in range 19 }
    ensures some { 0 < result }
{
    let mut power = 1;
    for _zeros in 0..19u8 {
        power = wider(range, power);
    }
    power
}

/// Ten times as much, if that is not above a number.
fn wider(range: u64, power: u64) -> u64
    requires some { 0 < power }
    ensures value { result ≡ wider range power }
    ensures some { 0 < result }
{
    if power <= range / 10 {
        10 * power
    } else {
        power
    }
}

/// A round number that goes four to ten times into a range, at which this is the first digit's power.
fn round_step(range: u64, power: u64) -> u64
    ensures value { result ≡ round_step range power }
{
    if range / 2 < power {
        power / 5
    } else if range / 5 < power {
        power / 2
    } else {
        power
    }
}

/// The distance of two ticks of an axis over this range.
pub(crate) fn step_of(unit: u64, range: u64) -> u64
    requires some { 0 < unit }
    ensures value { result ≡ tick_step unit range }
    ensures some { 0 < result }
{
    unit.max(round_step(range, power_in(range)))
}

/// The next multiple of a step, some way on.
fn whole_steps(step: u64, range: u64) -> u128
    requires some { 0 < step }
    ensures value { result ≡ whole_steps step range }
    ensures some { 0 < result }
{
    let over = range % step;
    if over == 0 && range > 0 {
        u128::from(range)
    } else {
        u128::from(range) + u128::from(step) - u128::from(over)
    }
}

/// An axis over the numbers from one to another, all in thousandths, with ticks at multiples of a unit.
#[tactic(auto, unfolding(crate::specs::Axes::axis_of))]
pub fn axis_of(unit: u64, least: u64, most: u64) -> Axis
    requires some { 0 < unit }
    ensures value { result ≡ axis_of unit least most }
{
    let step = step_of(unit, most.saturating_sub(least));
    let low = least - least % step;
    Axis {
        low,
        step,
        span: whole_steps(step, most.saturating_sub(low)),
    }
}

/// The place of a number along an axis that is drawn so long.
pub fn along(axis: Axis, number: u128, length: u32) -> u128
    requires low { number < 2 ^ 80 }
    ensures value { result ≡ place_along axis number length }
{
    number.saturating_sub(u128::from(axis.low)) * u128::from(length) / axis.span
}
