//! How many messages took how long.

ghost use Rattle.std.specs.Prelude.{◌≡◌, ◌++◌, ◌<◌, IfOk, OnOk};
ghost use Rattle.lab_plot.specs.Bins.{bin_width, is_in_bin, bin_count, bin, bins_to, bins};

use crate::axes::{rightmost, step_of};
use crate::points::{Point, push_one};
use cm_bits::NoMemory;
use std::alloc::Global;

/// How many messages took how long, where each point is one.
#[tactic(auto, unfolding(crate::specs::Bins::bins))]
pub(crate) fn bins(alloc: Global, points: &[Point]) -> Result<Vec<Point>, NoMemory>
    ensures value { IfOk result (λ made. made.items ≡ bins points.now) }
{
    let most = rightmost(0, points);
    bins_to(alloc, points, most, bin_width(most), 100)
}

/// So many bins.
fn bins_to(
    alloc: Global,
    points: &[Point],
    most: u64,
    width: u64,
    count: u64,
) -> Result<Vec<Point>, NoMemory>
    requires some { 0 < width }
    ensures value { IfOk result (λ made. made.items ≡ bins_to points.now most width count) }
{
    let mut bins = Vec::new(alloc);
    for k in 0..count {
        push_bin(&mut bins, points, most, width, k)?;
    }
    Ok(bins)
}

/// The width of a bin, where the slowest took so long.
fn bin_width(most: u64) -> u64
    ensures value { result ≡ bin_width most }
    ensures some { 0 < result }
{
    (step_of(1000, most) / 10).max(1000)
}

/// The point of a bin, if the slowest message is not before it.
fn push_bin(
    bins: &mut Vec<Point>,
    points: &[Point],
    most: u64,
    width: u64,
    k: u64,
) -> Result<(), NoMemory>
    requires some { 0 < width }
    ensures ok { OnOk result (bins.new.items ≡ bins.old.items ++ bin points.now most width k) }
{
    let x = u128::from(k) * u128::from(width);
    if x > u128::from(most) {
        return Ok(());
    }
    push_one(
        bins,
        Point {
            column: 1,
            x: x as u64,
            y: bin_count(points, width, k),
        },
    )
}

/// How many messages took no less than so many bins and less than one more.
fn bin_count(points: &[Point], width: u64, k: u64) -> u64
    requires some { 0 < width }
    ensures value { result ≡ bin_count points.now width k }
{
    let count = points
        .iter()
        .filter(|point| is_in_bin(width, k, point))
        .count();
    1000u64.saturating_mul(count as u64)
}

/// Whether a message took no less than so many bins and less than one more.
fn is_in_bin(width: u64, k: u64, point: &Point) -> bool
    requires some { 0 < width }
    ensures value { result ≡ is_in_bin width k point.now }
{
    point.x / width == k
}
