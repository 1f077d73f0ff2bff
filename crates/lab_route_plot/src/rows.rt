//! Where a way stands in its picture: a row for each chip, downward in the order in which the message comes there; to
//! the right petit cycles, and in each its dimensions.

ghost use Rattle.std.specs.Prelude.{◌≡◌, ◌==◌, ◌≤◌, IfOk, OnOk};
ghost use Rattle.std.specs.List.{position};
ghost use Rattle.lab_route_plot.specs.Rows.{rows_with, route_rows, most_dims, last_cycle, in_thousandths, across_axis};
ghost use Rattle.lab_route_plot.specs.Rows.{plan_seen};
ghost use Rattle.lab_route_plot.specs.Rows.{plan_of, row_of_chip, route_x, route_y};

use crate::legs::Leg;
use cm_bits::NoMemory;
use lab_plot::{Axis, along, axis_of};
use std::alloc::Global;

/// The rows, the dimensions and the axis of a picture.
#[derive(Drop)]
pub(crate) struct Grid {
    /// The chip of each row.
    pub rows: Vec<u16>,
    /// Dimensions of a petit cycle.
    pub dims: u16,
    pub across: Axis,
}

/// The grid of a way that begins in this petit cycle.
pub(crate) fn grid_of(alloc: Global, first: u64, legs: &[Leg]) -> Result<Grid, NoMemory>
    ensures value { IfOk result (λ grid. plan_seen grid ≡ plan_of first legs.now) }
{
    Ok(Grid {
        rows: rows_of(alloc, legs)?,
        dims: most_dims(legs),
        across: across_of(first, legs),
    })
}

/// The chip of each row.
fn rows_of(alloc: Global, legs: &[Leg]) -> Result<Vec<u16>, NoMemory>
    ensures value { IfOk result (λ rows. rows.items ≡ route_rows legs.now) }
{
    let mut rows = Vec::new(alloc);
    for leg in legs {
        add_row(&mut rows, leg.to)?;
    }
    Ok(rows)
}

/// A row for a chip, if it has none.
fn add_row(rows: &mut Vec<u16>, chip: u16) -> Result<(), NoMemory>
    ensures ok { OnOk result (rows.new.items ≡ rows_with rows.old.items chip) }
{
    if rows.contains(&chip) {
        return Ok(());
    }
    match rows.push(chip) {
        Ok(()) => Ok(()),
        Err(_) => Err(NoMemory),
    }
}

/// So many dimensions each petit cycle has room for.
fn most_dims(legs: &[Leg]) -> u16
    ensures value { result ≡ most_dims legs.now }
{
    let mut most = 1;
    for leg in legs {
        most = most.max(leg.end);
    }
    most
}

/// The axis from this petit cycle to the last.
fn across_of(first: u64, legs: &[Leg]) -> Axis
    ensures value { result ≡ across_axis first legs.now }
{
    axis_of(
        1000,
        in_thousandths(first),
        in_thousandths(last_cycle(legs)),
    )
}

/// The latest petit cycle of a way's legs, or 0 if there are none.
fn last_cycle(legs: &[Leg]) -> u64
    ensures value { result ≡ last_cycle legs.now }
{
    let mut last = 0;
    for leg in legs {
        last = last.max(leg.cycle);
    }
    last
}

/// The number of a petit cycle in thousandths, the unit in which `axis_of` of lab_plot counts; at most 2^64 - 1.
fn in_thousandths(cycle: u64) -> u64
    ensures value { result ≡ in_thousandths cycle }
{
    cycle.saturating_mul(1000)
}

/// The place from the left of a petit cycle, behind so many of its dimensions.
pub(crate) fn place_x(grid: &Grid, cycle: u64, dims: u16) -> u128
    ensures value { result ≡ route_x (plan_seen grid.now) cycle dims }
{
    let part = 1000 * u128::from(dims) / u128::from(grid.dims.max(1));
    along(grid.across, 1000 * u128::from(cycle) + part, 5600)
}

/// The place from above of a chip's row.
pub(crate) fn place_y(grid: &Grid, chip: u16) -> u128
    ensures value { result ≡ route_y grid.now.rows.items chip }
    ensures within { result ≤ 2400 }
{
    let halves = 2 * row_of(grid, chip) as u128 + 1;
    let all = 2 * grid.rows.len() as u128;
    (2400 * halves / all.max(1)).min(2400)
}

/// The row of a chip, counted from 0.
pub(crate) fn row_of(grid: &Grid, chip: u16) -> usize
    ensures value { result ≡ row_of_chip grid.now.rows.items chip }
{
    match place_of(&grid.rows, chip) {
        Some(row) => row,
        None => 0,
    }
}

fn place_of(rows: &[u16], chip: u16) -> Option<usize>
    ensures value { result ≡ position (λ row. row == chip) rows.now }
{
    rows.iter().position(|row| *row == chip)
}
