//! The points of a table.

ghost use Rattle.std.specs.Prelude.{◌≡◌, ◌++◌, ◌∷◌, [], ◌+◌, ◌-◌, ◌<◌, ◌^◌, IfSome, OnOk};
ghost use Rattle.std.specs.List.{flat_map, range_with_len};
ghost use Rattle.cm_bits.specs.Text.{lines_left};
ghost use Rattle.lab_plot.specs.Cells.{cell, cell_number};
ghost use Rattle.lab_plot.specs.Points.{is_of_loads, is_of_latencies, is_of_rates, drawn_if_few, table_kind};
ghost use Rattle.lab_plot.specs.Points.{point_of, point_in, latency_point, row_points, points_with, points_after};
ghost use Rattle.lab_plot.specs.Rows.{GivesPlot};

use crate::cells::{cell, has_words, number_at, width};
use crate::fault::PlotFault;
use crate::rows::{has_names, row_fault};
use cm_bits::{Lines, NoMemory};
use std::alloc::Global;

/// The table that a text is.
#[derive(Clone, Copy)]
pub(crate) enum Kind {
    /// Of petit cycles.
    Cycles,
    /// Of messages.
    Messages,
    /// Of loads.
    Loads,
    /// Of how long messages took under loads.
    Latencies,
    /// Of loads that are compared: rates, and columns of any names.
    Compared,
}

/// What the number of a column says. Both numbers are in thousandths.
#[derive(Clone, Copy)]
pub(crate) struct Point {
    pub column: usize,
    pub x: u64,
    pub y: u64,
}

/// Which table it is that has this first line, whose number is told where it is none.
pub(crate) fn kind_of(number: u64, header: &[u8]) -> Result<Kind, PlotFault>
    ensures value { result ≡ table_kind number header.now }
{
    if has_names(
        header,
        b"cycle,taken,delivered,referred,standing,full,asking",
    ) {
        return Ok(Kind::Cycles);
    }
    if has_names(
        header,
        b"chip,processor,taken,to chip,to processor,delivered,crossed,referred",
    ) {
        return Ok(Kind::Messages);
    }
    if is_of_loads(header) {
        return Ok(Kind::Loads);
    }
    if is_of_latencies(header) {
        return drawn_if_few(Kind::Latencies, number, width(header));
    }
    if is_of_rates(header) {
        return drawn_if_few(Kind::Compared, number, width(header));
    }
    Err(PlotFault::Unknown(number))
}

/// Whether it has the names of loads, and maybe those of what is counted beside.
fn is_of_loads(header: &[u8]) -> bool
    ensures value { result ≡ is_of_loads header.now }
{
    has_names(
        header,
        b"rate,offered,taken,delivered,throughput,mean,p95,greatest,deepest",
    ) || has_names(
        header,
        b"rate,offered,taken,delivered,throughput,mean,p95,greatest,deepest,crossed,referred,refused,quiet",
    )
}

/// Whether it begins with rates.
fn is_of_rates(header: &[u8]) -> bool
    ensures value { result ≡ is_of_rates header.now }
{
    cell(header, 0).starts_with(b"rate")
}

/// Whether it begins with latencies.
fn is_of_latencies(header: &[u8]) -> bool
    ensures value { result ≡ is_of_latencies header.now }
{
    cell(header, 0) == b"latency".as_slice()
}

/// A table of this kind, of which at most nine columns behind the first are drawn.
fn drawn_if_few(kind: Kind, number: u64, columns: usize) -> Result<Kind, PlotFault>
    ensures value { result ≡ drawn_if_few kind number columns }
{
    if columns <= 10 {
        Ok(kind)
    } else {
        Err(PlotFault::Wide(number, columns))
    }
}

/// The points of the lines behind the first, which has this number: blank ones, and rows of so many columns.
pub(crate) fn read_points(
    alloc: Global,
    kind: Kind,
    columns: usize,
    first: u64,
    lines: Lines<'_>,
) -> Result<Vec<Point>, PlotFault>
    ensures value { GivesPlot (λ points. points.items) result
        (points_after kind columns (first + 1) [] (lines_left lines.entry)) }
{
    let mut points = Vec::new(alloc);
    let mut before = first;
    for line in lines {
        let Some(number) = before.checked_add(1) else {
            return Err(PlotFault::Memory);
        };
        match push_line(&mut points, kind, columns, number, line) {
            Ok(()) => {}
            Err(fault) => return Err(fault),
        }
        before = number;
    }
    Ok(points)
}

/// The points of a line of this number; a blank line has none.
fn push_line(
    points: &mut Vec<Point>,
    kind: Kind,
    columns: usize,
    number: u64,
    line: &[u8],
) -> Result<(), PlotFault>
    ensures ok { GivesPlot (λ _. points.new.items) result (points_with kind columns number points.old.items line.now) }
{
    if !has_words(line) {
        return Ok(());
    }
    if let Some(fault) = row_fault(columns, number, line) {
        return Err(fault);
    }
    match push_row(points, kind, columns, line) {
        Ok(()) => Ok(()),
        Err(_) => Err(PlotFault::Memory),
    }
}

/// The points of a row.
fn push_row(
    points: &mut Vec<Point>,
    kind: Kind,
    columns: usize,
    line: &[u8],
) -> Result<(), NoMemory>
    ensures ok { OnOk result (points.new.items ≡ points.old.items ++ row_points kind columns line.now) }
{
    match kind {
        Kind::Cycles | Kind::Loads | Kind::Latencies | Kind::Compared => {
            push_columns(points, columns, line)
        }
        Kind::Messages => push_message(points, number_at(line, 2), number_at(line, 5)),
    }
}

/// Those of each column behind the first.
fn push_columns(points: &mut Vec<Point>, columns: usize, line: &[u8]) -> Result<(), NoMemory>
    ensures ok { OnOk result (points.new.items
        ≡ points.old.items ++ flat_map (point_in line.now) (range_with_len 1 (columns - 1))) }
{
    let x = number_at(line, 0);
    let behind = columns.saturating_sub(1);
    for k in 0..behind {
        push_point(points, k + 1, x, number_at(line, k + 1))?;
    }
    Ok(())
}

/// A point of a column, where two numbers are there.
fn push_point(
    points: &mut Vec<Point>,
    column: usize,
    x: Option<u64>,
    y: Option<u64>,
) -> Result<(), NoMemory>
    ensures ok { OnOk result (points.new.items ≡ points.old.items ++ point_of column x y) }
{
    if let (Some(x), Some(y)) = (x, y) {
        return push_one(points, Point { column, x, y });
    }
    Ok(())
}

/// A message that took so long, if it was delivered.
fn push_message(
    points: &mut Vec<Point>,
    taken: Option<u64>,
    delivered: Option<u64>,
) -> Result<(), NoMemory>
    requires low { IfSome delivered (λ number. number < 2 ^ 63) }
    ensures ok { OnOk result (points.new.items ≡ points.old.items ++ latency_point taken delivered) }
{
    if let (Some(taken), Some(delivered)) = (taken, delivered) {
        let x = (delivered + 1000).saturating_sub(taken);
        return push_one(
            points,
            Point {
                column: 1,
                x,
                y: 1000,
            },
        );
    }
    Ok(())
}

pub(crate) fn push_one(points: &mut Vec<Point>, point: Point) -> Result<(), NoMemory>
    ensures ok { OnOk result (points.new.items ≡ points.old.items ++ point ∷ []) }
{
    match points.push(point) {
        Ok(()) => Ok(()),
        Err(_) => Err(NoMemory),
    }
}
