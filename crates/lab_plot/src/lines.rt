//! The lines of a panel, with their dots and names.

ghost use Rattle.std.specs.Prelude.{◌≡◌, ◌++◌, ◌<◌, ◌≤◌, OnOk};
ghost use Rattle.std.specs.List.{flat_map, range_with_len};
ghost use Rattle.lab_plot.specs.Lines.{colour, is_of, place_x, place_y, foot, tip, column_corner, circle, dot};
ghost use Rattle.lab_plot.specs.Lines.{line_open, line_text};
ghost use Rattle.lab_plot.specs.Lines.{dots_text, name_open, name_text, curve_text};
ghost use Rattle.lab_plot.specs.Shown.{columns_shown};

use crate::axes::along;
use crate::cells::{cell, push_shortened};
use crate::panels::{Frame, Panel};
use crate::points::Point;
use cm_bits::NoMemory;
use lab_digits::{push_piece, push_words};

/// The lines of a panel.
pub(crate) fn push_curves(
    text: &mut Vec<u8>,
    frame: &Frame,
    header: &[u8],
    points: &[Point],
    panel: Panel,
) -> Result<(), NoMemory>
    ensures ok { OnOk result (text.new.items ≡ text.old.items
        ++ flat_map (curve_text frame.now header.now points.now panel) (range_with_len 0 (columns_shown panel))) }
{
    for k in 0..panel.count() {
        push_curve(text, frame, header, points, panel, k)?;
    }
    Ok(())
}

/// The k-th line.
#[tactic(auto, unfolding(crate::specs::Lines::curve_text))]
fn push_curve(
    text: &mut Vec<u8>,
    frame: &Frame,
    header: &[u8],
    points: &[Point],
    panel: Panel,
    k: usize,
) -> Result<(), NoMemory>
    requires few { k < 9 }
    ensures ok { OnOk result (text.new.items
        ≡ text.old.items ++ curve_text frame.now header.now points.now panel k) }
{
    let column = panel.first() + k;
    push_line(text, frame, points, column, k)?;
    push_dots(text, frame, points, column, k)?;
    push_name(text, header, column, k)
}

/// The line of a column.
#[tactic(auto, unfolding(crate::specs::Lines::line_text))]
fn push_line(
    text: &mut Vec<u8>,
    frame: &Frame,
    points: &[Point],
    column: usize,
    k: usize,
) -> Result<(), NoMemory>
    ensures ok { OnOk result (text.new.items ≡ text.old.items ++ line_text frame.now points.now column k) }
{
    push_line_open(text, colour(k))?;
    push_corners(text, frame, points, column)?;
    push_words(text, b"'/>\n")
}

/// How a line of this colour begins; its points come behind it, and then its end.
pub fn push_line_open(text: &mut Vec<u8>, paint: &[u8]) -> Result<(), NoMemory>
    ensures ok { OnOk result (text.new.items ≡ text.old.items ++ line_open paint.now) }
{
    push_words(
        text,
        b"<polyline fill='none' stroke-width='25' stroke-linejoin='round' stroke='",
    )?;
    push_words(text, paint)?;
    push_words(text, b"' points='")
}

fn push_corners(
    text: &mut Vec<u8>,
    frame: &Frame,
    points: &[Point],
    column: usize,
) -> Result<(), NoMemory>
    ensures ok { OnOk result (text.new.items ≡ text.old.items ++ flat_map (column_corner frame.now column) points.now) }
{
    for point in points {
        push_corner(text, frame, column, point)?;
    }
    Ok(())
}

/// A corner of the line of a column, if it is one.
fn push_corner(
    text: &mut Vec<u8>,
    frame: &Frame,
    column: usize,
    point: &Point,
) -> Result<(), NoMemory>
    ensures ok { OnOk result (text.new.items ≡ text.old.items ++ column_corner frame.now column point.now) }
{
    if !is_of(column, point) {
        return Ok(());
    }
    push_foot(text, frame, point)?;
    push_tip(text, frame, point)?;
    push_foot(text, frame, point)
}

/// Below a point, where lines stand on the axis.
fn push_foot(text: &mut Vec<u8>, frame: &Frame, point: &Point) -> Result<(), NoMemory>
    ensures ok { OnOk result (text.new.items ≡ text.old.items ++ foot frame.now point.now) }
{
    if !frame.stems {
        return Ok(());
    }
    push_piece(text, b" ", place_x(frame, point))?;
    push_words(text, b",2400")
}

fn push_tip(text: &mut Vec<u8>, frame: &Frame, point: &Point) -> Result<(), NoMemory>
    ensures ok { OnOk result (text.new.items ≡ text.old.items ++ tip frame.now point.now) }
{
    push_piece(text, b" ", place_x(frame, point))?;
    push_piece(text, b",", place_y(frame, point))
}

/// A dot for each point of a column, where they are not too many.
#[tactic(auto, unfolding(crate::specs::Lines::dots_text))]
fn push_dots(
    text: &mut Vec<u8>,
    frame: &Frame,
    points: &[Point],
    column: usize,
    k: usize,
) -> Result<(), NoMemory>
    ensures ok { OnOk result (text.new.items ≡ text.old.items ++ dots_text frame.now points.now column k) }
{
    let count = points.iter().filter(|point| is_of(column, point)).count();
    if count <= 64 {
        push_all_dots(text, frame, points, column, k)
    } else {
        Ok(())
    }
}

fn push_all_dots(
    text: &mut Vec<u8>,
    frame: &Frame,
    points: &[Point],
    column: usize,
    k: usize,
) -> Result<(), NoMemory>
    ensures ok { OnOk result (text.new.items ≡ text.old.items ++ flat_map (dot frame.now column k) points.now) }
{
    for point in points {
        push_dot(text, frame, column, k, point)?;
    }
    Ok(())
}

/// A dot of a column, if the point is one.
fn push_dot(
    text: &mut Vec<u8>,
    frame: &Frame,
    column: usize,
    k: usize,
    point: &Point,
) -> Result<(), NoMemory>
    ensures ok { OnOk result (text.new.items ≡ text.old.items ++ dot frame.now column k point.now) }
{
    if !is_of(column, point) {
        return Ok(());
    }
    push_circle(
        text,
        place_x(frame, point),
        place_y(frame, point),
        colour(k),
    )
}

/// A dot of this colour here, in tenths of a dot of the screen from the left and from above.
pub fn push_circle(text: &mut Vec<u8>, x: u128, y: u128, paint: &[u8]) -> Result<(), NoMemory>
    ensures ok { OnOk result (text.new.items ≡ text.old.items ++ circle x y paint.now) }
{
    push_piece(text, b"<circle r='40' cx='", x)?;
    push_piece(text, b"' cy='", y)?;
    push_words(text, b"' fill='")?;
    push_words(text, paint)?;
    push_words(text, b"'/>\n")
}

fn is_of(column: usize, point: &Point) -> bool
    ensures value { result ≡ is_of column point.now }
{
    point.column == column
}

/// Where a point stands from the left.
fn place_x(frame: &Frame, point: &Point) -> u128
    ensures value { result ≡ place_x frame.now point.now }
{
    along(frame.across, u128::from(point.x), 5600)
}

/// Where it stands from above.
fn place_y(frame: &Frame, point: &Point) -> u128
    ensures value { result ≡ place_y frame.now point.now }
{
    2400u128.saturating_sub(along(frame.up, u128::from(point.y), 2400))
}

/// The name of a column beside the frame, which is that of its k-th line.
#[tactic(auto, unfolding(crate::specs::Lines::name_text))]
pub fn push_name(text: &mut Vec<u8>, header: &[u8], column: usize, k: usize) -> Result<(), NoMemory>
    requires few { k < 9 }
    ensures ok { OnOk result (text.new.items ≡ text.old.items ++ name_text header.now column k) }
{
    push_name_open(text, colour(k), 100 + 250 * k as u128)?;
    push_shortened(text, 15, cell(header, column))?;
    push_words(text, b"</text>\n")
}

/// A sign of its colour at this height, and how the name behind it begins.
fn push_name_open(text: &mut Vec<u8>, paint: &[u8], y: u128) -> Result<(), NoMemory>
    requires within { y ≤ 2400 }
    ensures ok { OnOk result (text.new.items ≡ text.old.items ++ name_open paint.now y) }
{
    push_words(text, b"<path stroke-width='25' stroke='")?;
    push_words(text, paint)?;
    push_piece(text, b"' d='M5750 ", y)?;
    push_piece(
        text,
        b"h300'/><text text-anchor='start' x='6130' y='",
        y + 50,
    )?;
    push_words(text, b"'>")
}

/// The colour of the k-th line.
pub fn colour(k: usize) -> &'static [u8]
    ensures value { result.now ≡ colour k }
{
    match k {
        0 => b"#0072b2",
        1 => b"#d55e00",
        2 => b"#009e73",
        3 => b"#cc79a7",
        4 => b"#e69f00",
        5 => b"#56b4e9",
        6 => b"#000000",
        7 => b"#999999",
        _ => b"#8c564b",
    }
}
