//! The picture of a table.

ghost use Rattle.std.specs.Prelude.{◌≡◌, ◌≢◌, ◌++◌, ◌<◌, ◌≤◌, Ok, Err, Some, IfOk, IfErr, OnOk};
ghost use Rattle.cm_bits.specs.Text.{lines_left, lines_of};
ghost use Rattle.lab_plot.specs.Heads.{title_of, size_text, ground_text, title_text, picture_head};
ghost use Rattle.lab_plot.specs.Pictures.{across_label, right_unit, has_stems, frame_of, panel_shown, panels_text};
ghost use Rattle.lab_plot.specs.Pictures.{panel_count};
ghost use Rattle.lab_plot.specs.Pictures.{table_drawing, axis_start, drawn_points, nothing_of, of_points};
ghost use Rattle.lab_plot.specs.Pictures.{drawing_of_kind, of_header};
ghost use Rattle.lab_plot.specs.Pictures.{head_fault, table_picture};
ghost use Rattle.lab_plot.specs.Points.{table_kind};
ghost use Rattle.lab_plot.specs.Rows.{GivesPlot};

use crate::axes::{axis_of, highest, leftmost, rightmost};
use crate::bins::bins;
use crate::cells::{has_words, width};
use crate::fault::PlotFault;
use crate::panels::{Frame, Panel, Table, push_panel};
use crate::points::{Kind, Point, kind_of, read_points};
use cm_bits::{Lines, NoMemory};
use lab_digits::{push_piece, push_words};
use std::alloc::Global;

/// The picture of a table of `cm1lab study`, `cm1lab study --messages` or `cm1lab load`, as an SVG.
#[tactic(auto, unfolding(crate::specs::Pictures::table_picture))]
pub fn plot(alloc: Global, text: &[u8]) -> Result<Vec<u8>, PlotFault>
    ensures value { IfOk result (λ picture. table_picture text.now ≡ Ok picture.items) }
    ensures refused { IfErr result (λ fault. fault ≢ PlotFault.Memory → table_picture text.now ≡ Err fault) }
    ensures head { (fault : PlotFault) → head_fault 1 (lines_of text.now) ≡ Some fault → result ≡ Err fault }
{
    let mut lines = Lines::new(text);
    let mut before = 0;
    while let Some(line) = lines.next() {
        if has_words(line) {
            return plot_table(alloc, before + 1, line, lines);
        }
        before += 1;
    }
    Err(PlotFault::Empty)
}

/// The picture of these lines behind the first, which has this number, if that is of a table.
fn plot_table(
    alloc: Global,
    number: u64,
    header: &[u8],
    lines: Lines<'_>,
) -> Result<Vec<u8>, PlotFault>
    ensures value { GivesPlot (λ text. text.items) result (of_header number header.now (lines_left lines.entry)) }
    ensures head { (fault : PlotFault) → table_kind number header.now ≡ Err fault → result ≡ Err fault }
{
    match kind_of(number, header) {
        Ok(kind) => plot_rows(alloc, number, kind, header, lines),
        Err(fault) => Err(fault),
    }
}

/// The same where it is of this one.
fn plot_rows(
    alloc: Global,
    number: u64,
    kind: Kind,
    header: &[u8],
    lines: Lines<'_>,
) -> Result<Vec<u8>, PlotFault>
    ensures value { GivesPlot (λ text. text.items) result
        (drawing_of_kind number header.now (lines_left lines.entry) kind) }
{
    match read_points(alloc, kind, width(header), number, lines) {
        Ok(points) => draw_points(alloc, kind, header, points),
        Err(fault) => Err(fault),
    }
}

/// The picture of a table's points, if there are any.
fn draw_points(
    alloc: Global,
    kind: Kind,
    header: &[u8],
    points: Vec<Point>,
) -> Result<Vec<u8>, PlotFault>
    ensures value { GivesPlot (λ text. text.items) result (of_points kind header.now points.items) }
{
    let Some(first) = points.first() else {
        return Err(nothing_of(kind));
    };
    let start = start_of(kind, first.x);
    let points = drawn_points(alloc, kind, points)?;
    Ok(drawing(alloc, kind, header, start, &points)?)
}

/// What is missing where a table has no point.
fn nothing_of(kind: Kind) -> PlotFault
    ensures value { result ≡ nothing_of kind }
{
    match kind {
        Kind::Messages | Kind::Latencies => PlotFault::NoDelivery,
        Kind::Cycles | Kind::Loads | Kind::Compared => PlotFault::NoPoint,
    }
}

/// Where the axis to the right begins at the latest.
fn start_of(kind: Kind, x: u64) -> u64
    ensures value { result ≡ axis_start kind x }
{
    match kind {
        Kind::Cycles => x,
        Kind::Messages | Kind::Loads | Kind::Latencies | Kind::Compared => 0,
    }
}

/// The points that are drawn.
fn drawn_points(alloc: Global, kind: Kind, points: Vec<Point>) -> Result<Vec<Point>, NoMemory>
    ensures value { IfOk result (λ drawn. drawn.items ≡ drawn_points kind points.items) }
{
    match kind {
        Kind::Cycles | Kind::Loads | Kind::Latencies | Kind::Compared => Ok(points),
        Kind::Messages => bins(alloc, &points),
    }
}

/// A picture of these points.
#[tactic(auto, unfolding(crate::specs::Pictures::table_drawing))]
fn drawing(
    alloc: Global,
    kind: Kind,
    header: &[u8],
    start: u64,
    points: &[Point],
) -> Result<Vec<u8>, NoMemory>
    ensures value { IfOk result (λ text. text.items ≡ table_drawing kind header.now start points.now) }
{
    let mut text = Vec::new(alloc);
    let table = Table { header, points };
    push_head(&mut text, title_of(kind), 600 + 3300 * panel_count(kind))?;
    match kind {
        Kind::Cycles => {
            push_shown(&mut text, kind, &table, start, Panel::Moved, 0)?;
            push_shown(&mut text, kind, &table, start, Panel::Held, 1)?;
        }
        Kind::Messages => {
            let bins = Table {
                header: b"petit cycles,messages",
                points,
            };
            push_shown(&mut text, kind, &bins, start, Panel::Bins, 0)?;
        }
        Kind::Loads => {
            push_shown(&mut text, kind, &table, start, Panel::Latency, 0)?;
            push_shown(&mut text, kind, &table, start, Panel::Throughput, 1)?;
        }
        Kind::Latencies => {
            let panel = Panel::Took(width(header).saturating_sub(1));
            push_shown(&mut text, kind, &table, start, panel, 0)?;
        }
        Kind::Compared => {
            let panel = Panel::Columns(width(header).saturating_sub(1));
            push_shown(&mut text, kind, &table, start, panel, 0)?;
        }
    }
    push_words(&mut text, b"</svg>\n")?;
    Ok(text)
}

/// How many panels a picture has.
fn panel_count(kind: Kind) -> u32
    ensures value { result ≡ panel_count kind }
    ensures within { result ≤ 2 }
{
    match kind {
        Kind::Cycles | Kind::Loads => 2,
        Kind::Messages | Kind::Latencies | Kind::Compared => 1,
    }
}

/// What stands before the panels of a picture of this title and height.
#[tactic(auto, unfolding(crate::specs::Heads::picture_head))]
pub fn push_head(text: &mut Vec<u8>, title: &[u8], height: u32) -> Result<(), NoMemory>
    ensures ok { OnOk result (text.new.items ≡ text.old.items ++ picture_head title.now height) }
{
    push_size(text, u128::from(height))?;
    push_ground(text, u128::from(height))?;
    push_title(text, title)
}

/// How large a picture is.
fn push_size(text: &mut Vec<u8>, height: u128) -> Result<(), NoMemory>
    ensures ok { OnOk result (text.new.items ≡ text.old.items ++ size_text height) }
{
    push_piece(
        text,
        b"<svg xmlns='http://www.w3.org/2000/svg' version='1.1' width='830' height='",
        height / 10,
    )?;
    push_piece(text, b"' viewBox='0 0 8300 ", height)
}

/// How its words are set, and its ground.
fn push_ground(text: &mut Vec<u8>, height: u128) -> Result<(), NoMemory>
    ensures ok { OnOk result (text.new.items ≡ text.old.items ++ ground_text height) }
{
    push_words(
        text,
        b"' font-family='sans-serif' font-size='150' text-anchor='middle'>\n",
    )?;
    push_piece(text, b"<rect width='8300' fill='white' height='", height)?;
    push_words(text, b"'/>\n")
}

fn push_title(text: &mut Vec<u8>, title: &[u8]) -> Result<(), NoMemory>
    ensures ok { OnOk result (text.new.items ≡ text.old.items ++ title_text title.now) }
{
    push_words(text, b"<text x='3800' y='370' font-size='200'>")?;
    push_words(text, title)?;
    push_words(text, b"</text>\n")
}

/// The i-th panel.
#[tactic(auto, unfolding(crate::specs::Pictures::panel_shown))]
fn push_shown(
    text: &mut Vec<u8>,
    kind: Kind,
    table: &Table<'_>,
    start: u64,
    panel: Panel,
    i: u32,
) -> Result<(), NoMemory>
    requires few { i < 2 }
    ensures ok { OnOk result (text.new.items
        ≡ text.old.items ++ panel_shown kind table.now.header.now start table.now.points.now panel i) }
{
    let frame = frame_of(kind, start, table.points, panel);
    push_panel(text, 600 + 3300 * i, across_of(kind), &frame, table, panel)
}

/// The axes of a panel: all panels of a picture have one to the right.
fn frame_of(kind: Kind, start: u64, points: &[Point], panel: Panel) -> Frame
    ensures value { result ≡ frame_of kind start points.now panel }
{
    let most = highest(panel.first(), panel.count(), points);
    Frame {
        across: axis_of(
            right_unit(kind),
            leftmost(start, points),
            rightmost(start, points),
        ),
        up: axis_of(panel.unit(), 0, most),
        stems: has_stems(kind),
    }
}

/// Whether lines stand on the axis at each point.
fn has_stems(kind: Kind) -> bool
    ensures value { result ≡ has_stems kind }
{
    match kind {
        Kind::Messages => true,
        Kind::Cycles | Kind::Loads | Kind::Latencies | Kind::Compared => false,
    }
}

fn title_of(kind: Kind) -> &'static [u8]
    ensures value { result.now ≡ title_of kind }
{
    match kind {
        Kind::Cycles => b"What the router does in each petit cycle",
        Kind::Messages => b"How long messages took",
        Kind::Loads => b"Latency and throughput against load",
        Kind::Latencies => b"How long messages took under loads",
        Kind::Compared => b"Loads compared",
    }
}

/// What stands to the right.
fn across_of(kind: Kind) -> &'static [u8]
    ensures value { result.now ≡ across_label kind }
{
    match kind {
        Kind::Cycles => b"petit cycle",
        Kind::Messages | Kind::Latencies => b"petit cycles",
        Kind::Loads | Kind::Compared => b"messages that a chip offers in a petit cycle",
    }
}

/// What ticks to the right are multiples of, in thousandths.
fn right_unit(kind: Kind) -> u64
    ensures value { result ≡ right_unit kind }
    ensures some { 0 < result }
{
    match kind {
        Kind::Cycles | Kind::Messages | Kind::Latencies => 1000,
        Kind::Loads | Kind::Compared => 1,
    }
}
