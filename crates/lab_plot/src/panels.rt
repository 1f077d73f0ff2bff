//! Panels of a picture.

ghost use Rattle.std.specs.Prelude.{◌≡◌, ◌++◌, ◌<◌, ◌≤◌, OnOk};
ghost use Rattle.lab_plot.specs.Panels.{box_text, below_text, left_text, sides_text, place_text, panel_text};
ghost use Rattle.lab_plot.specs.Shown.{label_of, first_column, columns_shown, unit_of};

use crate::axes::Axis;
use crate::cells::{behind, cell, push_shortened};
use crate::lines::push_curves;
use crate::points::Point;
use crate::ticks::push_ticks;
use cm_bits::NoMemory;
use lab_digits::{push_piece, push_words};

/// The axes of a panel.
#[derive(Clone, Copy)]
pub(crate) struct Frame {
    pub across: Axis,
    pub up: Axis,
    /// Whether lines stand on the axis at each point.
    pub stems: bool,
}

/// What a panel shows.
#[derive(Clone, Copy)]
pub(crate) enum Panel {
    /// Messages of a petit cycle.
    Moved,
    /// Routers that are full, processors that ask.
    Held,
    Latency,
    Throughput,
    /// How many messages took how long.
    Bins,
    /// The same under loads of so many rates, of which nine are shown.
    Took(usize),
    /// So many columns that are compared, of which nine are shown.
    Columns(usize),
}

impl Panel {
    /// What stands upward.
    fn label(self, header: &[u8]) -> &[u8]
        ensures value { result.now ≡ label_of self header.now }
    {
        match self {
            Panel::Moved | Panel::Bins | Panel::Took(_) => b"messages",
            Panel::Held => b"routers, processors",
            Panel::Latency => b"latency in petit cycles",
            Panel::Throughput => b"throughput of a chip",
            Panel::Columns(_) => behind(b':', cell(header, 0)),
        }
    }

    /// The first column that it shows.
    pub fn first(self) -> usize
        ensures value { result ≡ first_column self }
        ensures within { result ≤ 5 }
    {
        match self {
            Panel::Moved | Panel::Bins | Panel::Took(_) | Panel::Columns(_) => 1,
            Panel::Held | Panel::Latency => 5,
            Panel::Throughput => 4,
        }
    }

    /// How many columns it shows.
    pub fn count(self) -> usize
        ensures value { result ≡ columns_shown self }
        ensures within { result ≤ 9 }
    {
        match self {
            Panel::Moved => 4,
            Panel::Held | Panel::Latency => 2,
            Panel::Throughput | Panel::Bins => 1,
            Panel::Took(count) | Panel::Columns(count) => count.min(9),
        }
    }

    /// What ticks upward are multiples of, in thousandths.
    pub fn unit(self) -> u64
        ensures value { result ≡ unit_of self }
        ensures some { 0 < result }
    {
        match self {
            Panel::Moved | Panel::Held | Panel::Bins | Panel::Took(_) => 1000,
            Panel::Latency | Panel::Throughput | Panel::Columns(_) => 1,
        }
    }
}

/// What a table has: its first line, and its points.
#[derive(Clone, Copy)]
pub(crate) struct Table<'a> {
    pub(crate) header: &'a [u8],
    pub(crate) points: &'a [Point],
}

/// A panel at this height of a picture.
#[tactic(auto, unfolding(crate::specs::Panels::panel_text))]
pub(crate) fn push_panel(
    text: &mut Vec<u8>,
    top: u32,
    across: &[u8],
    frame: &Frame,
    table: &Table<'_>,
    panel: Panel,
) -> Result<(), NoMemory>
    ensures ok { OnOk result (text.new.items
        ≡ text.old.items ++ panel_text top across.now frame.now table.now.header.now table.now.points.now panel) }
{
    push_place(text, u128::from(top))?;
    push_ticks(text, frame)?;
    push_sides(text, across, panel.label(table.header))?;
    push_curves(text, frame, table.header, table.points, panel)?;
    push_words(text, b"</g>\n")
}

/// How a panel at this height of a picture begins.
#[tactic(auto, unfolding(crate::specs::Panels::place_text))]
pub fn push_place(text: &mut Vec<u8>, top: u128) -> Result<(), NoMemory>
    ensures ok { OnOk result (text.new.items ≡ text.old.items ++ place_text top) }
{
    push_piece(text, b"<g transform='translate(1000,", top)?;
    push_words(text, b")'>\n")
}

/// The sides of a panel, and what is written along them: to the right, and upward.
#[tactic(auto, unfolding(crate::specs::Panels::sides_text))]
pub fn push_sides(text: &mut Vec<u8>, across: &[u8], label: &[u8]) -> Result<(), NoMemory>
    ensures ok { OnOk result (text.new.items ≡ text.old.items ++ sides_text across.now label.now) }
{
    push_box(text)?;
    push_below(text, across)?;
    push_left(text, label)
}

#[tactic(auto, unfolding(crate::specs::Panels::box_text))]
fn push_box(text: &mut Vec<u8>) -> Result<(), NoMemory>
    ensures ok { OnOk result (text.new.items ≡ text.old.items ++ box_text) }
{
    push_words(
        text,
        b"<rect width='5600' height='2400' fill='none' stroke='black' stroke-width='10'/>\n",
    )
}

/// What stands below.
fn push_below(text: &mut Vec<u8>, across: &[u8]) -> Result<(), NoMemory>
    ensures ok { OnOk result (text.new.items ≡ text.old.items ++ below_text across.now) }
{
    push_words(text, b"<text x='2800' y='2850'>")?;
    push_words(text, across)?;
    push_words(text, b"</text>\n")
}

/// What stands on the left.
fn push_left(text: &mut Vec<u8>, label: &[u8]) -> Result<(), NoMemory>
    ensures ok { OnOk result (text.new.items ≡ text.old.items ++ left_text label.now) }
{
    push_words(text, b"<text transform='translate(-750,1200)rotate(-90)'>")?;
    push_shortened(text, 32, label)?;
    push_words(text, b"</text>\n")
}
