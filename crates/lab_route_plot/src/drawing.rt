//! The picture of a route.

ghost use Rattle.std.specs.Prelude.{◌≡◌, ◌≢◌, ◌++◌, [], true, false, Some, Ok, Err, IfOk, IfErr, OnOk};
ghost use Rattle.std.specs.List.{flat_map};
ghost use Rattle.lab_plot.specs.Pictures.{head_fault};
ghost use Rattle.lab_plot.specs.Rows.{GivesPlot};
ghost use Rattle.lab_route_plot.specs.Drawing.{is_route, row_text, segment, leg_corner, referral, delivery, way_line};
ghost use Rattle.lab_route_plot.specs.Drawing.{begin_text, names_text, lines_text, route_panel_text, route_drawing};
ghost use Rattle.lab_route_plot.specs.Drawing.{of_legs};
ghost use Rattle.lab_route_plot.specs.Drawing.{route_or_table_picture};
ghost use Rattle.lab_route_plot.specs.Rows.{plan_seen};
ghost use Rattle.lab_route_plot.specs.Cycles.{are_all_cycles};
ghost use Rattle.lab_route_plot.specs.Legs.{legs_after};
ghost use Rattle.cm_bits.specs.Text.{lines_of};

use crate::legs::{Cycles, Leg, Step, read_legs};
use crate::rows::{Grid, grid_of, place_x, place_y, row_of};
use cm_bits::NoMemory;
use lab_digits::{push_piece, push_words};
use lab_plot::{
    PlotFault, colour, push_circle, push_cycle_ticks, push_head, push_line_open, push_name,
    push_place, push_sides, push_up, trim,
};
use std::alloc::Global;

/// The picture of a route of `cm1lab route`, of these petit cycles alone, or of a table, as an SVG.
#[tactic(auto, unfolding(crate::specs::Drawing::route_or_table_picture))]
pub fn plot(alloc: Global, text: &[u8], cycles: Cycles) -> Result<Vec<u8>, PlotFault>
    ensures value { IfOk result (λ picture. route_or_table_picture cycles text.now ≡ Ok picture.items) }
    ensures refused { IfErr result (λ fault. fault ≢ PlotFault.Memory
        → route_or_table_picture cycles text.now ≡ Err fault) }
    ensures no_route { is_route text.now ≡ false → are_all_cycles cycles ≡ false → result ≡ Err PlotFault.NoRoute }
    ensures head { (fault : PlotFault) → is_route text.now ≡ false → are_all_cycles cycles ≡ true
        → head_fault 1 (lines_of text.now) ≡ Some fault → result ≡ Err fault }
{
    if is_route(text) {
        return plot_route(alloc, text, cycles);
    }
    if !cycles.are_all() {
        return Err(PlotFault::NoRoute);
    }
    lab_plot::plot(alloc, text)
}

/// Whether a text begins as a route does, behind blanks.
fn is_route(text: &[u8]) -> bool
    ensures value { result ≡ is_route text.now }
{
    let text = trim(text);
    text.starts_with(b"cycle ") || text.starts_with(b"stands at ")
}

/// The picture of a route.
fn plot_route(alloc: Global, text: &[u8], cycles: Cycles) -> Result<Vec<u8>, PlotFault>
    ensures value { GivesPlot (λ picture. picture.items) result (of_legs (legs_after cycles 1 [] (lines_of text.now))) }
{
    match read_legs(alloc, text, cycles) {
        Ok(legs) => plot_legs(alloc, &legs),
        Err(fault) => Err(fault),
    }
}

/// That of its legs, if there are any.
fn plot_legs(alloc: Global, legs: &[Leg]) -> Result<Vec<u8>, PlotFault>
    ensures value { GivesPlot (λ picture. picture.items) result (of_legs (Ok legs.now)) }
{
    match legs {
        [] => Err(PlotFault::NoCycle),
        [first, ..] => Ok(drawing(alloc, first, legs)?),
    }
}

/// A picture of these legs, of which this is the first.
fn drawing(alloc: Global, first: &Leg, legs: &[Leg]) -> Result<Vec<u8>, NoMemory>
    ensures value { IfOk result (λ text. text.items ≡ route_drawing first.now legs.now) }
{
    let grid = grid_of(alloc, first.cycle, legs)?;
    let mut text = Vec::new(alloc);
    push_head(&mut text, b"The way of a message", 3900)?;
    push_panel(&mut text, &grid, first, legs)?;
    push_words(&mut text, b"</g>\n</svg>\n")?;
    Ok(text)
}

/// Its panel.
#[tactic(auto, unfolding(crate::specs::Drawing::route_panel_text))]
fn push_panel(text: &mut Vec<u8>, grid: &Grid, first: &Leg, legs: &[Leg]) -> Result<(), NoMemory>
    ensures ok { OnOk result (text.new.items ≡ text.old.items
        ++ route_panel_text (plan_seen grid.now) first.now legs.now) }
{
    push_place(text, 600)?;
    push_cycle_ticks(text, grid.across)?;
    push_rows(text, grid)?;
    push_sides(text, b"petit cycle", b"chip")?;
    push_lines(text, grid, legs)?;
    push_begin(text, grid, first)?;
    push_names(text, b"way,referred,begins,delivered")
}

/// A line for each row, and its chip, if there are not too many.
fn push_rows(text: &mut Vec<u8>, grid: &Grid) -> Result<(), NoMemory>
    ensures ok { OnOk result (text.new.items
        ≡ text.old.items ++ flat_map (row_text (plan_seen grid.now)) grid.now.rows.items) }
{
    for chip in &grid.rows {
        push_row(text, grid, *chip)?;
    }
    Ok(())
}

/// The line of a chip's row, or nothing: of many rows one in so many has one.
#[tactic(auto, unfolding(crate::specs::Drawing::row_text))]
fn push_row(text: &mut Vec<u8>, grid: &Grid, chip: u16) -> Result<(), NoMemory>
    ensures ok { OnOk result (text.new.items ≡ text.old.items ++ row_text (plan_seen grid.now) chip) }
{
    if row_of(grid, chip) % (grid.rows.len() / 16 + 1) != 0 {
        return Ok(());
    }
    push_up(text, place_y(grid, chip))?;
    push_piece(text, b"", chip)?;
    push_words(text, b"</text>\n")
}

/// The way, over it what was referred, and where the message was delivered.
#[tactic(auto, unfolding(crate::specs::Drawing::lines_text))]
fn push_lines(text: &mut Vec<u8>, grid: &Grid, legs: &[Leg]) -> Result<(), NoMemory>
    ensures ok { OnOk result (text.new.items ≡ text.old.items ++ lines_text (plan_seen grid.now) legs.now) }
{
    push_way(text, grid, legs)?;
    push_referrals(text, grid, legs)?;
    push_deliveries(text, grid, legs)
}

#[tactic(auto, unfolding(crate::specs::Drawing::way_line))]
fn push_way(text: &mut Vec<u8>, grid: &Grid, legs: &[Leg]) -> Result<(), NoMemory>
    ensures ok { OnOk result (text.new.items ≡ text.old.items ++ way_line (plan_seen grid.now) legs.now) }
{
    push_line_open(text, colour(0))?;
    push_corners(text, grid, legs)?;
    push_words(text, b"'/>\n")
}

fn push_corners(text: &mut Vec<u8>, grid: &Grid, legs: &[Leg]) -> Result<(), NoMemory>
    ensures ok { OnOk result (text.new.items ≡ text.old.items ++ flat_map (leg_corner (plan_seen grid.now)) legs.now) }
{
    for leg in legs {
        push_segment(text, grid, leg, b" ", b" ")?;
    }
    Ok(())
}

/// Lines where the message was referred.
fn push_referrals(text: &mut Vec<u8>, grid: &Grid, legs: &[Leg]) -> Result<(), NoMemory>
    ensures ok { OnOk result (text.new.items ≡ text.old.items ++ flat_map (referral (plan_seen grid.now)) legs.now) }
{
    for leg in legs {
        push_referral(text, grid, leg)?;
    }
    Ok(())
}

#[tactic(auto, unfolding(crate::specs::Drawing::referral))]
fn push_referral(text: &mut Vec<u8>, grid: &Grid, leg: &Leg) -> Result<(), NoMemory>
    ensures ok { OnOk result (text.new.items ≡ text.old.items ++ referral (plan_seen grid.now) leg.now) }
{
    match leg.step {
        Step::Referred => {
            push_line_open(text, colour(1))?;
            push_segment(text, grid, leg, b"", b" ")?;
            push_words(text, b"'/>\n")
        }
        Step::Wanted | Step::Delivered => Ok(()),
    }
}

/// The two ends of a leg, behind these words.
fn push_segment(
    text: &mut Vec<u8>,
    grid: &Grid,
    leg: &Leg,
    before: &[u8],
    between: &[u8],
) -> Result<(), NoMemory>
    ensures ok { OnOk result (text.new.items
        ≡ text.old.items ++ segment (plan_seen grid.now) before.now between.now leg.now) }
{
    push_piece(text, before, place_x(grid, leg.cycle, leg.start))?;
    push_piece(text, b",", place_y(grid, leg.from))?;
    push_piece(text, between, place_x(grid, leg.cycle, leg.end))?;
    push_piece(text, b",", place_y(grid, leg.to))
}

/// A dot where the message was delivered.
fn push_deliveries(text: &mut Vec<u8>, grid: &Grid, legs: &[Leg]) -> Result<(), NoMemory>
    ensures ok { OnOk result (text.new.items ≡ text.old.items ++ flat_map (delivery (plan_seen grid.now)) legs.now) }
{
    for leg in legs {
        push_delivery(text, grid, leg)?;
    }
    Ok(())
}

fn push_delivery(text: &mut Vec<u8>, grid: &Grid, leg: &Leg) -> Result<(), NoMemory>
    ensures ok { OnOk result (text.new.items ≡ text.old.items ++ delivery (plan_seen grid.now) leg.now) }
{
    match leg.step {
        Step::Delivered => {
            let x = place_x(grid, leg.cycle, leg.end);
            push_circle(text, x, place_y(grid, leg.to), colour(3))
        }
        Step::Wanted | Step::Referred => Ok(()),
    }
}

/// A dot where the way begins.
fn push_begin(text: &mut Vec<u8>, grid: &Grid, first: &Leg) -> Result<(), NoMemory>
    ensures ok { OnOk result (text.new.items ≡ text.old.items ++ begin_text (plan_seen grid.now) first.now) }
{
    let x = place_x(grid, first.cycle, first.start);
    push_circle(text, x, place_y(grid, first.from), colour(2))
}

/// What the colours of lines and dots say.
#[tactic(auto, unfolding(crate::specs::Drawing::names_text))]
fn push_names(text: &mut Vec<u8>, names: &[u8]) -> Result<(), NoMemory>
    ensures ok { OnOk result (text.new.items ≡ text.old.items ++ names_text names.now) }
{
    push_name(text, names, 0, 0)?;
    push_name(text, names, 1, 1)?;
    push_name(text, names, 2, 2)?;
    push_name(text, names, 3, 3)
}
