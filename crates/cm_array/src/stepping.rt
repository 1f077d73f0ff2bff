//! One instruction in all chips, or in those of a band: every place reads the old state before any place writes.

ghost use Rattle.std.specs.Prelude.{◌≡◌, ℕ, ◌+◌, ◌/◌, ◌^◌, ◌<◌, ◌≤◌, IsTrue, length, slice_index};
ghost use Rattle.cm_model.specs.Place.{chip_columns};
ghost use Rattle.cm_model.specs.Processor.{NEWS};
ghost use Rattle.cm_model.specs.Array.{after_nano};
ghost use Rattle.cm_news.specs.Bands.{AreWholeRows, is_open};
ghost use Rattle.cm_array.specs.Bands.{IsStepped, edge_from, IsEdgeOf};

use cm_bits::{Dir, FlagNo, Plane};
use cm_element::Run;
use cm_model::Nano;
use cm_news::{Grid, incoming_band};

/// One instruction in all chips of a cube of so many dimensions, which stand in the run by number. The other rows
/// are working room, one plane for each chip.
pub fn step(dims: u8, run: &mut Run, nano: &Nano, sent: &mut [Plane], incoming: &mut [Plane])
    requires dimension { dims ≤ 12 }
    requires count { length run.old ≡ 2 ^ dims }
    requires sent_count { length sent.old ≡ 2 ^ dims }
    requires incoming_count { length incoming.old ≡ 2 ^ dims }
    ensures value { run.new ≡ after_nano dims nano.now run.old }
{
    step_in_band(dims, run, nano, &[], sent, incoming);
}

/// One instruction in a band of whole rows of chips, of a cube of so many dimensions, which stand in the run by
/// number. What comes in over NEWS from outside stands in `edge`, by column of chips. The other rows are working
/// room, one plane for each chip.
pub(crate) fn step_in_band(
    dims: u8,
    run: &mut Run,
    nano: &Nano,
    edge: &[u8],
    sent: &mut [Plane],
    incoming: &mut [Plane],
)
    requires dimension { dims ≤ 12 }
    requires rows { AreWholeRows dims (length run.old) }
    requires some { 0 < length run.old }
    requires edge { nano.now.write ≡ NEWS → IsTrue (is_open dims nano.now.dir (length run.old))
        → length edge.now ≡ chip_columns dims }
    requires sent_count { length sent.old ≡ length run.old }
    requires incoming_count { length incoming.old ≡ length run.old }
    ensures value { IsStepped dims nano.now edge.now run.old run.new }
{
    if nano.write == FlagNo::NEWS {
        step_in_band_over_grid(dims, run, nano, edge, sent, incoming);
    } else {
        run.step(nano);
    }
}

/// One instruction that takes in what comes over NEWS: what each chip sends is written down first.
fn step_in_band_over_grid(
    dims: u8,
    run: &mut Run,
    nano: &Nano,
    edge: &[u8],
    sent: &mut [Plane],
    incoming: &mut [Plane],
)
    requires dimension { dims ≤ 12 }
    requires news { nano.now.write ≡ NEWS }
    requires rows { AreWholeRows dims (length run.old) }
    requires some { 0 < length run.old }
    requires edge { IsTrue (is_open dims nano.now.dir (length run.old)) → length edge.now ≡ chip_columns dims }
    requires sent_count { length sent.old ≡ length run.old }
    requires incoming_count { length incoming.old ≡ length run.old }
    ensures value { IsStepped dims nano.now edge.now run.old run.new }
{
    run.send(nano, sent);
    incoming_band(dims, sent, nano.dir, edge, incoming);
    run.take(nano, incoming);
}

/// Of the planes that the chips of a band send northward or southward, what goes out over its edge: by column of
/// chips four bits.
pub(crate) fn write_edge(sent: &[Plane], dir: Dir, out: &mut [u8])
    requires row { length out.old ≤ length sent.now }
    ensures value { IsEdgeOf dir sent.now out.new }
    ensures within { (k : ℕ) → k < length out.new → slice_index out.new k < 16 }
{
    let from = edge_from(dir, sent.len(), out.len());
    for k in 0..out.len() {
        out[k] = Grid::<0>::edge(sent[from + k], dir);
    }
}

/// Where the row of chips at the edge begins, in a band of so many chips with so many in a row.
fn edge_from(dir: Dir, all: usize, wide: usize) -> usize
    requires row { wide ≤ all }
    ensures value { result ≡ edge_from dir all wide }
    ensures within { result + wide ≤ all }
{
    match dir {
        Dir::South => all - wide,
        _ => 0,
    }
}
