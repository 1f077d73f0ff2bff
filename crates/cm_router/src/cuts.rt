//! The cut wires of a cube.

ghost use Rattle.std.specs.Prelude.{◌≡◌, ℕ, ◌<◌, ◌≤◌, ◌==◌, ◌&&◌, ◌||◌, ◌^◌, [], length, bit_xor, vec_capacity, IfOk};
ghost use Rattle.std.specs.List.{All, list_any, insert};
ghost use Rattle.cm_bits.specs.Bit.{bit};
ghost use Rattle.cm_model.specs.Wiring.{wire_before, AreRising, IsWireOf};
ghost use Rattle.cm_router.specs.Cuts.{most_wires, wire_put, with_wire, has_wire, is_cut_at, AreWires};

use cm_bits::{Edge, NoMemory};
use std::alloc::Global;
use std::marker::Model;

/// Which wires of a cube are cut (ours).
///
/// Contracts see the cube's dimensions and the wires, each once and in their order.
#[derive(Drop)]
pub struct Cuts {
    dims: u8,
    /// In their order, with places for all wires of the cube.
    edges: Vec<Edge>,
    /// The same by chip: bit d is 1 where its wire over dimension d is cut. There are none before the first wire is
    /// cut, and places for all chips.
    rows: Vec<u16>,
    /// Bit d is 1 where any wire over dimension d is cut.
    over: u16,
}

impl Model for Cuts {
    ghost use Rattle.cm_router.specs.Cuts.{CubeCuts, AreCuts};

    ghost Value = { CubeCuts };

    ghost view = { λ cuts. record { dims = cuts.dims; wires = cuts.edges.items } };

    ghost invariant = { λ cuts. AreCuts cuts.dims cuts.edges cuts.rows cuts.over };
}

impl Cuts {
    /// Of a cube of so many dimensions no wire is cut.
    pub fn blank(alloc: Global, dims: u8) -> Result<Cuts, NoMemory>
        requires dimensions { dims ≤ 12 }
        ensures value { IfOk result (λ cuts. cuts ≡ record { dims = dims; wires = [] }) }
    {
        Ok(Cuts {
            dims,
            edges: Vec::with_capacity(alloc, most_wires(dims))?,
            rows: Vec::with_capacity(alloc, 1 << dims)?,
            over: 0,
        })
    }

    /// The same wires once more.
    pub fn copy(&self) -> Result<Cuts, NoMemory>
        ensures value { IfOk result (λ cuts. cuts ≡ self.now) }
    {
        let mut edges = self.edges.clone()?;
        edges.reserve(most_wires(self.dims))?;
        let mut rows = Vec::with_capacity(*self.rows.allocator(), 1 << self.dims)?;
        rows.extend_from_slice(&self.rows)?;
        Ok(Cuts {
            dims: self.dims,
            edges,
            rows,
            over: self.over,
        })
    }

    /// Cuts a wire: from now on nobody crosses it in either direction.
    pub fn add(&mut self, edge: Edge)
        requires chip { edge.chip < 2 ^ self.old.dims }
        requires dimension { edge.dim < self.old.dims }
        ensures value { self.new ≡ record self.old { wires = with_wire edge self.old.wires } }
    {
        let chip = edge.chip();
        let dim = edge.dim();
        if self.has(chip, dim) {
            return;
        }
        put(&mut self.edges, edge);
        make_rows(&mut self.rows, 1 << self.dims);
        let chip = usize::from(chip);
        cut_end(&mut self.rows, chip, dim);
        cut_end(&mut self.rows, other_end(chip, dim), dim);
        self.over |= 1 << dim;
    }

    /// Takes over the wires that are cut elsewhere, in place of its own. No memory is taken.
    pub fn copy_from(&mut self, other: &Cuts)
        requires within { All (IsWireOf self.old.dims) other.now.wires }
        ensures value { self.new ≡ record self.old { wires = other.now.wires } }
    {
        self.clear();
        let edges = other.edges();
        for edge in edges {
            self.add(*edge);
        }
    }

    /// No wire is cut any more.
    fn clear(&mut self)
        ensures value { self.new ≡ record self.old { wires = [] } }
    {
        if self.edges.is_empty() {
            return;
        }
        self.edges.clear();
        self.rows.clear();
        self.over = 0;
    }

    /// Whether the wire of a chip over a dimension is cut, asked at either of its ends.
    pub fn has(&self, chip: u16, dim: u8) -> bool
        requires chip { chip < 2 ^ self.now.dims }
        requires dimension { dim < self.now.dims }
        ensures value { result ≡ has_wire self.now.wires chip dim }
        ensures both_ends { result ≡ has_wire self.now.wires (bit_xor chip (2 ^ dim)) dim }
    {
        has_bit(self.row(chip), dim)
    }

    /// Which wires of a chip are cut: bit d is 1 where the one over dimension d is.
    fn row(&self, chip: u16) -> u16
        ensures value { (d : ℕ) → bit result d ≡ has_wire self.now.wires chip d }
        ensures whole { AreWires self.now }
    {
        match self.rows.get(usize::from(chip)) {
            Some(row) => *row,
            None => 0,
        }
    }

    /// Whether any wire over a dimension is cut.
    pub fn has_any(&self, dim: u8) -> bool
        requires dimension { dim < self.now.dims }
        ensures value { result ≡ list_any (λ w. w.dim == dim) self.now.wires }
    {
        has_bit(self.over, dim)
    }

    /// The wires that are cut, each once and in their order.
    pub fn edges(&self) -> &[Edge]
        ensures value { result.now ≡ self.now.wires }
        ensures whole { AreWires self.now }
    {
        self.edges.as_slice()
    }

    /// Of how many dimensions the cube is.
    pub fn dims(&self) -> u8
        ensures value { result ≡ self.now.dims }
        ensures whole { AreWires self.now }
    {
        self.dims
    }
}

/// How many wires a cube of so many dimensions has.
fn most_wires(dims: u8) -> usize
    requires dimensions { dims ≤ 12 }
    ensures value { result ≡ most_wires dims }
{
    usize::from(dims) * (1 << dims) / 2
}

/// Puts an edge in its place among those that stand in their order. There is a place left.
fn put(edges: &mut Vec<Edge>, edge: Edge)
    requires room { length edges.old.items < vec_capacity edges.old }
    requires rising { AreRising edges.old.items }
    ensures value { edges.new.items ≡ wire_put edge edges.old.items }
    ensures capacity { vec_capacity edges.old ≤ vec_capacity edges.new }
{
    let place = place_among(edges, edge);
    edges.insert(place, edge).unwrap();
}

/// How many of the edges, which stand in their order, stand before this one.
fn place_among(edges: &[Edge], edge: Edge) -> usize
    requires rising { AreRising edges.now }
    ensures within { result ≤ length edges.now }
    ensures value { insert edges.now result edge ≡ wire_put edge edges.now }
{
    let mut place = edges.len();
    while place > 0 && !stands_before(edges[place - 1], edge) {
        place -= 1;
    }
    place
}

/// Whether an edge stands before another: by chip, and then by dimension.
fn stands_before(edge: Edge, other: Edge) -> bool
    ensures value { result ≡ wire_before edge other }
{
    edge.chip() < other.chip() || edge.chip() == other.chip() && edge.dim() < other.dim()
}

/// Makes rows of bits that are 0 for all chips, so many, that have none. There are places for them.
fn make_rows(rows: &mut Vec<u16>, chips: usize)
    requires few { length rows.old.items ≤ chips }
    requires places { chips ≤ vec_capacity rows.old }
    ensures count { length rows.new.items ≡ chips }
    ensures capacity { vec_capacity rows.old ≤ vec_capacity rows.new }
    ensures value { (c d : ℕ) → is_cut_at rows.new.items c d ≡ is_cut_at rows.old.items c d }
{
    rows.resize(chips, 0).unwrap();
}

/// Cuts a wire at one of its ends.
fn cut_end(rows: &mut Vec<u16>, chip: usize, dim: u8)
    requires chip { chip < length rows.old.items }
    requires dimension { dim < 12 }
    ensures count { length rows.new.items ≡ length rows.old.items }
    ensures capacity { vec_capacity rows.old ≤ vec_capacity rows.new }
    ensures value { (c d : ℕ) →
        is_cut_at rows.new.items c d ≡ ((c == chip && d == dim) || is_cut_at rows.old.items c d) }
{
    rows[chip] |= 1 << dim;
}

/// Whether bit `dim` of these is 1.
fn has_bit(bits: u16, dim: u8) -> bool
    requires dimension { dim < 12 }
    ensures value { result ≡ bit bits dim }
{
    bits >> dim & 1 == 1
}

fn other_end(chip: usize, dim: u8) -> usize
    requires dimension { dim < 12 }
    ensures value { result ≡ bit_xor chip (2 ^ dim) }
{
    chip ^ 1 << dim
}
