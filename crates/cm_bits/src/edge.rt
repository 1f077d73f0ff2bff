//! Edges of the cube.

ghost use Rattle.std.specs.Prelude.{◌≡◌, ℕ, ◌<◌, ◌↔◌, IsSome, IfSome};
ghost use Rattle.cm_bits.specs.Wire.{IsWire};

use std::marker::Model;

/// An edge of a cube of twelve dimensions, over which two chips are joined whose numbers differ in one bit. It is
/// named by that bit and by the chip where it is 0.
#[derive(Clone, Copy, PartialEq, Eq)]
pub struct Edge {
    lower: u16,
    over: u8,
}

impl Model for Edge {
    ghost use Rattle.cm_bits.specs.Wire.{Wire, IsWire};

    ghost Value = { Wire };

    ghost view = { λ edge. record { chip = edge.lower; dim = edge.over } };

    ghost invariant = { λ edge. IsWire (record { chip = edge.lower; dim = edge.over }) };

    ghost inverse = { λ wire. record { lower = wire.chip; over = wire.dim } };
}

impl Edge {
    /// None where there is no such edge, or the chip is its other end.
    pub fn new(chip: u16, dim: u8) -> Option<Edge>
        ensures is_edge { IsSome result ↔ IsWire (record { chip = chip; dim = dim }) }
        ensures value { IfSome result (λ edge. edge ≡ record { chip = chip; dim = dim }) }
    {
        if dim > 11 || chip > 4095 || chip >> dim & 1 == 1 {
            None
        } else {
            Some(Edge {
                lower: chip,
                over: dim,
            })
        }
    }

    /// The chip at its lower end.
    pub fn chip(self) -> u16
        ensures value { result ≡ self.chip }
        ensures whole { IsWire self }
    {
        self.lower
    }

    /// The dimension that the wire crosses, 0 to 11.
    pub fn dim(self) -> u8
        ensures value { result ≡ self.dim }
        ensures within { result < 12 }
    {
        self.over
    }
}
