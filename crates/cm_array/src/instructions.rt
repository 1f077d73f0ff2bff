//! Instructions in a part of a machine, and what its edges send and take in.

ghost use Rattle.std.specs.Prelude.{◌≡◌, ◌⊎◌, ℕ, ◌<◌, ◌^◌, ◌/◌, IsTrue, length, slice_index};
ghost use Rattle.cm_model.specs.Place.{chip_columns};
ghost use Rattle.cm_model.specs.Steps.{Instruct};
ghost use Rattle.cm_blocks.specs.Rounds.{is_vertical};
ghost use Rattle.cm_blocks.specs.Parcels.{Edge, due};
ghost use Rattle.cm_blocks.specs.Steps.{part_after};
ghost use Rattle.cm_news.specs.Bands.{edge_bits};
ghost use Rattle.cm_array.specs.Bands.{IsBand, IsAlone};

use crate::part::Part;
use crate::stepping::{step_in_band, write_edge};
use cm_model::Nano;

impl Part {
    /// One instruction. If something comes in over NEWS from outside, `edge` has it: by column of chips the four bits
    /// that come in there, the lowest column's lowest.
    pub fn instruct(&mut self, nano: &Nano, edge: &[u8])
        requires band { IsBand self.old.dims self.old.part }
        requires lanes { IsAlone self.old.dims self.old.part nano.now ⊎ length edge.now ≡ chip_columns self.old.dims }
        ensures value { self.new ≡ record self.old {
          part = part_after self.old.dims self.old.room (Instruct nano.now) (Edge (edge_bits edge.now)) self.old.part;
        } }
    {
        step_in_band(
            self.state.shape.dims,
            &mut self.state.run,
            nano,
            edge,
            &mut self.state.sent,
            &mut self.state.incoming,
        );
    }

    /// What the row of processors at its edge sends northward or southward at an instruction: by column of chips
    /// the four bits that go out there, the lowest column's lowest.
    pub fn edge(&mut self, nano: &Nano, out: &mut [u8])
        requires band { IsBand self.old.dims self.old.part }
        requires vertical { IsTrue (is_vertical nano.now.dir) }
        requires lanes { length out.old ≡ chip_columns self.old.dims }
        ensures value { Edge (edge_bits out.new) ≡ due self.old.dims self.old.room (Instruct nano.now) self.old.part }
        ensures within { (k : ℕ) → k < length out.new → slice_index out.new k < 16 }
        ensures others { self.new ≡ self.old }
    {
        self.state.run.send(nano, &mut self.state.sent);
        write_edge(&self.state.sent, nano.dir, out);
    }
}
