//! What a block does in a round: it fills a parcel for another block, and absorbs one that came.

ghost use Rattle.std.specs.Prelude.{◌≡◌};
ghost use Rattle.cm_blocks.specs.Parcels.{due};
ghost use Rattle.cm_blocks.specs.Steps.{less, absorbed};
ghost use Rattle.cm_subcube.specs.Rounds.{step_of};
ghost use Rattle.cm_subcube.specs.Parcels.{blank_parcel, IsExchange, IsOfKind, HaveSpaceFor, HasRoomFor};

use crate::block::Block;
use crate::parcel::{Load, Parcel};
use crate::round::{Kind, Round};
use cm_model::Act;

impl Block {
    /// Puts what is due into a blank parcel: in a round over a dimension what leaves each chip, without which the
    /// block is until a parcel is absorbed; over NEWS what its edge sends.
    pub fn fill(&mut self, round: &Round, parcel: &mut Parcel)
        requires exchange { IsExchange self.old.kept.dims self.old.k round.now }
        requires blank { parcel.old ≡ blank_parcel self.old.kept.dims self.old.k round.now.kind }
        ensures sent { parcel.new ≡ due self.old.kept.dims self.old.kept.room (step_of round.now) self.old.kept.part }
        ensures rest { self.new.kept ≡ record self.old.kept {
          part = less self.old.kept.room (step_of round.now) self.old.kept.part;
          gathered = self.new.kept.gathered;
        } }
        ensures blocks { self.new.k ≡ self.old.k }
        ensures space { HaveSpaceFor round.now.kind self.new.kept.room self.new.kept.part }
    {
        match &mut parcel.load {
            Load::Mail(mail) => {
                let Kind::Dim(dim) = round.kind else {
                    unreachable!()
                };
                self.part.leave(dim, mail);
            }
            Load::Edge(edge) => {
                let Act::Nano(nano) = &round.act else {
                    unreachable!()
                };
                self.part.edge(nano, edge);
            }
        }
    }

    /// Takes in what stands in a parcel, which is blank then. Each chip has room for a message that comes to it.
    pub fn absorb(&mut self, round: &Round, parcel: &mut Parcel)
        requires exchange { IsExchange self.old.kept.dims self.old.k round.now }
        requires lanes { IsOfKind self.old.kept.dims self.old.k round.now.kind parcel.old }
        requires space { HasRoomFor round.now.kind self.old.kept.room self.old.kept.part parcel.old }
        ensures value { self.new.kept ≡ record self.old.kept {
          part = absorbed self.old.kept.dims self.old.kept.room (step_of round.now) parcel.old self.old.kept.part;
          gathered = self.new.kept.gathered;
        } }
        ensures blocks { self.new.k ≡ self.old.k }
        ensures blank { parcel.new ≡ blank_parcel self.old.kept.dims self.old.k round.now.kind }
    {
        match &mut parcel.load {
            Load::Mail(mail) => self.part.take_in(mail),
            Load::Edge(edge) => {
                let Act::Nano(nano) = &round.act else {
                    unreachable!()
                };
                self.part.instruct(nano, edge);
                edge.fill(0);
            }
        }
    }
}
