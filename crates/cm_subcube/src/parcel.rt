//! What blocks send one another.

ghost use Rattle.std.specs.Prelude.{◌≡◌, ◌-◌, ◌/◌, ◌≤◌, ◌^◌, false, None, IfOk};
ghost use Rattle.cm_model.specs.Each.{tabulate};
ghost use Rattle.cm_model.specs.Place.{columns};
ghost use Rattle.cm_news.specs.Bands.{edge_bits};
ghost use Rattle.cm_subcube.specs.Parcels.{blank_parcel};

use crate::round::Kind;
use cm_bits::NoMemory;
use cm_message::Message;
use std::alloc::Global;
use std::marker::Model;

/// What one block sends another in a round.
///
/// Contracts see a parcel of cm_blocks: by place of a chip a message or none, or by column of the grid a bit.
#[derive(Drop)]
pub struct Parcel {
    pub(crate) load: Load,
}

#[derive(Drop)]
pub(crate) enum Load {
    /// By place of a chip of the sender, what leaves it.
    Mail(Vec<Option<Message>>),
    /// By column of chips, the four bits that leave the edge there, the lowest column's lowest.
    Edge(Vec<u8>),
}

impl Model for Parcel {
    ghost use Rattle.cm_blocks.specs.Parcels.{Parcel as Sent};
    ghost use Rattle.cm_subcube.specs.Parcels.{parcel_of};

    ghost Value = { Sent };

    ghost view = { λ parcel. parcel_of parcel.load };
}

impl Parcel {
    /// One without a message or a bit, for the blocks of a cube of so many dimensions that is cut into 2^`k`.
    pub fn blank(alloc: Global, dims: u8, k: u8, kind: Kind) -> Result<Parcel, NoMemory>
        requires dimension { dims ≤ 12 }
        requires within { k ≤ dims - dims / 2 }
        ensures value { IfOk result (λ parcel. parcel ≡ blank_parcel dims k kind) }
    {
        let load = match kind {
            Kind::North => Load::Edge(no_bits(alloc, dims)?),
            Kind::South => Load::Edge(no_bits(alloc, dims)?),
            Kind::Dim(_dim) => Load::Mail(no_messages(alloc, dims - k)?),
        };
        Ok(Parcel { load })
    }
}

/// Nothing for each of 2^`span` chips.
fn no_messages(alloc: Global, span: u8) -> Result<Vec<Option<Message>>, NoMemory>
    requires few { span ≤ 12 }
    ensures value { IfOk result (λ lane. lane.items ≡ tabulate 0 (2 ^ span) (λ place. None)) }
{
    let count: usize = 1 << span;
    Ok((0..count).map(|_| None).collect(alloc)?)
}

/// No bit for each column of chips.
fn no_bits(alloc: Global, dims: u8) -> Result<Vec<u8>, NoMemory>
    requires few { dims ≤ 12 }
    ensures value { IfOk result (λ row. edge_bits row.items ≡ tabulate 0 (columns dims) (λ column. false)) }
{
    let count = 1 << dims / 2;
    Ok(vec![in alloc; 0; count]?)
}
