//! Posts: what a block has for the rounds.

ghost use Rattle.std.specs.Prelude.{◌≡◌, ◌-◌, ◌/◌, ◌≤◌, IfOk};
ghost use Rattle.cm_workers.specs.Posts.{blank_post};

use cm_bits::NoMemory;
use cm_subcube::{Kind, Parcel};
use std::alloc::Global;

/// A parcel of each sort: what a block sends in a round goes in one of them, and what comes for it.
#[derive(Drop)]
pub struct Post {
    /// For the rounds over a dimension.
    pub(crate) mail: Parcel,
    /// For the rounds over NEWS.
    pub(crate) edge: Parcel,
}

impl Post {
    /// One with nothing in it, for the blocks of a cube of so many dimensions that is cut into 2^`k`.
    pub fn blank(alloc: Global, dims: u8, k: u8) -> Result<Post, NoMemory>
        requires dimension { dims ≤ 12 }
        requires within { k ≤ dims - dims / 2 }
        ensures value { IfOk result (λ post. post ≡ blank_post dims k) }
    {
        let mail = Parcel::blank(alloc, dims, k, Kind::Dim(0))?;
        let edge = Parcel::blank(alloc, dims, k, Kind::North)?;
        Ok(Post { mail, edge })
    }
}
