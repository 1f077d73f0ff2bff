//! A plain world, of numbers alone: what each round goes over, and how many steps each block took.

use cm_bits::{Dir, FlagNo};
use cm_exchange::Step;
use cm_model::Act;
use std::alloc::{AllocError, Global};

/// Over what a round goes; across a dimension to the block whose number differs in this bit.
#[derive(Clone, Copy, PartialEq, Eq)]
enum Way {
    North,
    South,
    Across(u16),
}

#[derive(Drop)]
pub(crate) struct PlainWorld {
    blocks: u16,
    /// By round.
    ways: Vec<Way>,
    /// By block, how many steps it took, four of them in a round.
    taken: Vec<usize>,
}

/// What each round goes over that 2^`k` blocks of 2^`dims` chips go through.
fn ways_of(alloc: Global, dims: u8, k: u8, acts: &[Act]) -> Result<Vec<Way>, AllocError> {
    let mut ways = Vec::new(alloc);
    for act in acts {
        match act {
            Act::Nano(nano) if nano.write == FlagNo::NEWS => match nano.dir {
                Dir::North => ways.push(Way::North)?,
                Dir::South => ways.push(Way::South)?,
                Dir::East | Dir::West => {}
            },
            Act::Cycle => {
                for place in 0..u32::from(k.min(dims)) {
                    ways.push(Way::Across(1u16.wrapping_shl(place)))?;
                }
            }
            _ => {}
        }
    }
    Ok(ways)
}

impl PlainWorld {
    pub(crate) fn new(
        alloc: Global,
        dims: u8,
        k: u8,
        acts: &[Act],
    ) -> Result<PlainWorld, AllocError> {
        let blocks = 1u16.wrapping_shl(u32::from(k));
        let ways = if k == 0 {
            Vec::new(alloc)
        } else {
            ways_of(alloc, dims, k, acts)?
        };
        Ok(PlainWorld {
            blocks,
            ways,
            taken: vec![in alloc; 0usize; usize::from(blocks)]?,
        })
    }

    pub(crate) fn blocks(&self) -> u16 {
        self.blocks
    }

    /// Who sends to a block over a way.
    fn giver(&self, way: Way, b: u16) -> u16 {
        let last = self.blocks.wrapping_sub(1);
        match way {
            Way::North => b.wrapping_add(1) & last,
            Way::South => b.wrapping_sub(1) & last,
            Way::Across(bit) => b ^ bit,
        }
    }

    /// Who gets from a block over a way.
    fn receiver(&self, way: Way, b: u16) -> u16 {
        match way {
            Way::North => self.giver(Way::South, b),
            Way::South => self.giver(Way::North, b),
            Way::Across(_) => self.giver(way, b),
        }
    }

    fn taken(&self, b: u16) -> usize {
        self.taken.get(usize::from(b)).copied().unwrap_or(0)
    }

    /// Whether a block has cleared what came over a way in all rounds before one.
    fn has_cleared(&self, b: u16, way: Way, round: usize) -> bool {
        let through = self.taken(b) / 4;
        self.ways
            .iter()
            .take(round)
            .skip(through)
            .all(|earlier| *earlier != way)
    }

    fn can(&self, step: Step) -> bool {
        let b = step.block();
        let taken = self.taken(b);
        let Some(way) = self.ways.get(taken / 4) else {
            return false;
        };
        if b >= self.blocks || taken % 4 != usize::from(step.stage()) {
            return false;
        }
        match step {
            Step::Grip(_) => self.has_cleared(self.receiver(*way, b), *way, taken / 4),
            Step::Draw(_) => self.taken(self.giver(*way, b)) >= taken,
            Step::File(_) | Step::Clear(_) => true,
        }
    }

    /// Takes a step, if it can be taken; tells whether it was.
    pub(crate) fn takes(&mut self, step: Step) -> bool {
        if !self.can(step) {
            return false;
        }
        if let Some(taken) = self.taken.get_mut(usize::from(step.block())) {
            *taken = taken.wrapping_add(1);
        }
        true
    }

    /// The step of the lowest block that can take one.
    pub(crate) fn next(&self) -> Option<Step> {
        (0..self.blocks)
            .map(|b| Step::at(b, (self.taken(b) % 4) as u8))
            .find(|step| self.can(*step))
    }
}
