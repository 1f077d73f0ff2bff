//! Numbers and instructions that look random.

ghost use Rattle.std.specs.Prelude.{◌<◌};

use crate::numbers::{address, flag};
use cm_bits::{Addr, Dir, FlagNo, Plane};
use cm_model::{Act, Nano};
use std::alloc::{AllocError, Global};

/// Numbers that look random and are always the same.
#[derive(Drop)]
pub struct Draws {
    state: u32,
}

impl Draws {
    /// Other numbers for each seed.
    pub fn new(seed: u32) -> Draws {
        Draws {
            state: 0x2545_f491 ^ seed,
        }
    }

    /// A number of 32 bits.
    pub fn number(&mut self) -> u32 {
        self.state ^= self.state << 13;
        self.state ^= self.state >> 17;
        self.state ^= self.state << 5;
        self.state
    }

    /// A bit for each processor of a chip.
    pub fn plane(&mut self) -> Plane {
        (self.number() >> 16) as u16
    }

    pub fn below(&mut self, limit: u16) -> u16
        requires some { 0 < limit }
        ensures within { result < limit }
    {
        self.plane() % limit
    }

    /// Whether it is so, once in so many times.
    pub fn once_in(&mut self, limit: u16) -> bool
        requires some { 0 < limit }
    {
        self.below(limit) == 0
    }

    /// A number of at most so many bits, all of them where there are more than 64.
    pub fn bits(&mut self, len: u16) -> u64 {
        let both = u64::from(self.number()) << 32 | u64::from(self.number());
        if len < 64 {
            both & ((1 << len) - 1)
        } else {
            both
        }
    }

    pub fn flag(&mut self) -> FlagNo {
        flag(self.below(16) as u8)
    }

    pub fn dir(&mut self) -> Dir {
        match self.below(4) {
            0 => Dir::North,
            1 => Dir::East,
            2 => Dir::West,
            _ => Dir::South,
        }
    }

    /// An instruction on these addresses, about half of the time under a condition. Every second one goes over the grid
    /// or the chain.
    pub fn nano(&mut self, a: Addr, b: Addr) -> Nano {
        let always = self.once_in(2);
        Nano {
            a,
            b,
            read: self.flag(),
            write: self.written(),
            cond: if always { FlagNo::ZERO } else { self.flag() },
            sense: !always && self.once_in(2),
            mem_table: self.below(256) as u8,
            flag_table: self.below(256) as u8,
            dir: self.dir(),
        }
    }

    /// So many acts: petit cycles, looks at the wire, and instructions on records and on the first bits; more than half
    /// of these go over the grid.
    pub fn acts(&mut self, alloc: Global, count: usize) -> Result<Vec<Act>, AllocError> {
        let mut acts = Vec::new(alloc);
        for _ in 0..count {
            acts.push(self.act())?;
        }
        Ok(acts)
    }

    fn act(&mut self) -> Act {
        match self.below(8) {
            0 | 1 => Act::Cycle,
            2 => Act::Sense,
            _ => Act::Nano(self.recorded_nano()),
        }
    }

    /// An instruction on records and on the first bits.
    fn recorded_nano(&mut self) -> Nano {
        let (a, b) = (self.address(), self.address());
        let nano = self.nano(a, b);
        if self.once_in(2) {
            Nano {
                write: FlagNo::NEWS,
                ..nano
            }
        } else {
            nano
        }
    }

    /// An address of a record, or one of the first eight.
    fn address(&mut self) -> Addr {
        if self.once_in(2) {
            address(self.below(8))
        } else {
            address(3968 + self.below(128))
        }
    }

    fn written(&mut self) -> FlagNo {
        match self.below(4) {
            0 => FlagNo::NEWS,
            1 => FlagNo::DAISY,
            _ => self.flag(),
        }
    }
}
