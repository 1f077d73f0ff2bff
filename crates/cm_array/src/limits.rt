//! The largest machine, and the most that a runner takes at once.

/// Most dimensions of a machine's cube: the CM-1 has twelve, and 4,096 chips (Hillis 1985).
pub const MOST_DIMENSIONS: usize = 12;

/// Most messages that the router of a chip may have room for. Ours.
pub const MOST_ROOM: usize = 15;

/// Most acts in a list that a runner takes at once. Ours.
pub const LONGEST: usize = 4096;

/// Most petit cycles in a list that a runner takes at once. Ours.
pub const MOST_CYCLES: usize = 64;

/// The last value of the counter of petit cycles: 2^63 - 1. Ours.
pub const LAST_CLOCK: u64 = u64::MAX >> 1;
