//! The memory output of an instruction that writes no flag, in all words of its rows, in place.

ghost use Rattle.std.specs.Prelude.{◌≡◌, ◌+◌, ◌*◌, ◌≤◌, length, true, false};
ghost use Rattle.cm_rows.specs.Rows.{IsComputed, AreReadable, IsApart};

use crate::block::{choice_lanes, choice_of, kept, kept_lanes, load, put};
use crate::kernel::{BLOCKS, LANES, TILE};
use crate::places::Places;
use crate::tile::{choose, find_outputs, merge};
use cm_bits::Plane;

// The tables of the macros that write no flag, and that which keeps memory, are known to the compiler, each in a
// loop of its own.
macro_rules! by_table {
    ($always:literal, $table:ident, $sense:ident, $memory:ident, $flags:ident, $at:ident, $whole:ident) => {
        match $table {
            0xcc => compute_blocks::<LANES>(0xcc, $always, $sense, $memory, $flags, $at, $whole),
            0xd8 => compute_blocks::<LANES>(0xd8, $always, $sense, $memory, $flags, $at, $whole),
            0xff => compute_blocks::<LANES>(0xff, $always, $sense, $memory, $flags, $at, $whole),
            0xf0 => compute_blocks::<LANES>(0xf0, $always, $sense, $memory, $flags, $at, $whole),
            0x00 => compute_blocks::<LANES>(0x00, $always, $sense, $memory, $flags, $at, $whole),
            other => compute_others(other, $always, $sense, $memory, $flags, $at, $whole),
        }
    };
}

/// Puts the memory output of an instruction into the first `count` words of its row, where the
/// condition holds. Under `always` the condition flag counts for nothing.
pub fn compute_memory(
    table: u8,
    always: bool,
    sense: bool,
    memory: &mut [Plane],
    flags: &[Plane],
    at: Places,
    count: usize,
)
    requires rows { AreReadable at count memory.old flags.now }
    requires b_apart { IsApart at.a at.b count }
    ensures memory { IsComputed table false always sense at at.a 0 count memory.old flags.now memory.old memory.new }
{
    let whole = count / LANES;
    all_blocks(table, always, sense, memory, flags, at, whole);
    compute_words(
        table,
        always,
        sense,
        memory,
        flags,
        at,
        LANES * whole,
        count,
    );
}

/// The words of whole blocks.
fn all_blocks(
    table: u8,
    always: bool,
    sense: bool,
    memory: &mut [Plane],
    flags: &[Plane],
    at: Places,
    whole: usize,
)
    requires rows { AreReadable at (32 * whole) memory.old flags.now }
    requires b_apart { IsApart at.a at.b (32 * whole) }
    ensures memory { IsComputed table false always sense at at.a 0 (32 * whole)
        memory.old flags.now memory.old memory.new }
{
    if always {
        blocks_always(table, sense, memory, flags, at, whole);
    } else {
        blocks_under_condition(table, sense, memory, flags, at, whole);
    }
}

/// The words of whole blocks, in all processors.
fn blocks_always(
    table: u8,
    sense: bool,
    memory: &mut [Plane],
    flags: &[Plane],
    at: Places,
    whole: usize,
)
    requires rows { AreReadable at (32 * whole) memory.old flags.now }
    requires b_apart { IsApart at.a at.b (32 * whole) }
    ensures memory { IsComputed table false true sense at at.a 0 (32 * whole)
        memory.old flags.now memory.old memory.new }
{
    by_table!(true, table, sense, memory, flags, at, whole)
}

/// The words of whole blocks, where the condition holds.
fn blocks_under_condition(
    table: u8,
    sense: bool,
    memory: &mut [Plane],
    flags: &[Plane],
    at: Places,
    whole: usize,
)
    requires rows { AreReadable at (32 * whole) memory.old flags.now }
    requires b_apart { IsApart at.a at.b (32 * whole) }
    ensures memory { IsComputed table false false sense at at.a 0 (32 * whole)
        memory.old flags.now memory.old memory.new }
{
    by_table!(false, table, sense, memory, flags, at, whole)
}

/// The words of whole blocks, by any table.
fn compute_others(
    table: u8,
    always: bool,
    sense: bool,
    memory: &mut [Plane],
    flags: &[Plane],
    at: Places,
    whole: usize,
)
    requires rows { AreReadable at (32 * whole) memory.old flags.now }
    requires b_apart { IsApart at.a at.b (32 * whole) }
    ensures memory { IsComputed table false always sense at at.a 0 (32 * whole)
        memory.old flags.now memory.old memory.new }
{
    let mut mem = [0; TILE];
    let mut choice = [0; TILE];
    let tiles = whole / BLOCKS;
    compute_tiles(
        table,
        always,
        sense,
        memory,
        flags,
        at,
        tiles,
        &mut mem,
        &mut choice,
    );
    let rest = LANES * whole - TILE * tiles;
    tile(
        table,
        always,
        sense,
        memory,
        flags,
        at,
        TILE * tiles,
        &mut mem[..rest],
        &mut choice[..rest],
    );
}

/// The words of so many whole tiles. The other rows are working room.
fn compute_tiles(
    table: u8,
    always: bool,
    sense: bool,
    memory: &mut [Plane],
    flags: &[Plane],
    at: Places,
    tiles: usize,
    mem: &mut [Plane],
    choice: &mut [Plane],
)
    requires mem { length mem.old ≡ 256 }
    requires choice { length choice.old ≡ 256 }
    requires rows { AreReadable at (256 * tiles) memory.old flags.now }
    requires b_apart { IsApart at.a at.b (256 * tiles) }
    ensures memory { IsComputed table false always sense at at.a 0 (256 * tiles)
        memory.old flags.now memory.old memory.new }
{
    for t in 0..tiles {
        tile(
            table,
            always,
            sense,
            memory,
            flags,
            at,
            TILE * t,
            mem,
            choice,
        );
    }
}

/// The words of one tile: all are read before any is written. The other rows are working room, as long as it.
fn tile(
    table: u8,
    always: bool,
    sense: bool,
    memory: &mut [Plane],
    flags: &[Plane],
    at: Places,
    from: usize,
    mem: &mut [Plane],
    choice: &mut [Plane],
)
    requires mem { length mem.old ≡ length choice.old }
    requires rows { AreReadable at (from + length choice.old) memory.old flags.now }
    ensures memory { IsComputed table false always sense at at.a from (from + length choice.old)
        memory.old flags.now memory.old memory.new }
{
    find_outputs(table, false, memory, flags, at, from, mem);
    choose(always, sense, flags, at.cond + from, choice);
    merge(choice, mem, memory, at.a + from);
}

/// The words of so many blocks, in a loop for this table.
#[inline(always)]
fn compute_blocks<const L: usize>(
    table: u8,
    always: bool,
    sense: bool,
    memory: &mut [Plane],
    flags: &[Plane],
    at: Places,
    whole: usize,
)
    requires rows { AreReadable at (L * whole) memory.old flags.now }
    requires b_apart { IsApart at.a at.b (L * whole) }
    ensures memory { IsComputed table false always sense at at.a 0 (L * whole)
        memory.old flags.now memory.old memory.new }
{
    for t in 0..whole {
        block::<L>(table, always, sense, memory, flags, at, L * t);
    }
}

/// The words that follow, one by one.
fn compute_words(
    table: u8,
    always: bool,
    sense: bool,
    memory: &mut [Plane],
    flags: &[Plane],
    at: Places,
    from: usize,
    to: usize,
)
    requires order { from ≤ to }
    requires rows { AreReadable at to memory.old flags.now }
    requires b_apart { IsApart at.a at.b to }
    ensures memory { IsComputed table false always sense at at.a from to memory.old flags.now memory.old memory.new }
{
    for k in from..to {
        word(table, always, sense, memory, flags, at, k);
    }
}

/// Some words: all are read before any is written.
#[inline(always)]
fn block<const L: usize>(
    table: u8,
    always: bool,
    sense: bool,
    memory: &mut [Plane],
    flags: &[Plane],
    at: Places,
    from: usize,
)
    requires rows { AreReadable at (from + L) memory.old flags.now }
    ensures memory { IsComputed table false always sense at at.a from (from + L)
        memory.old flags.now memory.old memory.new }
{
    let a = load::<L>(memory, at.a + from);
    let b = load::<L>(memory, at.b + from);
    let f = load::<L>(flags, at.read + from);
    let condition = load::<L>(flags, at.cond + from);
    let choice = choice_lanes(always, sense, condition);
    let word = kept_lanes(table, false, choice, a, b, f, a);
    put(memory, at.a + from, word);
}

/// One word.
fn word(
    table: u8,
    always: bool,
    sense: bool,
    memory: &mut [Plane],
    flags: &[Plane],
    at: Places,
    from: usize,
)
    requires rows { AreReadable at (from + 1) memory.old flags.now }
    ensures memory { IsComputed table false always sense at at.a from (from + 1)
        memory.old flags.now memory.old memory.new }
{
    let a = memory[at.a + from];
    let b = memory[at.b + from];
    let f = flags[at.read + from];
    let choice = choice_of(always, sense, flags[at.cond + from]);
    memory[at.a + from] = kept(table, false, choice, a, b, f, a);
}
