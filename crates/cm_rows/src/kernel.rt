//! Both outputs of an instruction in all words of its rows, in place.

ghost use Rattle.std.specs.Prelude.{◌≡◌, ◌+◌, ◌*◌, ◌≤◌, length, true, false};
ghost use Rattle.cm_rows.specs.Rows.{IsComputed, AreReadable, AreRowsApart};

use crate::block::{choice_lanes, choice_of, kept, kept_lanes, load, put};
use crate::places::Places;
use crate::tile::{choose, find_outputs, merge};
use cm_bits::Plane;

/// So many words at once where the tables are known.
pub(crate) const LANES: usize = 32;

/// And so many where they are not, in blocks and in words: what is found of them stays in the nearest cache.
pub(crate) const BLOCKS: usize = 8;

pub(crate) const TILE: usize = 256;

// The pairs of tables of the macros that write a flag are known to the compiler, each in a loop of its own.
macro_rules! by_tables {
    ($always:literal, $tables:ident, $sense:ident, $memory:ident, $flags:ident, $at:ident, $whole:ident) => {
        match $tables {
            (0x96, 0xe8) => compute_known((0x96, 0xe8), $always, $sense, $memory, $flags, $at, $whole),
            (0x69, 0xb2) => compute_known((0x69, 0xb2), $always, $sense, $memory, $flags, $at, $whole),
            (0xf0, 0x8e) => compute_known((0xf0, 0x8e), $always, $sense, $memory, $flags, $at, $whole),
            (0xf0, 0x82) => compute_known((0xf0, 0x82), $always, $sense, $memory, $flags, $at, $whole),
            (0xaa, 0xf0) => compute_known((0xaa, 0xf0), $always, $sense, $memory, $flags, $at, $whole),
            (0xf0, 0xff) => compute_known((0xf0, 0xff), $always, $sense, $memory, $flags, $at, $whole),
            (0xf0, 0x00) => compute_known((0xf0, 0x00), $always, $sense, $memory, $flags, $at, $whole),
            (0xf0, 0xf0) => compute_known((0xf0, 0xf0), $always, $sense, $memory, $flags, $at, $whole),
            (0xf0, 0xaa) => compute_known((0xf0, 0xaa), $always, $sense, $memory, $flags, $at, $whole),
            other => compute_others(other, false, $always, $sense, $memory, $flags, $at, $whole),
        }
    };
}

/// Puts both outputs of an instruction into the first `count` words of its rows, where the condition
/// holds. Those for the flag are the processors' own, or they go along the chain of each word. Under
/// `always` the condition flag counts for nothing.
pub fn compute(
    tables: (u8, u8),
    chained: bool,
    always: bool,
    sense: bool,
    memory: &mut [Plane],
    flags: &mut [Plane],
    at: Places,
    count: usize,
)
    requires rows { AreReadable at count memory.old flags.old }
    requires write { at.write + count ≤ length flags.old }
    requires apart { AreRowsApart at count }
    ensures memory { IsComputed tables.0 false always sense at at.a 0 count memory.old flags.old memory.old memory.new }
    ensures flags { IsComputed tables.1 chained always sense at at.write 0 count
        memory.old flags.old flags.old flags.new }
{
    let whole = count / LANES;
    all_blocks(tables, chained, always, sense, memory, flags, at, whole);
    compute_words(
        tables,
        chained,
        always,
        sense,
        memory,
        flags,
        at,
        LANES * whole,
        count,
    );
}

/// The words of whole blocks.
fn all_blocks(
    tables: (u8, u8),
    chained: bool,
    always: bool,
    sense: bool,
    memory: &mut [Plane],
    flags: &mut [Plane],
    at: Places,
    whole: usize,
)
    requires rows { AreReadable at (32 * whole) memory.old flags.old }
    requires write { at.write + 32 * whole ≤ length flags.old }
    requires apart { AreRowsApart at (32 * whole) }
    ensures memory { IsComputed tables.0 false always sense at at.a 0 (32 * whole)
        memory.old flags.old memory.old memory.new }
    ensures flags { IsComputed tables.1 chained always sense at at.write 0 (32 * whole)
        memory.old flags.old flags.old flags.new }
{
    if whole == 0 {
        return;
    }
    if chained {
        blocks_along_chains(tables, always, sense, memory, flags, at, whole);
    } else if always {
        blocks_always(tables, sense, memory, flags, at, whole);
    } else {
        blocks_under_condition(tables, sense, memory, flags, at, whole);
    }
}

/// The words of whole blocks, in all processors.
fn blocks_always(
    tables: (u8, u8),
    sense: bool,
    memory: &mut [Plane],
    flags: &mut [Plane],
    at: Places,
    whole: usize,
)
    requires rows { AreReadable at (32 * whole) memory.old flags.old }
    requires write { at.write + 32 * whole ≤ length flags.old }
    requires apart { AreRowsApart at (32 * whole) }
    ensures memory { IsComputed tables.0 false true sense at at.a 0 (32 * whole)
        memory.old flags.old memory.old memory.new }
    ensures flags { IsComputed tables.1 false true sense at at.write 0 (32 * whole)
        memory.old flags.old flags.old flags.new }
{
    by_tables!(true, tables, sense, memory, flags, at, whole)
}

/// The words of whole blocks, where the condition holds.
fn blocks_under_condition(
    tables: (u8, u8),
    sense: bool,
    memory: &mut [Plane],
    flags: &mut [Plane],
    at: Places,
    whole: usize,
)
    requires rows { AreReadable at (32 * whole) memory.old flags.old }
    requires write { at.write + 32 * whole ≤ length flags.old }
    requires apart { AreRowsApart at (32 * whole) }
    ensures memory { IsComputed tables.0 false false sense at at.a 0 (32 * whole)
        memory.old flags.old memory.old memory.new }
    ensures flags { IsComputed tables.1 false false sense at at.write 0 (32 * whole)
        memory.old flags.old flags.old flags.new }
{
    by_tables!(false, tables, sense, memory, flags, at, whole)
}

/// The words of whole blocks, where the flag's outputs go along the chains: a flag that is handed on has a
/// loop of its own.
fn blocks_along_chains(
    tables: (u8, u8),
    always: bool,
    sense: bool,
    memory: &mut [Plane],
    flags: &mut [Plane],
    at: Places,
    whole: usize,
)
    requires rows { AreReadable at (32 * whole) memory.old flags.old }
    requires write { at.write + 32 * whole ≤ length flags.old }
    requires apart { AreRowsApart at (32 * whole) }
    ensures memory { IsComputed tables.0 false always sense at at.a 0 (32 * whole)
        memory.old flags.old memory.old memory.new }
    ensures flags { IsComputed tables.1 true always sense at at.write 0 (32 * whole)
        memory.old flags.old flags.old flags.new }
{
    match (tables, always) {
        ((0xf0, 0xaa), true) => compute_blocks::<LANES>(
            (0xf0, 0xaa),
            true,
            true,
            sense,
            memory,
            flags,
            at,
            whole,
        ),
        ((0xf0, 0xaa), false) => compute_blocks::<LANES>(
            (0xf0, 0xaa),
            true,
            false,
            sense,
            memory,
            flags,
            at,
            whole,
        ),
        (others, _) => compute_others(others, true, always, sense, memory, flags, at, whole),
    }
}

/// The words of whole blocks, by any tables.
fn compute_others(
    tables: (u8, u8),
    chained: bool,
    always: bool,
    sense: bool,
    memory: &mut [Plane],
    flags: &mut [Plane],
    at: Places,
    whole: usize,
)
    requires rows { AreReadable at (32 * whole) memory.old flags.old }
    requires write { at.write + 32 * whole ≤ length flags.old }
    requires apart { AreRowsApart at (32 * whole) }
    ensures memory { IsComputed tables.0 false always sense at at.a 0 (32 * whole)
        memory.old flags.old memory.old memory.new }
    ensures flags { IsComputed tables.1 chained always sense at at.write 0 (32 * whole)
        memory.old flags.old flags.old flags.new }
{
    let mut mem = [0; TILE];
    let mut flag = [0; TILE];
    let mut choice = [0; TILE];
    let tiles = whole / BLOCKS;
    compute_tiles(
        tables,
        chained,
        always,
        sense,
        memory,
        flags,
        at,
        tiles,
        &mut mem,
        &mut flag,
        &mut choice,
    );
    let rest = LANES * whole - TILE * tiles;
    tile(
        tables,
        chained,
        always,
        sense,
        memory,
        flags,
        at,
        TILE * tiles,
        &mut mem[..rest],
        &mut flag[..rest],
        &mut choice[..rest],
    );
}

/// The words of so many whole tiles. The other rows are working room.
fn compute_tiles(
    tables: (u8, u8),
    chained: bool,
    always: bool,
    sense: bool,
    memory: &mut [Plane],
    flags: &mut [Plane],
    at: Places,
    tiles: usize,
    mem: &mut [Plane],
    flag: &mut [Plane],
    choice: &mut [Plane],
)
    requires mem { length mem.old ≡ 256 }
    requires flag { length flag.old ≡ 256 }
    requires choice { length choice.old ≡ 256 }
    requires rows { AreReadable at (256 * tiles) memory.old flags.old }
    requires write { at.write + 256 * tiles ≤ length flags.old }
    requires apart { AreRowsApart at (256 * tiles) }
    ensures memory { IsComputed tables.0 false always sense at at.a 0 (256 * tiles)
        memory.old flags.old memory.old memory.new }
    ensures flags { IsComputed tables.1 chained always sense at at.write 0 (256 * tiles)
        memory.old flags.old flags.old flags.new }
{
    for t in 0..tiles {
        tile(
            tables,
            chained,
            always,
            sense,
            memory,
            flags,
            at,
            TILE * t,
            mem,
            flag,
            choice,
        );
    }
}

/// The words of one tile: all are read before any is written. The other rows are working room, as long as it.
fn tile(
    tables: (u8, u8),
    chained: bool,
    always: bool,
    sense: bool,
    memory: &mut [Plane],
    flags: &mut [Plane],
    at: Places,
    from: usize,
    mem: &mut [Plane],
    flag: &mut [Plane],
    choice: &mut [Plane],
)
    requires mem { length mem.old ≡ length choice.old }
    requires flag { length flag.old ≡ length choice.old }
    requires rows { AreReadable at (from + length choice.old) memory.old flags.old }
    requires write { at.write + from + length choice.old ≤ length flags.old }
    ensures memory { IsComputed tables.0 false always sense at at.a from (from + length choice.old)
        memory.old flags.old memory.old memory.new }
    ensures flags { IsComputed tables.1 chained always sense at at.write from (from + length choice.old)
        memory.old flags.old flags.old flags.new }
{
    find_outputs(tables.0, false, memory, flags, at, from, mem);
    find_outputs(tables.1, chained, memory, flags, at, from, flag);
    choose(always, sense, flags, at.cond + from, choice);
    merge(choice, mem, memory, at.a + from);
    merge(choice, flag, flags, at.write + from);
}

/// The words of whole blocks, in a loop for these tables. Where the flag that is read is the one that is written,
/// as a carry is, the loop is another: the compiler knows there that it need not be read twice.
#[inline(always)]
fn compute_known(
    tables: (u8, u8),
    always: bool,
    sense: bool,
    memory: &mut [Plane],
    flags: &mut [Plane],
    at: Places,
    whole: usize,
)
    requires rows { AreReadable at (32 * whole) memory.old flags.old }
    requires write { at.write + 32 * whole ≤ length flags.old }
    requires apart { AreRowsApart at (32 * whole) }
    ensures memory { IsComputed tables.0 false always sense at at.a 0 (32 * whole)
        memory.old flags.old memory.old memory.new }
    ensures flags { IsComputed tables.1 false always sense at at.write 0 (32 * whole)
        memory.old flags.old flags.old flags.new }
{
    if at.read == at.write {
        let carried = Places {
            a: at.a,
            b: at.b,
            read: at.read,
            write: at.read,
            cond: at.cond,
        };
        compute_blocks::<LANES>(tables, false, always, sense, memory, flags, carried, whole);
    } else {
        compute_blocks::<LANES>(tables, false, always, sense, memory, flags, at, whole);
    }
}

/// The words of so many blocks, in a loop for these tables.
#[inline(always)]
fn compute_blocks<const L: usize>(
    tables: (u8, u8),
    chained: bool,
    always: bool,
    sense: bool,
    memory: &mut [Plane],
    flags: &mut [Plane],
    at: Places,
    whole: usize,
)
    requires rows { AreReadable at (L * whole) memory.old flags.old }
    requires write { at.write + L * whole ≤ length flags.old }
    requires apart { AreRowsApart at (L * whole) }
    ensures memory { IsComputed tables.0 false always sense at at.a 0 (L * whole)
        memory.old flags.old memory.old memory.new }
    ensures flags { IsComputed tables.1 chained always sense at at.write 0 (L * whole)
        memory.old flags.old flags.old flags.new }
{
    for t in 0..whole {
        block::<L>(tables, chained, always, sense, memory, flags, at, L * t);
    }
}

/// The words that follow, one by one.
fn compute_words(
    tables: (u8, u8),
    chained: bool,
    always: bool,
    sense: bool,
    memory: &mut [Plane],
    flags: &mut [Plane],
    at: Places,
    from: usize,
    to: usize,
)
    requires order { from ≤ to }
    requires rows { AreReadable at to memory.old flags.old }
    requires write { at.write + to ≤ length flags.old }
    requires apart { AreRowsApart at to }
    ensures memory { IsComputed tables.0 false always sense at at.a from to memory.old flags.old memory.old memory.new }
    ensures flags { IsComputed tables.1 chained always sense at at.write from to
        memory.old flags.old flags.old flags.new }
{
    for k in from..to {
        word(tables, chained, always, sense, memory, flags, at, k);
    }
}

/// Some words: all are read before any is written.
#[inline(always)]
fn block<const L: usize>(
    tables: (u8, u8),
    chained: bool,
    always: bool,
    sense: bool,
    memory: &mut [Plane],
    flags: &mut [Plane],
    at: Places,
    from: usize,
)
    requires rows { AreReadable at (from + L) memory.old flags.old }
    requires write { at.write + from + L ≤ length flags.old }
    ensures memory { IsComputed tables.0 false always sense at at.a from (from + L)
        memory.old flags.old memory.old memory.new }
    ensures flags { IsComputed tables.1 chained always sense at at.write from (from + L)
        memory.old flags.old flags.old flags.new }
{
    let a = load::<L>(memory, at.a + from);
    let b = load::<L>(memory, at.b + from);
    let f = load::<L>(flags, at.read + from);
    let old = load::<L>(flags, at.write + from);
    let condition = load::<L>(flags, at.cond + from);
    let choice = choice_lanes(always, sense, condition);
    let word = kept_lanes(tables.0, false, choice, a, b, f, a);
    let flag = kept_lanes(tables.1, chained, choice, a, b, f, old);
    put(memory, at.a + from, word);
    put(flags, at.write + from, flag);
}

/// One word.
fn word(
    tables: (u8, u8),
    chained: bool,
    always: bool,
    sense: bool,
    memory: &mut [Plane],
    flags: &mut [Plane],
    at: Places,
    from: usize,
)
    requires rows { AreReadable at (from + 1) memory.old flags.old }
    requires write { at.write + from + 1 ≤ length flags.old }
    ensures memory { IsComputed tables.0 false always sense at at.a from (from + 1)
        memory.old flags.old memory.old memory.new }
    ensures flags { IsComputed tables.1 chained always sense at at.write from (from + 1)
        memory.old flags.old flags.old flags.new }
{
    let a = memory[at.a + from];
    let b = memory[at.b + from];
    let f = flags[at.read + from];
    let old = flags[at.write + from];
    let choice = choice_of(always, sense, flags[at.cond + from]);
    let word = kept(tables.0, false, choice, a, b, f, a);
    let flag = kept(tables.1, chained, choice, a, b, f, old);
    memory[at.a + from] = word;
    flags[at.write + from] = flag;
}
