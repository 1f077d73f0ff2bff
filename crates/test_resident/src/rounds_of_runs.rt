//! The rounds of a run.

use cm_bits::{Addr, Dir, FlagNo, NoMemory};
use cm_model::{Act, Nano};
use cm_subcube::{Kind, rounds};
use std::alloc::Global;
use std::test::Fail;

/// An instruction that writes a flag over the grid or elsewhere.
fn instruction(write: FlagNo, dir: Dir) -> Act {
    let at = Addr::new(0).unwrap();
    let zero = FlagNo::new(8).unwrap();
    Act::Nano(Nano {
        a: at,
        b: at,
        read: zero,
        write,
        cond: zero,
        sense: false,
        mem_table: 0xf0,
        flag_table: 0xaa,
        dir,
    })
}

/// Where the rounds are, and of which kind: the dimension's number, or 100 for North and 101 for South.
fn told(alloc: Global, k: u8) -> Result<Vec<(usize, u8)>, NoMemory> {
    let acts = [
        instruction(FlagNo::NEWS, Dir::North),
        instruction(FlagNo::NEWS, Dir::East),
        instruction(FlagNo::DAISY, Dir::South),
        Act::Cycle,
        Act::Sense,
        instruction(FlagNo::NEWS, Dir::South),
        Act::Cycle,
    ];
    let k = k.min(4);
    let found = rounds(alloc, 4, &acts, k)?;
    Ok(
        found
            .iter()
            .map(|round| (round.at, number_of(round.kind)))
            .collect(alloc)?,
    )
}

fn number_of(kind: Kind) -> u8 {
    match kind {
        Kind::North => 100,
        Kind::South => 101,
        Kind::Dim(dim) => dim,
    }
}

#[test]
fn a_machine_of_one_block_has_no_rounds(rt: HostRuntime) -> Result<(), Fail> {
    assert!(rt; told(rt.alloc(), 0)?.is_empty());
    Ok(())
}

#[test]
fn rounds_are_the_upper_dimensions_and_news_to_north_and_south(
    rt: HostRuntime,
) -> Result<(), Fail> {
    let two = told(rt.alloc(), 2)?;
    let want = [(0, 100), (3, 2), (3, 3), (5, 101), (6, 2), (6, 3)];
    assert_eq!(rt; two.as_slice(), want.as_slice());
    let one = told(rt.alloc(), 1)?;
    assert_eq!(rt;
        one.as_slice(),
        [(0, 100), (3, 3), (5, 101), (6, 3)].as_slice()
    );
    Ok(())
}
