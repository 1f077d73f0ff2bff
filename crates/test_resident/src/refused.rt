//! Which numbers of blocks and workers are refused.

use crate::runners::{Kind, Share};
use cm_resident::Resident;
use cm_workers::{ForkFault, Forked, Passage};
use std::alloc::Global;
use std::sync::Wait;
use std::test::Fail;
use std::thread::Threads;

/// For machines of sixteen chips.
static SHARES: [(Share, Option<ForkFault>); 8] = [
    (Share { k: 3, workers: 1 }, Some(ForkFault::Split)),
    (Share { k: 3, workers: 0 }, Some(ForkFault::Split)),
    (Share { k: 255, workers: 9 }, Some(ForkFault::Split)),
    (Share { k: 2, workers: 5 }, Some(ForkFault::Workers)),
    (Share { k: 2, workers: 0 }, Some(ForkFault::Workers)),
    (Share { k: 0, workers: 2 }, Some(ForkFault::Workers)),
    (Share { k: 2, workers: 4 }, None),
    (Share { k: 0, workers: 1 }, None),
];

fn fault_of<R: Threads + Wait + Sync>(
    rt: &R,
    alloc: Global,
    kind: Kind,
    share: Share,
) -> Option<ForkFault> {
    match kind {
        Kind::Forked => { Forked::new::<4>(rt, alloc, share.k, share.workers, Passage::Open).err() }
        Kind::Resident => {
            Resident::new::<4>(rt, alloc, share.k, share.workers, Passage::Open).err()
        }
    }
}

#[test]
fn too_many_blocks_are_refused_before_too_few_or_too_many_workers(
    rt: HostRuntime,
) -> Result<(), Fail> {
    for row in &SHARES {
        let (share, wanted) = *row;
        let told = [
            fault_of(&rt, rt.alloc(), Kind::Forked, share),
            fault_of(&rt, rt.alloc(), Kind::Resident, share),
        ];
        assert_eq!(rt; told, [wanted; 2], "{share:?}");
    }
    Ok(())
}
