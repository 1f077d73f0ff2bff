//! Machines that are shared out among workers, each in a thread of its own, beside one thread.

ghost use Rattle.std.specs.Prelude.{◌≡◌, ◌<◌, ◌^◌};
ghost use Rattle.std.specs.Thread.{IsSync};

use crate::rows::{ROWS, sent_on, two_chips};
use crate::runners::{Anyone, Kind, Share, run_by};
use cm_array::{Machine, Runner};
use cm_bits::{Dir, FlagNo, Plane};
use cm_model::{Act, Rule};
use cm_resident::Resident;
use cm_workers::{Forked, Passage};
use std::alloc::Global;
use std::sync::Wait;
use std::test::Fail;
use std::thread::Threads;
use test_generators::{
    Draws, OF_FOUR_CHIPS, OF_TWO_CHIPS, OF_TWO_CHIPS_WITH_ROOM_FOR_SEVEN,
    OF_TWO_CHIPS_WITH_ROOM_FOR_TWO, ask_again, asking_machine, cut_in_two_places, first_wrong,
    flag, four_messages_each, has_one_of_four,
};

/// How many lists of acts each random machine goes through.
const LISTS: u8 = 2;

/// Nobody looks at workers that are joined at each round; at those that run on somebody does, so that their blocks have
/// whole logs.
fn passage_of(alloc: Global, kind: Kind) -> Option<Passage> {
    match kind {
        Kind::Forked => Some(Passage::Open),
        Kind::Resident => Some(Passage::Gated(Box::new(alloc, Anyone).ok()?)),
    }
}

/// Whether a machine goes through the acts by workers as it does on one thread.
fn runs_as_plain<const N: usize, const CAP: usize, R: Threads + Wait + Sync>(
    rt: &R,
    alloc: Global,
    kind: Kind,
    share: Share,
    machine: &mut Machine<N, CAP>,
    acts: &[Act],
    chips: u16,
) -> Option<bool>
    requires chips { chips ≡ 2 ^ N }
    requires threads { IsSync R.row }
{
    let passage = passage_of(alloc, kind)?;
    let ran = run_by(rt, alloc, kind, share, passage, machine, acts, chips)?;
    Some(ran == (None, true))
}

/// Whether a drawn machine goes as on one thread, where it is shared out so.
fn goes<const N: usize, const CAP: usize, R: Threads + Wait + Sync>(
    rt: &R,
    alloc: Global,
    kind: Kind,
    share: Share,
    chips: u16,
) -> Option<bool>
    requires chips { chips ≡ 2 ^ N }
    requires threads { IsSync R.row }
{
    let mut draws = Draws::new(u32::from(share.workers));
    let mut machine = asking_machine::<N, CAP>(alloc, &mut draws, chips)?;
    for _list in 0..LISTS {
        let acts = draws.acts(alloc, 16).ok()?;
        if !runs_as_plain(rt, alloc, kind, share, &mut machine, &acts, chips)? {
            return Some(false);
        }
        ask_again(&mut machine, &mut draws, chips);
    }
    Some(true)
}

/// Whether drawn machines do by 2^`k` blocks, with one worker up to as many as blocks, of either kind.
fn go_by<const N: usize, const CAP: usize, R: Threads + Wait + Sync>(
    rt: &R,
    alloc: Global,
    chips: u16,
    k: u8,
) -> Option<bool>
    requires chips { chips ≡ 2 ^ N }
    requires k { k < 7 }
    requires threads { IsSync R.row }
{
    for workers in 1..=1 << k {
        let share = Share { k, workers };
        if !goes::<N, CAP, R>(rt, alloc, Kind::Forked, share, chips)?
            || !goes::<N, CAP, R>(rt, alloc, Kind::Resident, share, chips)?
        {
            return Some(false);
        }
    }
    Some(true)
}

/// Whether they do for each number of blocks up to 2^`most`.
fn go<const N: usize, const CAP: usize, R: Threads + Wait + Sync>(
    rt: &R,
    alloc: Global,
    chips: u16,
    most: u8,
) -> Option<bool>
    requires chips { chips ≡ 2 ^ N }
    requires most { most < 7 }
    requires threads { IsSync R.row }
{
    for k in 0..=most {
        if !go_by::<N, CAP, R>(rt, alloc, chips, k)? {
            return Some(false);
        }
    }
    Some(true)
}

#[test]
fn machines_of_two_to_sixteen_chips_go_by_workers_as_on_one_thread(rt: HostRuntime) {
    let alloc = rt.alloc();
    let gone = [
        go::<1, 1, HostRuntime>(&rt, alloc, 2, 1),
        go::<2, 7, HostRuntime>(&rt, alloc, 4, 1),
        go::<3, 2, HostRuntime>(&rt, alloc, 8, 2),
        go::<4, 1, HostRuntime>(&rt, alloc, 16, 2),
    ];
    assert_eq!(rt; gone, [Some(true); 4]);
}

#[test]
fn machines_of_32_and_64_chips_go_by_workers_as_on_one_thread(rt: HostRuntime) {
    let alloc = rt.alloc();
    let gone = [
        go::<5, 4, HostRuntime>(&rt, alloc, 32, 3),
        go::<6, 1, HostRuntime>(&rt, alloc, 64, 3),
    ];
    assert_eq!(rt; gone, [Some(true); 2]);
}

#[test]
fn machines_of_128_and_256_chips_go_by_workers_as_on_one_thread(rt: HostRuntime) {
    let alloc = rt.alloc();
    let gone = [
        go::<7, 7, HostRuntime>(&rt, alloc, 128, 4),
        go::<8, 2, HostRuntime>(&rt, alloc, 256, 4),
    ];
    assert_eq!(rt; gone, [Some(true); 2]);
}

static SHARES: [Share; 7] = [
    Share { k: 0, workers: 1 },
    Share { k: 1, workers: 1 },
    Share { k: 1, workers: 2 },
    Share { k: 2, workers: 1 },
    Share { k: 2, workers: 2 },
    Share { k: 2, workers: 3 },
    Share { k: 2, workers: 4 },
];

/// Whether so many workers go through the acts as one thread, and the four messages of each chip are where they should
/// be then.
fn sent_in<R: Threads + Wait + Sync>(
    rt: &R,
    alloc: Global,
    kind: Kind,
    share: Share,
    machine: &mut Machine<4, 7>,
    acts: &[Act],
) -> Option<(bool, bool)>
    requires threads { IsSync R.row }
{
    let alike = runs_as_plain(rt, alloc, kind, share, machine, acts, 16)?;
    Some((alike, has_one_of_four(alloc, machine)))
}

/// The same of the program of messages, in a blank machine.
fn sent<R: Threads + Wait + Sync>(
    rt: &R,
    alloc: Global,
    kind: Kind,
    share: Share,
) -> Option<(bool, bool)>
    requires threads { IsSync R.row }
{
    let acts = four_messages_each(alloc).ok()?;
    let mut machine = Machine::<4, 7>::blank(alloc).ok()?;
    sent_in(rt, alloc, kind, share, &mut machine, &acts)
}

#[test]
fn workers_send_four_messages_of_each_of_sixteen_chips_across_the_cube(
    rt: HostRuntime,
) -> Result<(), Fail> {
    for share in &SHARES {
        let told = [
            sent(&rt, rt.alloc(), Kind::Forked, *share),
            sent(&rt, rt.alloc(), Kind::Resident, *share),
        ];
        assert_eq!(rt; told, [Some((true, true)); 2], "{share:?}");
    }
    Ok(())
}

/// Whether so many workers go through it as one thread where two wires are cut, and messages leave by this rule.
fn sent_round<R: Threads + Wait + Sync>(
    rt: &R,
    alloc: Global,
    kind: Kind,
    share: Share,
    rule: Rule,
) -> Option<bool>
    requires threads { IsSync R.row }
{
    let acts = four_messages_each(alloc).ok()?;
    let mut machine = cut_in_two_places(alloc, rule)?;
    runs_as_plain(rt, alloc, kind, share, &mut machine, &acts, 16)
}

#[test]
fn workers_send_them_round_cut_wires_by_either_rule(rt: HostRuntime) -> Result<(), Fail> {
    for share in &SHARES {
        let alike = [
            sent_round(&rt, rt.alloc(), Kind::Forked, *share, Rule::First),
            sent_round(&rt, rt.alloc(), Kind::Forked, *share, Rule::Oldest),
            sent_round(&rt, rt.alloc(), Kind::Resident, *share, Rule::First),
            sent_round(&rt, rt.alloc(), Kind::Resident, *share, Rule::Oldest),
        ];
        assert_eq!(rt; alike, [Some(true); 4], "{share:?}");
    }
    Ok(())
}

/// The first route that so many workers, joined at each round, do not go as they should; they are those of a runner for
/// sixteen chips.
fn wrong_of_forked<R: Threads + Wait>(
    rt: &R,
    alloc: Global,
    share: Share,
) -> Result<Option<&'static str>, Fail>
    requires threads { IsSync R.row }
{
    let mut forked = Forked::new::<4>(rt, alloc, share.k, share.workers, Passage::Open)?;
    Ok(
        first_wrong::<1, 1, _>(&mut forked, alloc, &OF_TWO_CHIPS, 2)
            .or(first_wrong::<2, 1, _>(&mut forked, alloc, &OF_FOUR_CHIPS, 4))
            .or(first_wrong::<1, 2, _>(&mut forked, alloc, &OF_TWO_CHIPS_WITH_ROOM_FOR_TWO, 2))
            .or(first_wrong::<1, 7, _>(&mut forked, alloc, &OF_TWO_CHIPS_WITH_ROOM_FOR_SEVEN, 2)),
    )
}

/// The same of those that run on.
fn wrong_of_resident<R: Threads + Wait + Sync>(
    rt: &R,
    alloc: Global,
    share: Share,
) -> Result<Option<&'static str>, Fail>
    requires threads { IsSync R.row }
{
    let passage = Passage::Gated(Box::new(alloc, Anyone)?);
    let mut resident = Resident::new::<4>(rt, alloc, share.k, share.workers, passage)?;
    Ok(
        first_wrong::<1, 1, _>(&mut resident, alloc, &OF_TWO_CHIPS, 2)
            .or(first_wrong::<2, 1, _>(&mut resident, alloc, &OF_FOUR_CHIPS, 4))
            .or(first_wrong::<1, 2, _>(&mut resident, alloc, &OF_TWO_CHIPS_WITH_ROOM_FOR_TWO, 2))
            .or(first_wrong::<1, 7, _>(&mut resident, alloc, &OF_TWO_CHIPS_WITH_ROOM_FOR_SEVEN, 2)),
    )
}

#[test]
fn messages_of_a_few_chips_stop_at_cut_wires_or_go_round_them_by_either_rule(
    rt: HostRuntime,
) -> Result<(), Fail> {
    for share in &SHARES {
        let wrong = [
            wrong_of_forked(&rt, rt.alloc(), *share)?,
            wrong_of_resident(&rt, rt.alloc(), *share)?,
        ];
        assert_eq!(rt; wrong, [None; 2], "{share:?}");
    }
    Ok(())
}

/// What is left where two chips, a block each, send flag 0, and so many workers run them.
fn passed_on<R: Threads + Wait + Sync>(
    rt: &R,
    alloc: Global,
    kind: Kind,
    workers: u16,
    dir: Dir,
    machine: &mut Machine<1, 7>,
) -> Option<[Plane; 2]>
    requires threads { IsSync R.row }
{
    let acts = [sent_on(flag(0), dir)];
    let share = Share { k: 1, workers };
    if !runs_as_plain(rt, alloc, kind, share, machine, &acts, 2)? {
        return None;
    }
    Some([
        machine.chip(0).flag_plane(FlagNo::NEWS),
        machine.chip(1).flag_plane(FlagNo::NEWS),
    ])
}

/// The same where flag 0 has these planes.
fn passed<R: Threads + Wait + Sync>(
    rt: &R,
    alloc: Global,
    kind: Kind,
    workers: u16,
    dir: Dir,
    planes: [Plane; 2],
) -> Option<[Plane; 2]>
    requires threads { IsSync R.row }
{
    let mut machine = two_chips(alloc, planes)?;
    passed_on(rt, alloc, kind, workers, dir, &mut machine)
}

#[test]
fn one_worker_and_two_pass_rows_on_between_two_chips(rt: HostRuntime) -> Result<(), Fail> {
    for row in &ROWS {
        let (dir, planes, wanted) = *row;
        let told = [
            passed(&rt, rt.alloc(), Kind::Forked, 1, dir, planes),
            passed(&rt, rt.alloc(), Kind::Forked, 2, dir, planes),
            passed(&rt, rt.alloc(), Kind::Resident, 1, dir, planes),
            passed(&rt, rt.alloc(), Kind::Resident, 2, dir, planes),
        ];
        assert_eq!(rt; told, [Some(wanted); 4]);
    }
    Ok(())
}
