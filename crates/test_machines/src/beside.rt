//! Random machines beside the plain program of the router, with whole and with cut wires, by either rule: petit cycles,
//! with instructions between them, leave the same bits, flags, buffers and logs, and each message is found where it is.

ghost use Rattle.std.specs.Prelude.{◌≡◌, ◌<◌, ◌≤◌, ◌^◌};

use crate::accounts::are_found;
use crate::both::Both;
use crate::machines::{RECV, SEND, everywhere, message, tag};
use cm_bits::{Addr, Edge};
use cm_message::{Message, Tag};
use cm_model::{Act, Rule};
use std::alloc::{AllocError, Global};
use test_generators::{Draws, address, flag, has_full_buffer, processor};

const ROUNDS: u16 = 30;

/// Which wires are cut.
enum Cut {
    Nothing,
    /// Of so many one, drawn.
    OneOf(u16),
    Everything,
}

/// By which rule messages leave, and over which wires.
struct Way {
    rule: Rule,
    cut: Cut,
}

static WAYS: [Way; 5] = [
    Way {
        rule: Rule::First,
        cut: Cut::OneOf(3),
    },
    Way {
        rule: Rule::Oldest,
        cut: Cut::Nothing,
    },
    Way {
        rule: Rule::Oldest,
        cut: Cut::OneOf(4),
    },
    Way {
        rule: Rule::First,
        cut: Cut::Everything,
    },
    Way {
        rule: Rule::Oldest,
        cut: Cut::OneOf(2),
    },
];

impl Cut {
    /// Whether the next wire is cut.
    fn is_next(&self, draws: &mut Draws) -> bool {
        match self {
            Cut::Nothing => false,
            Cut::OneOf(count) => *count > 0 && draws.below(*count) == 0,
            Cut::Everything => true,
        }
    }
}

/// The wires of so many chips that are cut.
fn drawn_cuts(alloc: Global, draws: &mut Draws, chips: u16, cut: &Cut) -> Option<Vec<Edge>> {
    let mut cuts = Vec::new(alloc);
    for chip in 0..chips {
        for dim in 0..12u8 {
            match Edge::new(chip, dim) {
                Some(edge) if chip | 1 << dim < chips && cut.is_next(draws) => {
                    cuts.push(edge).ok()?;
                }
                _ => {}
            }
        }
    }
    Some(cuts)
}

// ---- what is put into both

/// In each chip twice, on average, a processor asks to send to a random place, and two others can
/// receive again. Half of the messages go to processors 0, so that they wait.
fn poke_both<const N: usize, const CAP: usize>(
    both: &mut Both<N, CAP>,
    draws: &mut Draws,
    chips: u16,
)
    requires chips { chips ≡ 2 ^ N }
    requires some { 0 < chips }
{
    for _turn in 0..chips {
        for _ask in 0..2 {
            both.ask(&drawn_message(draws, chips));
        }
        for _clear in 0..2 {
            let chip = draws.below(chips);
            let proc = processor(draws.below(16) as u8);
            let _ = both.poke_flag(chip, proc, flag(RECV), false);
        }
    }
}

fn drawn_message(draws: &mut Draws, chips: u16) -> Message
    requires some { 0 < chips }
    ensures chip { result.tag.chip < chips }
{
    let chip = draws.below(chips);
    let tag = Tag {
        chip,
        proc: processor(draws.below(16) as u8),
        birth: 0,
    };
    let rel = draws.below(65_535);
    let receiver = if draws.below(2) == 0 {
        0
    } else {
        draws.below(16) as u8
    };
    message(rel, receiver, draws.number(), tag)
}

// ---- what both do

/// One petit cycle, and sometimes an instruction before it, or one after it.
fn drawn_acts(alloc: Global, draws: &mut Draws) -> Result<Vec<Act>, AllocError> {
    let mut acts = Vec::new(alloc);
    if draws.below(2) == 0 {
        put(&mut acts, drawn_nano(draws))?;
        put(&mut acts, Act::Sense)?;
    }
    put(&mut acts, Act::Cycle)?;
    if draws.below(4) == 0 {
        put(&mut acts, drawn_nano(draws))?;
    }
    Ok(acts)
}

fn put(acts: &mut Vec<Act>, act: Act) -> Result<(), AllocError> {
    let Ok(()) = acts.push(act) else {
        return Err(AllocError);
    };
    Ok(())
}

fn drawn_nano(draws: &mut Draws) -> Act {
    let a = drawn_address(draws);
    let b = drawn_address(draws);
    Act::Nano(draws.nano(a, b))
}

/// An address of a record, or sometimes one of the first eight.
fn drawn_address(draws: &mut Draws) -> Addr {
    if draws.below(4) == 0 {
        address(draws.below(8))
    } else {
        address(3968 + draws.below(96))
    }
}

// ---- what is seen afterwards

/// Whether both go through the acts, and are the same afterwards.
fn stays_plain_through<const N: usize, const CAP: usize>(
    both: &mut Both<N, CAP>,
    alloc: Global,
    acts: &[Act],
    chips: u16,
) -> Result<bool, AllocError>
    requires chips { chips ≡ 2 ^ N }
{
    if !both.go(alloc, acts) || !both.agree(chips) {
        return Ok(false);
    }
    are_found(alloc, &both.machine, &both.plain, chips)
}

/// Whether a machine goes as a plain one does through rounds of petit cycles, and a buffer was full
/// after one of them.
fn stays_plain<const N: usize, const CAP: usize>(alloc: Global, chips: u16) -> Option<bool>
    requires dimension { N ≤ 12 }
    requires chips { chips ≡ 2 ^ N }
    requires some { 0 < chips }
{
    let mut both = Both::<N, CAP>::blank(alloc)?;
    stay_plain_in_rounds(alloc, &mut both, chips, ROUNDS)
}

/// The same, where they are routed so, through fewer rounds, whether or not a buffer was full.
fn stays_plain_routed<const N: usize, const CAP: usize>(
    alloc: Global,
    chips: u16,
    way: &Way,
    rounds: u16,
) -> Option<bool>
    requires dimension { N ≤ 12 }
    requires chips { chips ≡ 2 ^ N }
    requires some { 0 < chips }
{
    let cuts = drawn_cuts(alloc, &mut Draws::new(1), chips, &way.cut)?;
    let mut both = Both::<N, CAP>::routed(alloc, cuts, way.rule)?;
    stay_plain_in_rounds(alloc, &mut both, chips, rounds).map(|_| true)
}

/// Whether a buffer was full. None where they did not stay the same.
fn stay_plain_in_rounds<const N: usize, const CAP: usize>(
    alloc: Global,
    both: &mut Both<N, CAP>,
    chips: u16,
    rounds: u16,
) -> Option<bool>
    requires chips { chips ≡ 2 ^ N }
    requires some { 0 < chips }
{
    let mut draws = Draws::new(0);
    let mut was_full = false;
    for _round in 0..rounds {
        if !stay_plain_in_round(alloc, both, &mut draws, chips)? {
            return None;
        }
        was_full |= has_full_buffer(&both.machine, chips);
    }
    Some(was_full)
}

/// One round: both are poked, and go through a drawn list of acts. Whether they are the same afterwards; None where
/// memory was refused.
fn stay_plain_in_round<const N: usize, const CAP: usize>(
    alloc: Global,
    both: &mut Both<N, CAP>,
    draws: &mut Draws,
    chips: u16,
) -> Option<bool>
    requires chips { chips ≡ 2 ^ N }
    requires some { 0 < chips }
{
    poke_both(both, draws, chips);
    let acts = drawn_acts(alloc, draws).ok()?;
    stays_plain_through(both, alloc, acts.as_slice(), chips).ok()
}

/// The same of routers with room for 1, 2, 7 and 15 messages.
fn stay_plain<const N: usize>(alloc: Global, chips: u16) -> [Option<bool>; 4]
    requires dimension { N ≤ 12 }
    requires chips { chips ≡ 2 ^ N }
    requires some { 0 < chips }
{
    [
        stays_plain::<N, 1>(alloc, chips),
        stays_plain::<N, 2>(alloc, chips),
        stays_plain::<N, 7>(alloc, chips),
        stays_plain::<N, 15>(alloc, chips),
    ]
}

/// Whether they do in every way, from this one on a way for each room.
fn stay_plain_in_ways<const N: usize>(
    alloc: Global,
    chips: u16,
    from: usize,
    rounds: u16,
) -> [Option<bool>; 4]
    requires dimension { N ≤ 12 }
    requires chips { chips ≡ 2 ^ N }
    requires some { 0 < chips }
    requires from { from < 5 }
{
    [
        stays_plain_routed::<N, 1>(alloc, chips, &WAYS[from], rounds),
        stays_plain_routed::<N, 2>(alloc, chips, &WAYS[(from + 1) % 5], rounds),
        stays_plain_routed::<N, 7>(alloc, chips, &WAYS[(from + 2) % 5], rounds),
        stays_plain_routed::<N, 15>(alloc, chips, &WAYS[(from + 3) % 5], rounds),
    ]
}

#[test]
fn chips_with_cut_wires_go_by_either_rule_as_the_plain_router_does(rt: HostRuntime) {
    let alloc = rt.alloc();
    let gone = [
        stay_plain_in_ways::<0>(alloc, 1, 0, 8),
        stay_plain_in_ways::<1>(alloc, 2, 1, 16),
        stay_plain_in_ways::<2>(alloc, 4, 2, 16),
        stay_plain_in_ways::<3>(alloc, 8, 3, 12),
        stay_plain_in_ways::<4>(alloc, 16, 4, 8),
        stay_plain_in_ways::<5>(alloc, 32, 0, 3),
    ];
    assert_eq!(rt; gone, [[Some(true); 4]; 6]);
}

#[test]
fn many_chips_with_cut_wires_go_by_either_rule_as_the_plain_router_does(rt: HostRuntime) {
    let alloc = rt.alloc();
    let gone = [
        stay_plain_in_ways::<6>(alloc, 64, 1, 3),
        stay_plain_in_ways::<7>(alloc, 128, 2, 2),
        stay_plain_in_ways::<8>(alloc, 256, 4, 2),
    ];
    assert_eq!(rt; gone, [[Some(true); 4]; 3]);
}

#[test]
fn one_chip_goes_as_the_plain_router_does(rt: HostRuntime) {
    assert_eq!(rt; stay_plain::<0>(rt.alloc(), 1), [Some(true); 4]);
}

#[test]
fn two_chips_go_as_the_plain_router_does(rt: HostRuntime) {
    assert_eq!(rt; stay_plain::<1>(rt.alloc(), 2), [Some(true); 4]);
}

#[test]
fn four_chips_go_as_the_plain_router_does(rt: HostRuntime) {
    assert_eq!(rt; stay_plain::<2>(rt.alloc(), 4), [Some(true); 4]);
}

#[test]
fn eight_chips_go_as_the_plain_router_does(rt: HostRuntime) {
    assert_eq!(rt; stay_plain::<3>(rt.alloc(), 8), [Some(true); 4]);
}

#[test]
fn sixteen_chips_go_as_the_plain_router_does(rt: HostRuntime) {
    assert_eq!(rt; stay_plain::<4>(rt.alloc(), 16), [Some(true); 4]);
}

#[test]
fn two_blocks_of_chips_go_as_the_plain_router_does(rt: HostRuntime) {
    assert_eq!(rt; stays_plain::<7, 2>(rt.alloc(), 128), Some(true));
}

/// Thirty times: all processors ask to send, all can receive, and a petit cycle.
fn busy_acts(alloc: Global) -> Result<Vec<Act>, AllocError> {
    let mut acts = Vec::new(alloc);
    for _round in 0..ROUNDS {
        put(&mut acts, everywhere(flag(SEND), 0xff))?;
        put(&mut acts, everywhere(flag(RECV), 0x00))?;
        put(&mut acts, Act::Cycle)?;
    }
    Ok(acts)
}

/// In each chip every processor asks to send to a random place.
fn ask_everywhere<const N: usize, const CAP: usize>(
    both: &mut Both<N, CAP>,
    draws: &mut Draws,
    chips: u16,
)
    requires chips { chips ≡ 2 ^ N }
    requires some { 0 < chips }
{
    for chip in 0..chips {
        for sender in 0u8..16 {
            let sent = Message {
                tag: tag(chip, sender),
                ..drawn_message(draws, chips)
            };
            both.ask(&sent);
        }
    }
}

/// Whether a machine in which all processors send goes as a plain one does through one list of thirty
/// petit cycles, in which more messages are taken in than there are places for at a time.
fn stays_plain_in_one_list<const N: usize, const CAP: usize>(
    alloc: Global,
    chips: u16,
) -> Option<bool>
    requires dimension { N ≤ 12 }
    requires chips { chips ≡ 2 ^ N }
    requires some { 0 < chips }
{
    let mut both = Both::<N, CAP>::blank(alloc)?;
    ask_everywhere(&mut both, &mut Draws::new(0), chips);
    stays_plain_when_busy(alloc, &mut both, chips)
}

/// The same, where they are routed so.
fn stays_plain_in_one_list_routed<const N: usize, const CAP: usize>(
    alloc: Global,
    chips: u16,
    way: &Way,
) -> Option<bool>
    requires dimension { N ≤ 12 }
    requires chips { chips ≡ 2 ^ N }
    requires some { 0 < chips }
{
    let cuts = drawn_cuts(alloc, &mut Draws::new(1), chips, &way.cut)?;
    let mut both = Both::<N, CAP>::routed(alloc, cuts, way.rule)?;
    ask_everywhere(&mut both, &mut Draws::new(0), chips);
    stays_plain_when_busy(alloc, &mut both, chips)
}

fn stays_plain_when_busy<const N: usize, const CAP: usize>(
    alloc: Global,
    both: &mut Both<N, CAP>,
    chips: u16,
) -> Option<bool>
    requires chips { chips ≡ 2 ^ N }
{
    let acts = busy_acts(alloc).ok()?;
    stays_plain_through(both, alloc, acts.as_slice(), chips).ok()
}

#[test]
fn messages_get_new_places_within_a_list_of_acts(rt: HostRuntime) {
    let sizes = [
        stays_plain_in_one_list::<0, 15>(rt.alloc(), 1),
        stays_plain_in_one_list::<2, 7>(rt.alloc(), 4),
    ];
    assert_eq!(rt; sizes, [Some(true); 2]);
}

#[test]
fn messages_get_new_places_by_either_rule_and_where_wires_are_cut(rt: HostRuntime) {
    let alloc = rt.alloc();
    let sizes = [
        stays_plain_in_one_list_routed::<2, 7>(alloc, 4, &WAYS[1]),
        stays_plain_in_one_list_routed::<3, 2>(alloc, 8, &WAYS[1]),
        stays_plain_in_one_list_routed::<3, 15>(alloc, 8, &WAYS[1]),
        stays_plain_in_one_list_routed::<4, 1>(alloc, 16, &WAYS[0]),
        stays_plain_in_one_list_routed::<4, 7>(alloc, 16, &WAYS[2]),
    ];
    assert_eq!(rt; sizes, [Some(true); 5]);
}
