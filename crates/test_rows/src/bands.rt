//! Runs of chips that begin at any chip of a machine: they go through petit cycles and instructions as the whole does
//! there.

ghost use Rattle.std.specs.Prelude.{◌+◌, ◌^◌, ◌≤◌, IsTrue};

use crate::routes::{Routes, is_of_cube, routed};
use cm_array::step;
use cm_bits::{Addr, Dir, Field, FlagNo, Proc};
use cm_element::Run;
use cm_message::{Event, Message, Tag};
use cm_model::Nano;
use cm_petit::{are_routers, deliver, has_log_room, has_space, inject};
use cm_router::{Routing, Rule};
use cm_router_engine::{RouterEngine, Shape};
use std::alloc::Global;
use std::test::Fail;

// Room of a router, how messages go, and where the drawing starts.
static CASES: [(u8, Routes, u64); 8] = [
    (1, Routes::PLAIN, 21),
    (2, Routes::PLAIN, 22),
    (7, Routes::PLAIN, 23),
    (15, Routes::PLAIN, 24),
    (
        1,
        Routes {
            rule: Rule::First,
            share: 3,
        },
        25,
    ),
    (
        2,
        Routes {
            rule: Rule::Oldest,
            share: 0,
        },
        26,
    ),
    (
        1,
        Routes {
            rule: Rule::Oldest,
            share: 4,
        },
        27,
    ),
    (
        7,
        Routes {
            rule: Rule::Oldest,
            share: 1,
        },
        28,
    ),
];

const CYCLES: u64 = 6;

// Where the drawing starts, with room for fifteen messages, of which none is referred.
const ALONE: [u64; 3] = [31, 32, 33];

const LOG_ROOM: usize = 512;

const INSTRUCTIONS: u64 = 8;

// What drawn instructions write: any flag but NEWS, which brings something in, and SEND.
const WRITTEN: [u8; 14] = [0, 1, 2, 3, 4, 5, 6, 7, 8, 9, 11, 13, 14, 15];

pub(crate) fn next(seed: u64) -> u64 {
    let mixed = seed
        .wrapping_mul(6364136223846793005)
        .wrapping_add(1442695040888963407);
    mixed ^ mixed >> 29
}

// A run of chips with its messages and logs, of which no contract tells anything.
#[derive(Drop)]
pub(crate) struct Band {
    sizes: Shape,
    span: u8,
    first: u16,
    routing: Routing,
    pub(crate) run: Run,
    crossing: RouterEngine,
    pub(crate) logs: Vec<Vec<Event>>,
    clock: u64,
}

// The sizes of a machine; numbers beyond what there is are cut to it.
pub(crate) fn sizes(dims: u8, room: u8) -> Shape {
    Shape {
        dims: dims.min(12),
        room: room.clamp(1, 15),
    }
}

// Whether so many chips of a machine stand from this one on.
fn are_chips(sizes: Shape, first: u16, count: usize) -> bool
    ensures band { IsTrue result → first + count ≤ 2 ^ sizes.dims }
{
    count <= 4096 && usize::from(first) + count <= 1 << sizes.dims
}

// Puts a number into a field of one processor.
fn put(run: &mut Run, chip: u16, proc: Proc, at: u16, len: u16, value: u64) {
    if usize::from(chip) < run.chips()
        && let Ok(field) = Field::new(at, len)
    {
        run.poke_field(chip, proc, field, value);
    }
}

fn put_flag(run: &mut Run, chip: u16, proc: Proc, number: FlagNo, bit: bool) {
    if usize::from(chip) < run.chips() {
        let _ = run.poke_flag(chip, proc, number, bit);
    }
}

// A drawn processor of a chip asks to send; another can receive again.
pub(crate) fn ask(run: &mut Run, chip: u16, seed: u64, most: u64) {
    let sender = Proc::new((seed & 15) as u8).unwrap();
    let receiver = Proc::new((seed >> 4 & 15) as u8).unwrap();
    put(run, chip, sender, 3968, 16, seed >> 8 & most);
    put(run, chip, sender, 3984, 4, seed >> 24 & 15);
    put(run, chip, sender, 3988, 32, seed >> 28);
    put_flag(run, chip, sender, FlagNo::SEND, true);
    put_flag(run, chip, receiver, FlagNo::RECV, false);
}

// As many logs, with room for events.
pub(crate) fn blank_logs(alloc: Global, chips: u16) -> Result<Vec<Vec<Event>>, Fail> {
    let mut logs = Vec::new(alloc);
    for _chip in 0..chips {
        logs.push(Vec::with_capacity(alloc, LOG_ROOM)?)?;
    }
    Ok(logs)
}

impl Band {
    pub(crate) fn blank(
        alloc: Global,
        sizes: Shape,
        span: u8,
        first: u16,
        routes: Routes,
    ) -> Result<Band, Fail> {
        let chips: u16 = 1 << (span & 7);
        Ok(Band {
            sizes,
            span,
            first,
            logs: blank_logs(alloc, chips)?,
            routing: routed(alloc, sizes.dims, routes)?,
            crossing: RouterEngine::new(alloc, usize::from(chips))?,
            run: Run::blank(alloc, chips)?,
            clock: 0,
        })
    }

    // A petit cycle of a whole machine.
    pub(crate) fn cycle(&mut self) -> bool {
        self.inject() && self.cross_own() && self.deliver()
    }

    fn inject(&mut self) -> bool {
        let sizes = self.sizes;
        if !are_chips(sizes, self.first, self.run.chips())
            || !are_routers(sizes, &self.run, &self.crossing, &self.logs)
            || !has_log_room(&self.logs, 4)
        {
            return false;
        }
        inject(
            sizes,
            self.first,
            &mut self.run,
            &mut self.crossing,
            &mut self.logs,
            self.clock,
        );
        true
    }

    fn deliver(&mut self) -> bool {
        let sizes = self.sizes;
        if !are_chips(sizes, self.first, self.run.chips())
            || !are_routers(sizes, &self.run, &self.crossing, &self.logs)
            || !has_log_room(&self.logs, usize::from(sizes.room))
        {
            return false;
        }
        deliver(
            sizes,
            self.first,
            &mut self.run,
            &mut self.crossing,
            &mut self.logs,
        );
        self.clock = self.clock.wrapping_add(1);
        true
    }

    // Whether these messages stand at a chip.
    pub(crate) fn has_messages(&mut self, chip: usize, messages: &[Message]) -> bool {
        self.crossing.gather();
        chip < self.crossing.chips() && self.crossing.buffer(chip) == messages
    }

    // The dimensions that the chips span.
    fn cross_own(&mut self) -> bool {
        for dim in 0..self.span {
            if !cross_one(
                self.sizes,
                self.span,
                &self.routing,
                self.first,
                &mut self.crossing,
                dim,
            ) {
                return false;
            }
        }
        true
    }
}

// Runs of one machine, of so many dimensions each, from these chips on.
fn blank_bands(
    alloc: Global,
    sizes: Shape,
    spans: &[(u8, u16)],
    routes: Routes,
) -> Result<Vec<Band>, Fail> {
    let mut bands = Vec::new(alloc);
    for (span, first) in spans {
        bands.push(Band::blank(alloc, sizes, *span, *first, routes)?)?;
    }
    Ok(bands)
}

fn cross_one(
    sizes: Shape,
    span: u8,
    routing: &Routing,
    first: u16,
    crossing: &mut RouterEngine,
    dim: u8,
) -> bool {
    if span > sizes.dims
        || !are_chips(sizes, first, crossing.chips())
        || !is_of_cube(routing, sizes)
        || first % (1 << span) != 0
        || dim >= span
        || crossing.chips() != 1 << span
        || !crossing.is_within(sizes.room)
    {
        return false;
    }
    crossing.cross(sizes, span, routing, first, dim);
    true
}

// What leaves a run of chips in a dimension that leads out of it.
fn send(band: &mut Band, dim: u8, leavers: &mut [Option<Message>]) -> bool {
    let sizes = band.sizes;
    if !are_chips(sizes, band.first, band.crossing.chips())
        || !is_of_cube(&band.routing, sizes)
        || dim >= sizes.dims
        || leavers.len() != band.crossing.chips()
        || !band.crossing.is_within(sizes.room)
    {
        return false;
    }
    band.crossing
        .leave(sizes, &band.routing, band.first, dim, leavers);
    true
}

// What comes to a run of chips. Nothing is written down then.
fn receive(band: &mut Band, leavers: &mut [Option<Message>]) -> bool {
    let sizes = band.sizes;
    if leavers.len() != band.crossing.chips()
        || !band.crossing.is_within(sizes.room)
        || !has_space(sizes, &band.crossing, leavers)
    {
        return false;
    }
    band.crossing.take_in(sizes, leavers);
    leavers.iter().all(|leaver| leaver.is_none())
}

// A dimension in which each of two runs sends to the other.
fn exchange(low: &mut Band, high: &mut Band, dim: u8) -> bool {
    let mut up = [None; 8];
    let mut down = [None; 8];
    send(low, dim, &mut up)
        && send(high, dim, &mut down)
        && receive(low, &mut down)
        && receive(high, &mut up)
}

pub(crate) fn has_same_planes(left: &Run, here: u16, right: &Run, there: u16) -> bool {
    if usize::from(here) >= left.chips() || usize::from(there) >= right.chips() {
        return false;
    }
    for at in 0u16..4096 {
        let at = Addr::new(at).unwrap();
        if left.plane(here, at) != right.plane(there, at) {
            return false;
        }
    }
    for number in 0u8..16 {
        let number = FlagNo::new(number).unwrap();
        if left.flag_plane(here, number) != right.flag_plane(there, number) {
            return false;
        }
    }
    true
}

fn has_same_messages(
    left: &mut RouterEngine,
    here: u16,
    right: &mut RouterEngine,
    there: u16,
) -> bool {
    let here = usize::from(here);
    let there = usize::from(there);
    left.gather();
    right.gather();
    here < left.chips() && there < right.chips() && left.buffer(here) == right.buffer(there)
}

// Whether a run has at each chip what the whole machine has there.
fn is_part(band: &mut Band, whole: &mut Band) -> bool {
    for chip in 0..1 << (band.span & 7) {
        let there = band.first.wrapping_add(chip);
        if !has_same_planes(&band.run, chip, &whole.run, there)
            || !has_same_messages(&mut band.crossing, chip, &mut whole.crossing, there)
            || band.logs.get(usize::from(chip)) != whole.logs.get(usize::from(there))
        {
            return false;
        }
    }
    band.clock == whole.clock
}

// Drawn processors of sixteen chips ask to send, in the whole machine and in its halves; the seed that comes next.
fn ask_halves(whole: &mut Run, low: &mut Run, high: &mut Run, seed: u64) -> u64 {
    let mut seed = seed;
    for chip in 0u16..16 {
        for _sender in 0..seed >> 40 & 7 {
            seed = next(seed);
            ask(whole, chip, seed, 15);
            if chip < 8 {
                ask(low, chip, seed, 15);
            } else {
                ask(high, chip - 8, seed, 15);
            }
        }
        seed = next(seed);
    }
    seed
}

// A petit cycle of two runs of eight chips, which exchange in dimension 3.
fn cycle_of_halves(low: &mut Band, high: &mut Band) -> bool {
    low.inject()
        && high.inject()
        && low.cross_own()
        && high.cross_own()
        && exchange(low, high, 3)
        && low.deliver()
        && high.deliver()
}

fn halves_stay_alike(whole: &mut Band, low: &mut Band, high: &mut Band, seed: u64) -> bool {
    let mut seed = seed;
    for _cycle in 0..CYCLES {
        seed = ask_halves(&mut whole.run, &mut low.run, &mut high.run, seed);
        if !whole.cycle() || !cycle_of_halves(low, high) {
            return false;
        }
        if !is_part(low, whole) || !is_part(high, whole) {
            return false;
        }
    }
    true
}

// Two runs of eight chips, which exchange in dimension 3, beside the machine of sixteen chips that they are.
fn halves_go_alike(alloc: Global, case: (u8, Routes, u64)) -> Result<bool, Fail> {
    let (room, routes, seed) = case;
    let mut bands = blank_bands(alloc, sizes(4, room), &[(4, 0), (3, 0), (3, 8)], routes)?;
    Ok(match bands.as_mut_slice() {
        [whole, low, high] => {
            halves_stay_alike(whole, low, high, seed) && !whole.crossing.is_empty()
        }
        _ => false,
    })
}

// An instruction on the processor and the payload of the sent record, which leaves the relative address as it is.
fn drawn_instruction(seed: u64) -> Nano {
    let write = WRITTEN[(seed >> 16 & 0xff) as usize % WRITTEN.len()];
    Nano {
        a: Addr::new(3984 + (seed & 31) as u16).unwrap(),
        b: Addr::new(3984 + (seed >> 5 & 31) as u16).unwrap(),
        read: FlagNo::new((seed >> 10 & 15) as u8).unwrap(),
        write: FlagNo::new(write).unwrap(),
        cond: FlagNo::new((seed >> 24 & 15) as u8).unwrap(),
        sense: seed >> 28 & 1 == 1,
        mem_table: (seed >> 32 & 0xff) as u8,
        flag_table: (seed >> 40 & 0xff) as u8,
        dir: Dir::North,
    }
}

// Instructions in sixteen chips by the machine's step, and in eight of them by that of a run.
fn both_step(whole: &mut Run, high: &mut Run, seed: u64) -> bool {
    let mut seed = seed;
    for _instruction in 0..INSTRUCTIONS {
        seed = next(seed);
        let nano = drawn_instruction(seed);
        if whole.chips() != 16 || nano.write == FlagNo::NEWS {
            return false;
        }
        step(4, whole, &nano, &mut [0; 16], &mut [0; 16]);
        high.step(&nano);
    }
    true
}

// Drawn processors of chips 8 to 15 ask to send, in the whole machine and in its upper half; the seed that comes next.
fn ask_upper_half(whole: &mut Run, high: &mut Run, seed: u64) -> u64 {
    let mut seed = seed;
    for chip in 0u16..8 {
        seed = next(seed);
        if seed >> 44 & 3 == 0 {
            ask(whole, chip + 8, seed, 7);
            ask(high, chip, seed, 7);
        }
    }
    seed
}

fn upper_half_stays_alike(whole: &mut Band, high: &mut Band, seed: u64) -> bool {
    let mut seed = seed;
    for _cycle in 0..CYCLES {
        seed = ask_upper_half(&mut whole.run, &mut high.run, seed);
        if !whole.cycle() || !high.inject() || !high.cross_own() || !high.deliver() {
            return false;
        }
        if !both_step(&mut whole.run, &mut high.run, seed) || !is_part(high, whole) {
            return false;
        }
    }
    true
}

// Chips 8 to 15 of sixteen, beside the whole machine, where nobody sends out of these chips or into them: petit
// cycles, and instructions after each. With room for fifteen no message is referred.
fn upper_half_goes_alone(alloc: Global, seed: u64) -> Result<bool, Fail> {
    let mut bands = blank_bands(alloc, sizes(4, 15), &[(4, 0), (3, 8)], Routes::PLAIN)?;
    Ok(match bands.as_mut_slice() {
        [whole, high] => upper_half_stays_alike(whole, high, seed),
        _ => false,
    })
}

// A message as a chip would have it whose number is so much less.
fn moved(message: Message, first: u16) -> Message {
    Message {
        tag: Tag {
            chip: message.tag.chip.wrapping_sub(first),
            ..message.tag
        },
        ..message
    }
}

fn moved_event(event: Event, first: u16) -> Event {
    match event {
        Event::Injected(message) => Event::Injected(moved(message, first)),
        Event::Delivered { message, chip } => Event::Delivered {
            message: moved(message, first),
            chip: chip.wrapping_sub(first),
        },
    }
}

fn are_moved(here: &[Message], there: &[Message], first: u16) -> bool {
    here.len() == there.len()
        && here
            .iter()
            .zip(there)
            .all(|(m, other)| moved(*m, first) == *other)
}

fn has_moved_messages(
    left: &mut RouterEngine,
    right: &mut RouterEngine,
    chip: u16,
    first: u16,
) -> bool {
    let chip = usize::from(chip);
    left.gather();
    right.gather();
    chip < left.chips()
        && chip < right.chips()
        && are_moved(left.buffer(chip), right.buffer(chip), first)
}

fn are_moved_events(here: &[Event], there: &[Event], first: u16) -> bool {
    here.len() == there.len()
        && here
            .iter()
            .zip(there)
            .all(|(event, other)| moved_event(*event, first) == *other)
}

fn has_moved_events(left: &[Vec<Event>], right: &[Vec<Event>], chip: u16, first: u16) -> bool {
    let chip = usize::from(chip);
    match (left.get(chip), right.get(chip)) {
        (Some(here), Some(there)) => are_moved_events(here, there, first),
        _ => false,
    }
}

// Drawn processors of both ask to send; the seed that comes next.
fn ask_both(here: &mut Run, there: &mut Run, seed: u64) -> u64 {
    let mut seed = seed;
    for chip in 0u16..2 {
        seed = next(seed);
        ask(here, chip, seed, 1);
        ask(there, chip, seed, 1);
    }
    seed
}

// Whether a run that begins at chip 5 has the messages of one that begins at chip 0, and other tags.
fn have_moved_messages(here: &mut RouterEngine, there: &mut RouterEngine) -> bool {
    for chip in 0u16..2 {
        if !has_moved_messages(here, there, chip, 5) {
            return false;
        }
    }
    true
}

// And its planes, and its events.
fn have_moved_events(here: &Band, there: &Band) -> bool {
    for chip in 0u16..2 {
        if !has_same_planes(&here.run, chip, &there.run, chip)
            || !has_moved_events(&here.logs, &there.logs, chip, 5)
            || here.logs.get(usize::from(chip)) == there.logs.get(usize::from(chip))
        {
            return false;
        }
    }
    true
}

fn stay_moved(here: &mut Band, there: &mut Band, seed: u64) -> bool {
    let mut seed = seed;
    for _cycle in 0..CYCLES {
        seed = ask_both(&mut here.run, &mut there.run, seed);
        if !here.inject()
            || !there.inject()
            || !have_moved_messages(&mut here.crossing, &mut there.crossing)
        {
            return false;
        }
        if !here.deliver() || !there.deliver() || !have_moved_events(here, there) {
            return false;
        }
    }
    true
}

// A run that begins at chip 5 has the planes of one that begins at chip 0, and other tags.
fn begins_anywhere(alloc: Global, case: (u8, Routes, u64)) -> Result<bool, Fail> {
    let (room, routes, seed) = case;
    let mut bands = blank_bands(alloc, sizes(4, room), &[(1, 5), (1, 0)], routes)?;
    Ok(match bands.as_mut_slice() {
        [here, there] => stay_moved(here, there, seed),
        _ => false,
    })
}

#[test]
fn two_halves_go_as_the_whole_does(rt: HostRuntime) -> Result<(), Fail> {
    for case in &CASES {
        assert!(&rt; halves_go_alike(rt.alloc(), *case)?, "{case:?}");
    }
    Ok(())
}

#[test]
fn chips_8_to_15_go_alone_as_the_whole_does_there(rt: HostRuntime) -> Result<(), Fail> {
    for seed in ALONE {
        assert!(&rt; upper_half_goes_alone(rt.alloc(), seed)?, "{seed}");
    }
    Ok(())
}

#[test]
fn a_run_that_begins_at_5_has_other_tags(rt: HostRuntime) -> Result<(), Fail> {
    for case in &CASES {
        assert!(&rt; begins_anywhere(rt.alloc(), *case)?, "{case:?}");
    }
    Ok(())
}
