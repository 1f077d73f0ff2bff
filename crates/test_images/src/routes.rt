//! Worked images of machines with cut wires and either rule, and the machines that they are the images of.

use cm_array::{Builder, Machine};
use cm_bits::{Edge, Proc};
use cm_image_dump::dump;
use cm_image_load::load;
use cm_message::{Message, Rule, Tag};
use std::alloc::Global;
use std::test::Fail;

/// Two blank chips, room for one message, the wire between them cut.
static ONE_CUT: [u8; 91] = [
    0x43, 0x4d, 0x31, 0x49, 2, 1, 1, 0, 0, 0, 0, 0, 0, 0, 0, 0, 0, 1, 0, 0, 0, 0, 0, 0, 0, 0, 0, 0,
    0, 0, 0, 0, 0, 0, 0, 0, 0, 0, 0, 0, 0, 0, 0, 0, 0, 0, 0, 0, 0, 0, 0, 0, 0, 0, 0, 0, 0, 0, 0, 0,
    0, 0, 0, 0, 0, 0, 0, 0, 0, 0, 0, 0, 0, 0, 0, 0, 0, 0, 0, 0, 0, 0, 0, 0, 0, 0, 0, 0, 0, 0, 0,
];

/// Two chips, room for seven messages, counter 5. At the first stand two messages, of which the second is older; the
/// oldest goes first.
static OLDEST: [u8; 124] = [
    0x43, 0x4d, 0x31, 0x49, 2, 1, 7, 1, 0, 0, 0, 0, 0, 0, 0, 5, 0, 0, 0, 0, 0, 0, 0, 0, 0, 0, 0, 0,
    0, 0, 0, 0, 0, 0, 0, 0, 0, 0, 0, 0, 0, 0, 0, 0, 0, 0, 0, 0, 0, 0, 0, 0, 2, 0, 1, 0, 0, 0, 0, 1,
    0, 0, 0, 0, 0, 0, 0, 0, 0, 0, 4, 0, 1, 1, 0, 0, 0, 2, 0, 0, 1, 0, 0, 0, 0, 0, 0, 0, 2, 0, 0, 0,
    0, 0, 0, 0, 0, 0, 0, 0, 0, 0, 0, 0, 0, 0, 0, 0, 0, 0, 0, 0, 0, 0, 0, 0, 0, 0, 0, 0, 0, 0, 0, 0,
];

/// The same where who came first goes first.
static FIRST: [u8; 122] = [
    0x43, 0x4d, 0x31, 0x49, 1, 1, 7, 0, 0, 0, 0, 0, 0, 0, 0, 5, 0, 0, 0, 0, 0, 0, 0, 0, 0, 0, 0, 0,
    0, 0, 0, 0, 0, 0, 0, 0, 0, 0, 0, 0, 0, 0, 0, 0, 0, 0, 0, 0, 0, 0, 2, 0, 1, 0, 0, 0, 0, 1, 0, 0,
    0, 0, 0, 0, 0, 0, 0, 0, 4, 0, 1, 1, 0, 0, 0, 2, 0, 0, 1, 0, 0, 0, 0, 0, 0, 0, 2, 0, 0, 0, 0, 0,
    0, 0, 0, 0, 0, 0, 0, 0, 0, 0, 0, 0, 0, 0, 0, 0, 0, 0, 0, 0, 0, 0, 0, 0, 0, 0, 0, 0, 0, 0,
];

/// The machine whose wire is cut.
fn one_cut(alloc: Global) -> Option<Machine<1, 1>> {
    let mut builder = Builder::start(alloc, 0).ok()?;
    builder.cut(Edge::new(0, 0)?);
    builder.done().ok()
}

/// The machine of two messages under a rule.
fn two_messages(alloc: Global, rule: Rule) -> Option<Machine<1, 7>> {
    let younger = message(0, 1, 4)?;
    let older = message(1, 2, 2)?;
    let mut builder = Builder::start(alloc, 5).ok()?;
    put(&mut builder, younger);
    put(&mut builder, older);
    builder.rule(rule);
    builder.done().ok()
}

/// Puts a message into the router of chip 0, if it can stand there.
fn put(builder: &mut Builder<1, 7>, message: Message) {
    let is_of_the_cube = message.rel < 2 && message.tag.chip < 2;
    if is_of_the_cube && message.tag.birth < builder.clock() && !builder.is_full(0) {
        builder.message(0, message);
    }
}

/// From a processor of chip 0 to that of chip 1.
fn message(proc: u8, payload: u32, birth: u64) -> Option<Message> {
    let proc = Proc::new(proc)?;
    Some(Message {
        rel: 1,
        proc,
        payload,
        tag: Tag {
            chip: 0,
            proc,
            birth,
        },
    })
}

/// Whether these are a machine's bytes.
fn are_of<const N: usize, const CAP: usize>(
    alloc: Global,
    machine: Option<Machine<N, CAP>>,
    bytes: &[u8],
) -> bool {
    match machine {
        Some(machine) => match dump(alloc, &machine) {
            Ok(text) => text.as_slice() == bytes,
            Err(_) => false,
        },
        None => false,
    }
}

/// Of a machine that is read: whether its wire is cut at either end, and its rule.
fn ways<const CAP: usize>(alloc: Global, bytes: &[u8]) -> Result<(bool, bool, Rule), Fail> {
    let machine = load::<1, CAP>(alloc, bytes)?;
    Ok((machine.cut(0, 0), machine.cut(1, 0), machine.rule()))
}

#[test]
fn machines_with_cut_wires_and_either_rule_have_their_worked_bytes(rt: HostRuntime) {
    let alloc = rt.alloc();
    let so = [
        are_of(alloc, one_cut(alloc), &ONE_CUT),
        are_of(alloc, two_messages(alloc, Rule::Oldest), &OLDEST),
        are_of(alloc, two_messages(alloc, Rule::First), &FIRST),
    ];
    assert_eq!(rt; so, [true; 3]);
}

#[test]
fn images_tell_which_wires_are_cut_and_the_rule(rt: HostRuntime) -> Result<(), Fail> {
    let alloc = rt.alloc();
    assert_eq!(rt; ways::<1>(alloc, &ONE_CUT)?, (true, true, Rule::First));
    assert_eq!(rt; ways::<7>(alloc, &OLDEST)?, (false, false, Rule::Oldest));
    assert_eq!(rt; ways::<7>(alloc, &FIRST)?, (false, false, Rule::First));
    Ok(())
}
