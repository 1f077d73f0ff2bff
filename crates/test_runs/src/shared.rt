//! Runs that are shared out in several ways, on whole machines, over cut wires and by either rule: the same bytes.

use crate::files::{files_of, run, with_cycles};
use std::alloc::{AllocError, Global};
use std::sync::Wait;
use std::thread::Threads;
use test_doubles::{Bytes, Room};

/// An image, the lines of a program with so many petit cycles behind them, commands, and what is answered.
struct Run {
    name: &'static str,
    /// Bytes, and so many behind them that are 0; and so on.
    image: &'static [(&'static [u8], usize)],
    lines: &'static [u8],
    cycles: usize,
    asks: &'static [u8],
    answers: &'static [u8],
    sharings: &'static [(u8, u8)],
}

/// One block, and one worker.
const WHOLE: (u8, u8) = (0, 1);

/// Blocks and workers: 2^k, and how many.
const OF_SIXTEEN: &[(u8, u8)] = &[(1, 1), (1, 2), (2, 1), (2, 2), (2, 3), (2, 4)];

const OF_TWO: &[(u8, u8)] = &[(1, 1), (1, 2)];

/// The first four processors of each of sixteen chips send to processor 5 of the chip across four dimensions.
const FOUR_OF_EACH: &[u8] = b"\
    nano 0 0 8 11 8 0 0xf0 0xff n\n\
    nano 0 0 11 11 8 0 0xf0 0xaa n\n\
    nano 0 0 11 11 8 0 0xf0 0xaa n\n\
    nano 0 0 11 11 8 0 0xf0 0xaa n\n\
    field rel 3968 16\n\
    field proc 3984 4\n\
    field data 3988 32\n\
    unless 11\n\
    const rel 15\n\
    const proc 5\n\
    const data 7\n\
    set 12\n\
    always\n";

const ASKS_OF_FOUR: &[u8] = b"run\nbuf 15\nfind 0 2 0\nevents 15\n";

/// Where flag 0 is 1 a processor sends to processor 5 of the chip across dimension 0.
const ACROSS_0: &[u8] = b"\
    field rel 3968 16\n\
    field proc 3984 4\n\
    field data 3988 32\n\
    if 0\n\
    const rel 1\n\
    const proc 5\n\
    const data 0xDEADBEEF\n\
    set 12\n\
    always\n";

/// The same to processor 3 of the chip across dimension 1.
const ACROSS_1: &[u8] = b"\
    field rel 3968 16\n\
    field proc 3984 4\n\
    field data 3988 32\n\
    if 0\n\
    const rel 2\n\
    const proc 3\n\
    const data 7\n\
    set 12\n\
    always\n";

/// Two messages of chip 0 to chip 1, born in petit cycles 4 and 2.
const TWO_MESSAGES: &[u8] = b"\x02\
    \0\x01\0\0\0\0\x01\0\0\0\0\0\0\0\0\0\0\x04\
    \0\x01\x01\0\0\0\x02\0\0\x01\0\0\0\0\0\0\0\x02";

const ASKS_OF_TWO: &[u8] = b"rule\nrun\nfind 0 0 4\nfind 0 1 2\n";

static RUNS: [Run; 8] = [
    Run {
        name: "sixteen chips",
        image: &[(b"CM1I\x01\x04\x07\0", 568)],
        lines: FOUR_OF_EACH,
        cycles: 64,
        asks: ASKS_OF_FOUR,
        answers: b"\
            end\n\
            buf 3\n\
            msg 0 5 0x00000007 0 3 0\n\
            msg 0 5 0x00000007 0 0 0\n\
            msg 0 5 0x00000007 0 1 0\n\
            delivered 15 5\n\
            events 5\n\
            in 15 5 0x00000007 15 0 0\n\
            in 15 5 0x00000007 15 1 0\n\
            in 15 5 0x00000007 15 2 0\n\
            in 15 5 0x00000007 15 3 0\n\
            out 0 5 0x00000007 0 2 0\n",
        sharings: OF_SIXTEEN,
    },
    Run {
        name: "sixteen chips, by the second rule",
        image: &[(b"CM1I\x02\x04\x07\x01", 570)],
        lines: FOUR_OF_EACH,
        cycles: 64,
        asks: ASKS_OF_FOUR,
        answers: b"\
            end\n\
            buf 3\n\
            msg 0 5 0x00000007 0 1 0\n\
            msg 0 5 0x00000007 0 2 0\n\
            msg 0 5 0x00000007 0 3 0\n\
            router 15\n\
            events 5\n\
            in 15 5 0x00000007 15 0 0\n\
            in 15 5 0x00000007 15 1 0\n\
            in 15 5 0x00000007 15 2 0\n\
            in 15 5 0x00000007 15 3 0\n\
            out 0 5 0x00000007 0 0 0\n",
        sharings: OF_SIXTEEN,
    },
    Run {
        name: "sixteen chips, the wires from 0 to 1 and from 7 to 15 are cut",
        image: &[(b"CM1I\x02\x04\x07\0", 9), (b"\x02\0\0\0\0\x07\x03", 560)],
        lines: FOUR_OF_EACH,
        cycles: 64,
        asks: ASKS_OF_FOUR,
        answers: b"\
            end\n\
            buf 2\n\
            msg 8 5 0x00000007 8 1 0\n\
            msg 0 5 0x00000007 0 1 0\n\
            delivered 15 5\n\
            events 5\n\
            in 15 5 0x00000007 15 0 0\n\
            in 15 5 0x00000007 15 1 0\n\
            in 15 5 0x00000007 15 2 0\n\
            in 15 5 0x00000007 15 3 0\n\
            out 0 5 0x00000007 0 2 0\n",
        sharings: OF_SIXTEEN,
    },
    Run {
        name: "the same by the second rule",
        image: &[(b"CM1I\x02\x04\x07\x01", 9), (b"\x02\0\0\0\0\x07\x03", 560)],
        lines: FOUR_OF_EACH,
        cycles: 64,
        asks: ASKS_OF_FOUR,
        answers: b"\
            end\n\
            buf 4\n\
            msg 8 5 0x00000007 8 0 0\n\
            msg 0 5 0x00000007 0 1 0\n\
            msg 0 5 0x00000007 0 2 0\n\
            msg 0 5 0x00000007 0 3 0\n\
            router 15\n\
            events 5\n\
            in 15 5 0x00000007 15 0 0\n\
            in 15 5 0x00000007 15 1 0\n\
            in 15 5 0x00000007 15 2 0\n\
            in 15 5 0x00000007 15 3 0\n\
            out 0 5 0x00000007 0 0 0\n",
        sharings: OF_SIXTEEN,
    },
    Run {
        name: "two chips whose wire is cut: the message stays, though the router is full",
        image: &[(b"CM1I\x02\x01\x01\0", 9), (b"\x01\0\0\0", 70)],
        lines: ACROSS_0,
        cycles: 1,
        asks: b"pokeflag 0 0 0 1\nrun\nfind 0 0 0\nbuf 0\n",
        answers: b"ok\nend\nrouter 0\nbuf 1\nmsg 1 5 0xdeadbeef 0 0 0\n",
        sharings: OF_TWO,
    },
    Run {
        name: "four chips, the wire from 0 to 2 is cut: the message comes by way of chip 3",
        image: &[(b"CM1I\x02\x02\x01\0", 9), (b"\x01\0\0\x01", 140)],
        lines: ACROSS_1,
        cycles: 2,
        asks: b"pokeflag 0 0 0 1\nbreak 54\nrun\nbuf 3\nrun\nfind 0 0 0\n",
        answers: b"ok\nbreak 54\nat 54\nbuf 1\nmsg 1 3 0x00000007 0 0 0\nend\ndelivered 2 3\n",
        sharings: OF_TWO,
    },
    Run {
        name: "two messages with one way: who came first goes first",
        image: &[
            (b"CM1I\x01\x01\x07\0\0\0\0\0\0\0\0\x05", 34),
            (TWO_MESSAGES, 35),
        ],
        lines: b"",
        cycles: 1,
        asks: ASKS_OF_TWO,
        answers: b"rule 0\nend\ndelivered 1 0\nrouter 0\n",
        sharings: OF_TWO,
    },
    Run {
        name: "two messages with one way: the oldest goes first",
        image: &[
            (b"CM1I\x02\x01\x07\x01\0\0\0\0\0\0\0\x05", 36),
            (TWO_MESSAGES, 35),
        ],
        lines: b"",
        cycles: 1,
        asks: ASKS_OF_TWO,
        answers: b"rule 1\nend\nrouter 0\ndelivered 1 1\n",
        sharings: OF_TWO,
    },
];

impl Run {
    fn image(&self, alloc: Global) -> Result<Vec<u8>, AllocError> {
        let mut bytes = Vec::new(alloc);
        for (some, zeros) in self.image {
            bytes.extend_from_slice(some)?;
            for _ in 0..*zeros {
                bytes.push(0)?;
            }
        }
        Ok(bytes)
    }

    /// The image of what the run leaves, if its answers are as they should be.
    fn left<R: Threads + Wait + Sync>(
        &self,
        rt: &R,
        alloc: Global,
        sharing: (u8, u8),
    ) -> Option<Vec<u8>> {
        let image = self.image(alloc).ok()?;
        let text = with_cycles(alloc, self.lines, self.cycles).ok()?;
        let files = files_of(alloc, image.as_slice(), text.as_slice(), sharing);
        let mut commands = Bytes::new(self.asks, 7);
        let mut answers = Room::new(alloc, 1000, 100).ok()?;
        let ended = run(rt, files, &mut commands, &mut answers)?;
        if answers.taken() != self.answers {
            return None;
        }
        ended.left
    }

    /// The first sharing by which it answers otherwise, or leaves another image than one block and one worker.
    fn first_not_so<R: Threads + Wait + Sync>(&self, rt: &R, alloc: Global) -> Option<(u8, u8)> {
        let whole = self.left(rt, alloc, WHOLE);
        if whole.is_none() {
            return Some(WHOLE);
        }
        for sharing in self.sharings {
            if self.left(rt, alloc, *sharing) != whole {
                return Some(*sharing);
            }
        }
        None
    }
}

#[test]
fn messages_cross_blocks_as_they_cross_chips(rt: HostRuntime) {
    for run in &RUNS {
        assert_eq!(rt; run.first_not_so(&rt, rt.alloc()), None, "{}", run.name);
    }
}
