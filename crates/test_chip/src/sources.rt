//! Sources: those in memory, those of std, and reading one to its end.

ghost use Rattle.std.specs.Prelude.{◌<◌};

use crate::cases::{Case, first_not_so};
use crate::scripted::{Answer, Scripted};
use cm_bits::{Failed, Source, Std};
use cm_system::{TakeFault, take};
use std::alloc::Global;
use std::test::Fail;
use test_doubles::Bytes;

const ROOM: usize = 32;

/// Whether a source gives this to calls with so much room, 32 at most.
fn gives<I: Source>(source: &mut I, room: usize, wanted: &[Result<&[u8], Failed>]) -> bool {
    let mut buf = [0u8; ROOM];
    for want in wanted {
        let piece = &mut buf[..room.min(ROOM)];
        match (source.read(piece), want) {
            (Ok(count), Ok(bytes)) => {
                if &piece[..count] != *bytes {
                    return false;
                }
            }
            (Err(_), Err(_)) => {}
            _ => return false,
        }
    }
    true
}

/// A source in memory, and what it gives call by call.
struct InMemory {
    name: &'static str,
    step: usize,
    good: Option<usize>,
    given: &'static [Result<&'static [u8], Failed>],
}

impl Case for InMemory {
    fn name(&self) -> &'static str {
        self.name
    }

    fn is_so(&self, _alloc: Global) -> Result<bool, Fail> {
        let mut source = match self.good {
            Some(good) => Bytes::failing(b"abcd", self.step, good),
            None => Bytes::new(b"abcd", self.step),
        };
        Ok(gives(&mut source, 8, self.given))
    }
}

static IN_MEMORY: [InMemory; 3] = [
    InMemory {
        name: "bytes come in steps, then none",
        step: 3,
        good: None,
        given: &[Ok(b"abc"), Ok(b"d"), Ok(b"")],
    },
    InMemory {
        name: "a step of 0 is one of 1",
        step: 0,
        good: None,
        given: &[Ok(b"a"), Ok(b"b")],
    },
    InMemory {
        name: "each call fails once the good bytes came",
        step: 8,
        good: Some(3),
        given: &[Ok(b"abc"), Err(Failed), Err(Failed)],
    },
];

/// A source of std over a reader with these answers, and what it gives call by call.
struct OfStd {
    name: &'static str,
    answers: &'static [Answer],
    given: &'static [Result<&'static [u8], Failed>],
}

impl Case for OfStd {
    fn name(&self) -> &'static str {
        self.name
    }

    fn is_so(&self, _alloc: Global) -> Result<bool, Fail> {
        let mut source = Std::new(Scripted::new(self.answers));
        Ok(gives(&mut source, 2, self.given))
    }
}

static OF_STD: [OfStd; 2] = [
    OfStd {
        name: "a failed read is not tried again",
        answers: &[Answer::Fails, Answer::Takes(2), Answer::Takes(0)],
        given: &[Err(Failed), Ok(b"\0\0"), Ok(b"")],
    },
    OfStd {
        name: "neither a short read nor an end is tried again",
        answers: &[
            Answer::Takes(1),
            Answer::Takes(0),
            Answer::Takes(9),
            Answer::Fails,
        ],
        given: &[Ok(b"\0"), Ok(b""), Ok(b"\0\0"), Err(Failed)],
    },
];

const LINE: &[u8] = b"nano 0 0 8 0 8 0 0xff 0xff n\n";

/// A text in pieces of 1 to 30 bytes, after how many bytes its source fails, a limit, and what `take`
/// answers.
struct Taken(
    &'static str,
    &'static [u8],
    Option<usize>,
    u16,
    Result<(), TakeFault>,
);

impl Taken {
    fn is_so_in_pieces(&self, alloc: Global, piece: usize) -> bool
        requires some { 0 < piece }
    {
        let Taken(_, text, good, limit, answer) = *self;
        let mut source = match good {
            Some(good) => Bytes::failing(text, piece, good),
            None => Bytes::new(text, piece),
        };
        match take(alloc, &mut source, u64::from(limit)) {
            Ok(bytes) => answer.is_ok() && bytes.as_slice() == text,
            Err(fault) => answer == Err(fault) && self.goes_on(&mut source, piece, fault),
        }
    }

    /// Whether a source of which too much came gives the bytes behind it.
    fn goes_on(&self, source: &mut Bytes<'_>, piece: usize, fault: TakeFault) -> bool
        requires some { 0 < piece }
    {
        match fault {
            TakeFault::TooMuch => gives(source, ROOM, &[self.next_after_too_much(piece)]),
            _ => true,
        }
    }

    /// What the source gives to the first call after more bytes than the limit came.
    fn next_after_too_much(&self, piece: usize) -> Result<&[u8], Failed>
        requires some { 0 < piece }
    {
        let Taken(_, text, good, limit, _) = *self;
        if good.is_some() {
            return Err(Failed);
        }
        let pieces = usize::from(limit) / piece;
        let gone = pieces.saturating_add(1).saturating_mul(piece);
        let left = &text[gone.min(text.len())..];
        Ok(&left[..piece.min(left.len())])
    }
}

impl Case for Taken {
    fn name(&self) -> &'static str {
        self.0
    }

    fn is_so(&self, alloc: Global) -> Result<bool, Fail> {
        for piece in 1usize..31 {
            if !self.is_so_in_pieces(alloc, piece) {
                return Ok(false);
            }
        }
        Ok(true)
    }
}

static TAKEN: [Taken; 9] = [
    Taken("as many bytes as the limit", LINE, None, 29, Ok(())),
    Taken("one byte more", LINE, None, 28, Err(TakeFault::TooMuch)),
    Taken(
        "many more, which stay where they are",
        LINE,
        None,
        10,
        Err(TakeFault::TooMuch),
    ),
    Taken("no byte where none may come", b"", None, 0, Ok(())),
    Taken(
        "a read that fails before the limit",
        LINE,
        Some(10),
        29,
        Err(TakeFault::Read),
    ),
    Taken(
        "a read that fails at the limit",
        LINE,
        Some(10),
        10,
        Err(TakeFault::Read),
    ),
    Taken(
        "a read that fails at the end",
        LINE,
        Some(29),
        29,
        Err(TakeFault::Read),
    ),
    Taken(
        "a read that would fail beyond the limit",
        LINE,
        Some(11),
        10,
        Err(TakeFault::TooMuch),
    ),
    Taken(
        "one that would fail at the end beyond it",
        LINE,
        Some(29),
        28,
        Err(TakeFault::TooMuch),
    ),
];

/// What `take` answers to so many zeros, where as many may come as a program's text has.
fn zeros_taken(alloc: Global, count: usize) -> Result<Result<(), TakeFault>, Fail> {
    let zeros = vec![in alloc; 0; count]?;
    let taken = take(alloc, &mut Bytes::new(&zeros, 65536), 16_777_216);
    match taken {
        Ok(bytes) if bytes.as_slice() == zeros.as_slice() => Ok(Ok(())),
        Ok(_) => Err(Fail::new("other bytes")),
        Err(fault) => Ok(Err(fault)),
    }
}

/// A reader that fails behind its end.
static ENDING: [Answer; 3] = [Answer::Takes(2), Answer::Takes(0), Answer::Fails];

/// Whether `take` asks it for nothing there.
fn is_taken_once(alloc: Global) -> bool {
    let mut source = Std::new(Scripted::new(&ENDING));
    match take(alloc, &mut source, 9) {
        Ok(bytes) => bytes.as_slice() == b"\0\0".as_slice(),
        Err(_) => false,
    }
}

/// Whether a reader of std over three bytes gives them two a call, and then its end.
fn std_gives_its_bytes() -> bool {
    let mut source = Std::new(b"abc".as_slice());
    gives(&mut source, 2, &[Ok(b"ab"), Ok(b"c"), Ok(b"")])
}

#[test]
fn sources_give_each_read_once(rt: HostRuntime) -> Result<(), Fail> {
    let alloc = rt.alloc();
    let not_so = [
        first_not_so(alloc, &IN_MEMORY)?,
        first_not_so(alloc, &OF_STD)?,
    ];
    assert_eq!(rt; (not_so, std_gives_its_bytes()), ([None; 2], true));
    Ok(())
}

#[test]
fn take_reads_to_the_end_and_no_further_than_its_limit(rt: HostRuntime) -> Result<(), Fail> {
    let alloc = rt.alloc();
    let zeros = [
        zeros_taken(alloc, 16_777_216)?,
        zeros_taken(alloc, 16_777_217)?,
    ];
    let wanted = [Ok(()), Err(TakeFault::TooMuch)];
    assert_eq!(rt; (first_not_so(alloc, &TAKEN)?, zeros), (None, wanted));
    assert!(rt; is_taken_once(alloc), "what stands behind the end");
    Ok(())
}
