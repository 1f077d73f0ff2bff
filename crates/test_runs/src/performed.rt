//! The whole program over what lies outside in memory: which files it touches, in which order, what it tells.

use cm_bits::{Failed, Sink};
use cm_cli::perform;
use cm_system::{LineFault, PutFault, System, Written};
use std::alloc::{AllocError, Global};
use std::sync::Wait;
use std::thread::Threads;
use test_doubles::{Bytes, Room};

/// How many bytes of standard input come before a read fails, how many standard output and standard error take, and
/// whether what standard output has taken goes out.
#[derive(Clone, Copy)]
struct Ends {
    input: usize,
    output: usize,
    errors: usize,
    goes_out: bool,
}

/// Each holds.
const WHOLE: Ends = Ends {
    input: 1000,
    output: 1000,
    errors: 100,
    goes_out: true,
};

/// The first read of standard input fails: where another fault is told, nothing was read of it.
const UNREAD: Ends = Ends {
    input: 0,
    output: 0,
    errors: 100,
    goes_out: true,
};

/// The same, and standard output takes what comes.
const UNASKED: Ends = Ends {
    input: 0,
    output: 1000,
    errors: 100,
    goes_out: true,
};

/// A later read of standard input fails.
const BROKEN: Ends = Ends {
    input: 4,
    output: 1000,
    errors: 100,
    goes_out: true,
};

/// Standard output takes some bytes.
const NARROW: Ends = Ends {
    input: 1000,
    output: 6,
    errors: 100,
    goes_out: true,
};

/// Standard output takes all, and nothing goes out.
const HELD_UP: Ends = Ends {
    input: 1000,
    output: 1000,
    errors: 100,
    goes_out: false,
};

/// Standard error takes some bytes, and standard input gives none.
const UNTOLD: Ends = Ends {
    input: 0,
    output: 0,
    errors: 5,
    goes_out: true,
};

/// Standard input, how long the ends hold, what stands on standard output in the end, and rows: the words behind the
/// program's name, what is done outside, the status, and what stands on standard error.
struct Table {
    input: &'static [u8],
    ends: Ends,
    output: &'static str,
    rows: &'static [&'static str],
}

/// One chip, room for seven messages, nothing in it.
const ONE: &[u8] = b"CM1I\x01\0\x07\0\0\0\0\0\0\0\0\0\
    \0\0\0\0\0\0\0\0\0\0\0\0\0\0\0\0\0\0\0\0\0\0\0\0\0\0\0\0\0\0\0\0\0\0\0";

/// Two of them.
const TWO: &[u8] = b"CM1I\x01\x01\x07\0\0\0\0\0\0\0\0\0\
    \0\0\0\0\0\0\0\0\0\0\0\0\0\0\0\0\0\0\0\0\0\0\0\0\0\0\0\0\0\0\0\0\0\0\0\
    \0\0\0\0\0\0\0\0\0\0\0\0\0\0\0\0\0\0\0\0\0\0\0\0\0\0\0\0\0\0\0\0\0\0\0";

/// Two of them, after as many petit cycles as there may be.
const LAST: &[u8] = b"CM1I\x01\x01\x07\0\x7f\xff\xff\xff\xff\xff\xff\xff\
    \0\0\0\0\0\0\0\0\0\0\0\0\0\0\0\0\0\0\0\0\0\0\0\0\0\0\0\0\0\0\0\0\0\0\0\
    \0\0\0\0\0\0\0\0\0\0\0\0\0\0\0\0\0\0\0\0\0\0\0\0\0\0\0\0\0\0\0\0\0\0\0";

/// One whose routers have room for two, which the program has no machines of.
const OTHER: &[u8] = b"CM1I\x01\0\x02\0";

/// What a file has, and how much of it comes before a read fails.
fn file(path: &str) -> Option<(&'static [u8], usize)> {
    match path {
        "one" => Some((ONE, 1000)),
        "two" => Some((TWO, 1000)),
        "other" => Some((OTHER, 1000)),
        "cut" => Some((b"CM1I\x01\0\x07\0\0\0\0\0", 1000)),
        "last" => Some((LAST, 1000)),
        "empty" => Some((b"", 1000)),
        "sets" => Some((b"set 9\n", 1000)),
        "cycle" => Some((b"cycle\n", 1000)),
        "cycles" => Some((CYCLES, 1000)),
        "twelve" => Some((TWELVE, 1000)),
        "nine" => Some((NINE, 1000)),
        "breaks" => Some((TWELVE, 20)),
        "bad" => Some((b"grip 0\ngrip 2\ngrip x\n\ngrip\njump 0\n", 1000)),
        "wrong" => Some((b"set 9\njump\n", 1000)),
        "folder" => Some((b"", 0)),
        _ => None,
    }
}

/// More petit cycles than one stretch has.
const CYCLES: &[u8] = b"\
    cycle\ncycle\ncycle\ncycle\ncycle\ncycle\ncycle\ncycle\ncycle\ncycle\ncycle\ncycle\ncycle\n\
    cycle\ncycle\ncycle\ncycle\ncycle\ncycle\ncycle\ncycle\ncycle\ncycle\ncycle\ncycle\ncycle\n\
    cycle\ncycle\ncycle\ncycle\ncycle\ncycle\ncycle\ncycle\ncycle\ncycle\ncycle\ncycle\ncycle\n\
    cycle\ncycle\ncycle\ncycle\ncycle\ncycle\ncycle\ncycle\ncycle\ncycle\ncycle\ncycle\ncycle\n\
    cycle\ncycle\ncycle\ncycle\ncycle\ncycle\ncycle\ncycle\ncycle\ncycle\ncycle\ncycle\ncycle\n";

/// Steps of two chips, a block each, in a petit cycle.
const TWELVE: &[u8] = b"draw 0\ngrip 0\ngrip 0\nfile 0\ndraw 0\ngrip 1\nfile 1\ndraw 0\nclear 0\n\
    draw 1\nclear 1\nclear 1\n";

/// Those but for the last three.
const NINE: &[u8] = b"draw 0\ngrip 0\ngrip 0\nfile 0\ndraw 0\ngrip 1\nfile 1\ndraw 0\nclear 0\n";

/// Words that are no text, and words for which there is no memory.
const NO_TEXT: &str = "no text";

const NO_MEMORY: &str = "no memory";

/// Bit 5 of all processors becomes 1.
const CHIP: &[u8] = b"nano 5 0 8 8 8 0 0xff 0 n\n";

const FLAGS: &str = "\
    flag 0 0000\nflag 1 0000\nflag 2 0000\nflag 3 0000\n\
    flag 4 0000\nflag 5 0000\nflag 6 0000\nflag 7 0000\n\
    flag 8 0000\nflag 9 0000\nflag 10 0000\nflag 11 0000\n\
    flag 12 0000\nflag 13 0000\nflag 14 0000\nflag 15 0000\n\
    plane 5 ffff\n";

/// What the steps of the file `twelve` come to.
const WOVEN: &str = "? 34\nok\n? 34\nok\n? 34\nok\nok\nok\nok\nok\nok\n? 34\nfinished\n";

/// Of the file `sets`.
const LISTING: &str = "nano 0 0 8 9 8 0 0xf0 0xff n ; 0\n";

const ASKS: &[u8] = b"run\nflag 0 0 9\n";

const ANSWERS: &str = "end\nflag 1\n";

static TABLES: [Table; 27] = [
    // words that are none
    Table {
        input: b"",
        ends: UNREAD,
        output: "",
        rows: &[
            "no text => words: 2 cm1: bad command line",
            "no memory => words: 3 cm1: 33 Memory",
            " => words: 2 cm1: bad command line",
            "jump => words: 2 cm1: bad command line",
            "run one => words: 2 cm1: bad command line",
            "run one sets --workers 65 => words: 2 cm1: bad command line",
            "run one sets --split 7 => words: 2 cm1: bad command line",
            "fresh 13 7 left => words: 2 cm1: bad command line",
        ],
    },
    // a session of one chip
    Table {
        input: CHIP,
        ends: WHOLE,
        output: FLAGS,
        rows: &["chip => words, flush: 0 "],
    },
    Table {
        input: CHIP,
        ends: HELD_UP,
        output: FLAGS,
        rows: &["chip => words, flush: 4 cm1: 31 Write"],
    },
    Table {
        input: CHIP,
        ends: NARROW,
        output: "flag 0",
        rows: &["chip => words: 4 cm1: 31 Write"],
    },
    Table {
        input: CHIP,
        ends: BROKEN,
        output: "",
        rows: &["chip => words: 4 cm1: 30 Read"],
    },
    Table {
        input: b"cycle\n",
        ends: WHOLE,
        output: "",
        rows: &["chip => words: 1 cm1: line 1: 15 Word"],
    },
    // a listing
    Table {
        input: b"",
        ends: WHOLE,
        output: LISTING,
        rows: &["list sets => words, open sets, flush: 0 "],
    },
    Table {
        input: b"",
        ends: HELD_UP,
        output: LISTING,
        rows: &["list sets => words, open sets, flush: 4 cm1: 31 Write"],
    },
    Table {
        input: b"",
        ends: NARROW,
        output: "nano 0",
        rows: &["list sets => words, open sets: 4 cm1: 31 Write"],
    },
    Table {
        input: b"",
        ends: UNREAD,
        output: "",
        rows: &[
            "list none => words, open none: 4 cm1: 30 Read",
            "list folder => words, open folder: 4 cm1: 30 Read",
            "list wrong => words, open wrong: 1 cm1: line 2: 15 Word",
        ],
    },
    // a blank image
    Table {
        input: b"",
        ends: UNREAD,
        output: "",
        rows: &[
            "fresh 0 7 left => words, ready left, fill left 51: 0 ",
            "fresh 2 1 left => words, ready left, fill left 156: 0 ",
            "fresh 0 2 left => words: 1 cm1: 5 Cap",
            "fresh 0 7 locked => words, ready locked: 4 cm1: 31 Write",
            "fresh 0 7 much => words, ready much: 3 cm1: 33 Memory",
            "fresh 0 7 full => words, ready full, fill full 20: 4 cm1: 31 Write",
        ],
    },
    // a session of an image: what it answers goes out before a file is filled
    Table {
        input: ASKS,
        ends: WHOLE,
        output: ANSWERS,
        rows: &[
            "run one sets => words, open one, open sets, flush: 0 ",
            "run one sets --out left => words, open one, open sets, ready left, flush, fill left 51: 0 ",
            "run one sets --out one => words, open one, open sets, ready one, flush, fill one 51: 0 ",
            "run two sets --split 1 => words, open two, open sets, flush: 0 ",
            "run two sets --split 1 --workers 2 --out left => \
             words, open two, open sets, ready left, flush, fill left 86: 0 ",
            "run one sets --out full => words, open one, open sets, ready full, flush, fill full 20: 4 cm1: 31 Write",
            "run two sets --split 1 --workers 2 --out full => \
             words, open two, open sets, ready full, flush, fill full 20: 4 cm1: 31 Write",
            "run one sets --out scarce => \
             words, open one, open sets, ready scarce, flush, fill scarce 0: 3 cm1: 33 Memory",
        ],
    },
    // one that is refused, the first of its faults told: nothing is read of standard input, and nothing else is touched
    Table {
        input: ASKS,
        ends: UNREAD,
        output: "",
        rows: &[
            "run none sets --out left => words, open none: 4 cm1: 30 Read",
            "run folder sets --out left => words, open folder: 4 cm1: 30 Read",
            "run cut sets --out left => words, open cut: 1 cm1: 21 Short",
            "run other sets --out left => words, open other: 1 cm1: 5 Cap",
            "run cut wrong --split 6 --workers 64 --out locked => words, open cut: 1 cm1: 21 Short",
            "run one none --out left => words, open one, open none: 4 cm1: 30 Read",
            "run one folder --out left => words, open one, open folder: 4 cm1: 30 Read",
            "run one wrong --split 6 --workers 64 --out locked => words, open one, open wrong: 1 cm1: line 2: 15 Word",
            "run one sets --split 1 --out left => words, open one, open sets: 1 cm1: 37 Split",
            "run two sets --split 1 --workers 3 --out left => words, open two, open sets: 1 cm1: 36 Workers",
            "run one sets --split 1 --workers 2 --out locked => words, open one, open sets: 1 cm1: 37 Split",
            "run one sets --workers 2 --out locked => words, open one, open sets: 1 cm1: 36 Workers",
            "run one sets --out locked => words, open one, open sets, ready locked: 4 cm1: 31 Write",
            "run two sets --split 1 --workers 2 --out much => words, open two, open sets, ready much: 3 cm1: 33 Memory",
        ],
    },
    // one that breaks off: its file is taken away
    Table {
        input: ASKS,
        ends: BROKEN,
        output: "end\n",
        rows: &[
            "run one sets => words, open one, open sets: 4 cm1: 30 Read",
            "run one sets --out left => words, open one, open sets, ready left, let go left: 4 cm1: 30 Read",
            "run two sets --split 1 --workers 2 --out left => \
             words, open two, open sets, ready left, let go left: 4 cm1: 30 Read",
        ],
    },
    Table {
        input: ASKS,
        ends: NARROW,
        output: "end\nfl",
        rows: &[
            "run one sets --out left => words, open one, open sets, ready left, let go left: 4 cm1: 31 Write",
        ],
    },
    Table {
        input: ASKS,
        ends: HELD_UP,
        output: ANSWERS,
        rows: &[
            "run one sets => words, open one, open sets, flush: 4 cm1: 31 Write",
            "run one sets --out left => words, open one, open sets, ready left, flush, let go left: 4 cm1: 31 Write",
        ],
    },
    // an exchange by the steps of a file: what it answers goes out before a file is filled
    Table {
        input: b"",
        ends: UNASKED,
        output: WOVEN,
        rows: &[
            "weave two cycle twelve --split 1 => words, open two, open cycle, open twelve, flush: 0 ",
            "weave two cycle twelve --split 1 --out left => \
             words, open two, open cycle, open twelve, ready left, flush, fill left 86: 0 ",
            "weave --out=two --split=1 two cycle twelve => \
             words, open two, open cycle, open twelve, ready two, flush, fill two 86: 0 ",
            "weave two cycle twelve --split 1 --out full => \
             words, open two, open cycle, open twelve, ready full, flush, fill full 20: 4 cm1: 31 Write",
        ],
    },
    // one without rounds: no step can be taken
    Table {
        input: b"",
        ends: UNASKED,
        output: "finished\n",
        rows: &[
            "weave two sets empty --split 1 => words, open two, open sets, open empty, flush: 0 ",
            "weave one empty empty => words, open one, open empty, open empty, flush: 0 ",
        ],
    },
    Table {
        input: b"",
        ends: UNASKED,
        output: "? 34\n? 2\n? 17\n? 16\n? 15\nfinished\n",
        rows: &[
            "weave two sets bad --split 1 --out left => \
             words, open two, open sets, open bad, ready left, flush, fill left 86: 0 ",
        ],
    },
    // one by itself
    Table {
        input: b"",
        ends: UNASKED,
        output: "grip 0\nfile 0\ngrip 1\nfile 1\ndraw 0\nclear 0\ndraw 1\nclear 1\nsteps 8\nfinished\n",
        rows: &[
            "weave two cycle --split 1 => words, open two, open cycle, flush: 0 ",
            "weave two cycle --split 1 --out left => words, open two, open cycle, ready left, flush, fill left 86: 0 ",
        ],
    },
    Table {
        input: b"",
        ends: UNASKED,
        output: "steps 0\nfinished\n",
        rows: &[
            "weave one empty => words, open one, open empty, flush: 0 ",
            "weave one cycle --out left => words, open one, open cycle, ready left, flush, fill left 51: 0 ",
        ],
    },
    // one that is refused, the first of its faults told: nothing is answered, and nothing else is touched
    Table {
        input: b"",
        ends: UNREAD,
        output: "",
        rows: &[
            "weave two => words: 2 cm1: bad command line",
            "weave two cycle twelve more => words: 2 cm1: bad command line",
            "weave two cycle --workers 1 => words: 2 cm1: bad command line",
            "weave two cycle --split 7 => words: 2 cm1: bad command line",
            "weave none wrong none --split 6 --out locked => words, open none: 4 cm1: 30 Read",
            "weave cut wrong none --split 6 --out locked => words, open cut: 1 cm1: 21 Short",
            "weave other wrong none --split 6 --out locked => words, open other: 1 cm1: 5 Cap",
            "weave two none none --split 6 --out locked => words, open two, open none: 4 cm1: 30 Read",
            "weave two wrong none --split 6 --out locked => words, open two, open wrong: 1 cm1: line 2: 15 Word",
            "weave last cycles none --split 6 --out locked => words, open last, open cycles: 1 cm1: 6 Long",
            "weave last cycle none --split 6 --out locked => words, open last, open cycle: 1 cm1: 7 Clock",
            "weave two cycle none --split 2 --out locked => words, open two, open cycle: 1 cm1: 37 Split",
            "weave two cycle none --split 1 --out locked => words, open two, open cycle, open none: 4 cm1: 30 Read",
            "weave two cycle twelve --split 1 --out locked => \
             words, open two, open cycle, open twelve, ready locked: 4 cm1: 31 Write",
            "weave two cycle twelve --split 1 --out much => \
             words, open two, open cycle, open twelve, ready much: 3 cm1: 33 Memory",
            "weave two cycle --split 1 --out locked => words, open two, open cycle, ready locked: 4 cm1: 31 Write",
            "weave two cycle none --split 1 => words, open two, open cycle, open none: 4 cm1: 30 Read",
            "weave two cycle none --split 1 --out left => words, open two, open cycle, open none: 4 cm1: 30 Read",
            "weave two cycle folder --split 1 --out left => \
             words, open two, open cycle, open folder, ready left, let go left: 4 cm1: 30 Read",
        ],
    },
    // one that breaks off: its file is taken away
    Table {
        input: b"",
        ends: UNASKED,
        output: "? 34\nok\n? 34\nok\n? 34\nok\nok\nok\nok\nunfinished\n",
        rows: &[
            "weave two cycle nine --split 1 => words, open two, open cycle, open nine: 1 cm1: 35 Unfinished",
            "weave two cycle nine --split 1 --out left => \
             words, open two, open cycle, open nine, ready left, let go left: 1 cm1: 35 Unfinished",
        ],
    },
    Table {
        input: b"",
        ends: UNASKED,
        output: "? 34\nok\n",
        rows: &[
            "weave two cycle breaks --split 1 --out left => \
             words, open two, open cycle, open breaks, ready left, let go left: 4 cm1: 30 Read",
        ],
    },
    Table {
        input: b"",
        ends: NARROW,
        output: "grip 0",
        rows: &[
            "weave two cycle --split 1 --out left => \
             words, open two, open cycle, ready left, let go left: 4 cm1: 31 Write",
        ],
    },
    Table {
        input: b"",
        ends: HELD_UP,
        output: WOVEN,
        rows: &[
            "weave two cycle twelve --split 1 => words, open two, open cycle, open twelve, flush: 4 cm1: 31 Write",
            "weave two cycle twelve --split 1 --out left => \
             words, open two, open cycle, open twelve, ready left, flush, let go left: 4 cm1: 31 Write",
        ],
    },
    // a fault that cannot be told
    Table {
        input: ASKS,
        ends: UNTOLD,
        output: "",
        rows: &[
            "jump => words: 4 cm1: ",
            "run none sets => words, open none: 4 cm1: ",
        ],
    },
];

/// The program's name, and the words of a text.
fn words_of(alloc: Global, text: &str) -> Result<Vec<String>, AllocError> {
    let mut words = Vec::new(alloc);
    words.push(String::from_str(alloc, "cm1")?)?;
    for word in text.split_whitespace() {
        words.push(String::from_str(alloc, word)?)?;
    }
    Ok(words)
}

/// What lies outside, in memory: its words, and what was done, in order.
#[derive(Drop)]
struct Desk {
    alloc: Global,
    words: &'static str,
    goes_out: bool,
    done: String,
}

impl Desk {
    /// Notes what was done.
    fn note(&mut self, deed: Result<String, AllocError>) {
        let Ok(deed) = deed else {
            return;
        };
        if !self.done.is_empty() {
            let _ = self.done.push_str(", ");
        }
        let _ = self.done.push_str(deed.as_str());
    }
}

impl System for Desk {
    type File = Bytes<'static>;

    type Pending = String;

    ghost does = { λ before deed after. Unit {0} };

    fn words(&mut self, alloc: Global) -> Result<Vec<String>, LineFault> {
        self.note(String::from_str(alloc, "words"));
        if self.words == NO_TEXT {
            return Err(LineFault::BadLine);
        }
        if self.words == NO_MEMORY {
            return Err(LineFault::Memory);
        }
        match words_of(alloc, self.words) {
            Ok(words) => Ok(words),
            Err(_) => Err(LineFault::Memory),
        }
    }

    fn open(&mut self, path: &str) -> Result<Bytes<'static>, Failed> {
        self.note(format!(in self.alloc; "open {path}"));
        match file(path) {
            Some((bytes, good)) => Ok(Bytes::failing(bytes, 7, good)),
            None => Err(Failed),
        }
    }

    fn ready(&mut self, alloc: Global, path: &str) -> Result<String, PutFault> {
        self.note(format!(in alloc; "ready {path}"));
        match path {
            "locked" => Err(PutFault::Write),
            "much" => Err(PutFault::Memory),
            _ => match String::from_str(alloc, path) {
                Ok(part) => Ok(part),
                Err(_) => Err(PutFault::Memory),
            },
        }
    }

    fn flush<O: Sink>(&mut self, _out: &O) -> Result<(), Failed> {
        self.note(String::from_str(self.alloc, "flush"));
        if self.goes_out { Ok(()) } else { Err(Failed) }
    }

    fn fill<T: Written>(&mut self, part: String, image: T) -> Result<(), PutFault> {
        if part.as_str() == "scarce" {
            self.note(format!(in self.alloc; "fill {part} 0"));
            return Err(PutFault::Memory);
        }
        let room = match part.as_str() {
            "full" => 20,
            _ => 1000,
        };
        let Ok(mut file) = Room::new(self.alloc, room, 7) else {
            return Err(PutFault::Memory);
        };
        let filled = image.write(&mut file);
        let count = file.taken().len();
        self.note(format!(in self.alloc; "fill {part} {count}"));
        filled
    }

    fn let_go(&mut self, part: String) {
        self.note(format!(in self.alloc; "let go {part}"));
    }
}

/// What is done and told for these words, if standard output then holds what the table says.
fn told<R: Threads + Wait + Sync>(
    rt: &R,
    alloc: Global,
    table: &Table,
    words: &'static str,
) -> Option<String> {
    let mut desk = Desk {
        alloc,
        words,
        goes_out: table.ends.goes_out,
        done: String::new(alloc),
    };
    let mut commands = Bytes::failing(table.input, 3, table.ends.input);
    let mut answers = Room::new(alloc, table.ends.output, 5).ok()?;
    let mut errors = Room::new(alloc, table.ends.errors, 5).ok()?;
    let status = perform(
        rt,
        alloc,
        &mut desk,
        &mut commands,
        &mut answers,
        &mut errors,
    );
    if answers.taken() != table.output.as_bytes() {
        return None;
    }
    let line = str::from_utf8(errors.taken()).ok()?;
    let line = line.strip_suffix('\n').unwrap_or(line);
    format!(in alloc; "{}: {status} {line}", desk.done).ok()
}

/// Whether what a row says is done and told.
fn is_so<R: Threads + Wait + Sync>(
    rt: &R,
    alloc: Global,
    table: &Table,
    row: &'static str,
) -> Option<bool> {
    let (words, wanted) = row.split_once(" => ")?;
    let told = told(rt, alloc, table, words)?;
    Some(told.as_str() == wanted)
}

#[test]
fn the_program_touches_what_it_may_in_its_order(rt: HostRuntime) {
    for table in &TABLES {
        for row in table.rows {
            let so = is_so(&rt, rt.alloc(), table, row);
            assert!(rt; so == Some(true), "{row}");
        }
    }
}
