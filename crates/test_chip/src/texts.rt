//! Lines, words and numbers of texts.

use crate::cases::{Case, first_not_so};
use cm_bits::{Lines, Words, read_number};
use std::alloc::Global;
use std::test::Fail;

/// A text, and its lines: then none comes, however often one asks.
struct Lined {
    name: &'static str,
    text: &'static [u8],
    lines: &'static [&'static [u8]],
}

impl Case for Lined {
    fn name(&self) -> &'static str {
        self.name
    }

    fn is_so(&self, _alloc: Global) -> Result<bool, Fail> {
        let mut lines = Lines::new(self.text);
        for wanted in self.lines {
            if lines.next() != Some(*wanted) {
                return Ok(false);
            }
        }
        Ok(lines.next().is_none() && lines.next().is_none())
    }
}

static LINED: [Lined; 4] = [
    Lined {
        name: "bytes after the last line end are a line",
        text: b"run\r\n\n;\xff\nend",
        lines: &[b"run\r", b"", b";\xff", b"end"],
    },
    Lined {
        name: "a text without bytes has no line",
        text: b"",
        lines: &[],
    },
    Lined {
        name: "a line end alone ends an empty line",
        text: b"\n",
        lines: &[b""],
    },
    Lined {
        name: "empty lines stand before others",
        text: b"\n\nx\n",
        lines: &[b"", b"", b"x"],
    },
];

/// A line, and its words: then none comes, however often one asks.
struct Worded {
    name: &'static str,
    line: &'static [u8],
    words: &'static [&'static [u8]],
}

impl Case for Worded {
    fn name(&self) -> &'static str {
        self.name
    }

    fn is_so(&self, _alloc: Global) -> Result<bool, Fail> {
        let mut words = Words::new(self.line);
        for wanted in self.words {
            if words.next() != Some(*wanted) {
                return Ok(false);
            }
        }
        Ok(words.next().is_none() && words.next().is_none())
    }
}

static WORDED: [Worded; 3] = [
    Worded {
        name: "a comment may hold any byte",
        line: b"\t add  x\xff \0 ;\xff y;\r",
        words: &[b"add", b"x\xff", b"\0"],
    },
    Worded {
        name: "a carriage return is a blank",
        line: b"run\r",
        words: &[b"run"],
    },
    Worded {
        name: "blanks and a comment are no words",
        line: b" \r\t;run",
        words: &[],
    },
];

/// A word, and the number that it writes.
struct Numbered(&'static str, &'static [u8], Option<u64>);

impl Case for Numbered {
    fn name(&self) -> &'static str {
        self.0
    }

    fn is_so(&self, _alloc: Global) -> Result<bool, Fail> {
        let Numbered(_, word, number) = *self;
        Ok(read_number(word) == number)
    }
}

static NUMBERED: [Numbered; 16] = [
    Numbered("0", b"0", Some(0)),
    Numbered("leading zeros", b"007", Some(7)),
    Numbered(
        "many leading zeros",
        b"000000000000000000000000000000012",
        Some(12),
    ),
    Numbered("the largest", b"18446744073709551615", Some(u64::MAX)),
    Numbered("one more than the largest", b"18446744073709551616", None),
    Numbered(
        "hexadecimal digits of either case",
        b"0xDeadBeef",
        Some(0xdead_beef),
    ),
    Numbered(
        "leading zeros, hexadecimal",
        b"0x0000000000000000000ff",
        Some(255),
    ),
    Numbered(
        "the largest, hexadecimal",
        b"0xffffffffffffffff",
        Some(u64::MAX),
    ),
    Numbered("one more, hexadecimal", b"0x10000000000000000", None),
    Numbered("no digit after 0x", b"0x", None),
    Numbered("a capital X", b"0X1", None),
    Numbered("no digit", b"", None),
    Numbered("a sign", b"+1", None),
    Numbered("a hexadecimal digit in a decimal", b"1a", None),
    Numbered("a letter after hexadecimal digits", b"0x1g", None),
    Numbered("a byte that is no character", b"1\xb1", None),
];

#[test]
fn texts_have_their_lines_words_and_numbers(rt: HostRuntime) -> Result<(), Fail> {
    let alloc = rt.alloc();
    let not_so = [
        first_not_so(alloc, &LINED)?,
        first_not_so(alloc, &WORDED)?,
        first_not_so(alloc, &NUMBERED)?,
    ];
    assert_eq!(rt; not_so, [None; 3]);
    Ok(())
}
