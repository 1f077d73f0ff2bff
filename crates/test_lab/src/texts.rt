//! Texts of numbers at their limits, and each fault of one at its line.

ghost use Rattle.std.specs.Prelude.{◌≤◌, ◌<◌};

use lab_data::{NumbersFault, read_numbers, write_numbers};
use std::alloc::Global;
use std::test::Fail;

/// A text, how many bits a number has at most, and the numbers.
struct Good {
    text: &'static str,
    len: u16,
    numbers: &'static [u64],
}

static GOOD: [Good; 9] = [
    Good {
        text: "",
        len: 1,
        numbers: &[],
    },
    Good {
        text: "0 1\n1 0\n",
        len: 1,
        numbers: &[0, 1, 1, 0],
    },
    Good {
        text: "\n\n\t7\r\n\r\n  8",
        len: 4,
        numbers: &[7, 8],
    },
    Good {
        text: "; numbers 1 2\n3;4\n5 ; 6",
        len: 3,
        numbers: &[3, 5],
    },
    Good {
        text: "0xff",
        len: 8,
        numbers: &[255],
    },
    Good {
        text: "255 0xAb 000255",
        len: 8,
        numbers: &[255, 171, 255],
    },
    Good {
        text: "18446744073709551615 0xffffffffffffffff 0",
        len: 64,
        numbers: &[18446744073709551615, 18446744073709551615, 0],
    },
    Good {
        text: "9223372036854775807",
        len: 63,
        numbers: &[9223372036854775807],
    },
    Good {
        text: "1 1 1 1 1 1 1 1 1 1 1 1 1 1 1 1",
        len: 64,
        numbers: &[1, 1, 1, 1, 1, 1, 1, 1, 1, 1, 1, 1, 1, 1, 1, 1],
    },
];

/// A text, how many bits a number has at most and how many numbers there are to be, and why it is refused.
struct Bad {
    text: &'static str,
    len: u16,
    count: usize,
    fault: NumbersFault,
}

static BAD: [Bad; 16] = [
    Bad {
        text: "0XFF",
        len: 8,
        count: 1,
        fault: NumbersFault::NotNumber(1),
    },
    Bad {
        text: "",
        len: 1,
        count: 16,
        fault: NumbersFault::TooFew(0),
    },
    Bad {
        text: "1 2 3\n4 ; 5",
        len: 8,
        count: 5,
        fault: NumbersFault::TooFew(4),
    },
    Bad {
        text: "1 2\n3 4 5\n",
        len: 8,
        count: 4,
        fault: NumbersFault::TooMany(2),
    },
    Bad {
        text: "1\n2\n\n\n3",
        len: 8,
        count: 2,
        fault: NumbersFault::TooMany(5),
    },
    Bad {
        text: "0\n2",
        len: 1,
        count: 2,
        fault: NumbersFault::TooLarge(2),
    },
    Bad {
        text: "256",
        len: 8,
        count: 1,
        fault: NumbersFault::TooLarge(1),
    },
    Bad {
        text: "9223372036854775808",
        len: 63,
        count: 1,
        fault: NumbersFault::TooLarge(1),
    },
    Bad {
        text: "18446744073709551616",
        len: 64,
        count: 1,
        fault: NumbersFault::NotNumber(1),
    },
    Bad {
        text: "1\n-1",
        len: 64,
        count: 2,
        fault: NumbersFault::NotNumber(2),
    },
    Bad {
        text: "1,2",
        len: 64,
        count: 2,
        fault: NumbersFault::NotNumber(1),
    },
    Bad {
        text: "0x",
        len: 64,
        count: 1,
        fault: NumbersFault::NotNumber(1),
    },
    Bad {
        text: "12a",
        len: 64,
        count: 1,
        fault: NumbersFault::NotNumber(1),
    },
    Bad {
        text: "\n\n1 2\nx 256",
        len: 8,
        count: 2,
        fault: NumbersFault::NotNumber(4),
    },
    Bad {
        text: "1 256\nx",
        len: 8,
        count: 1,
        fault: NumbersFault::TooLarge(1),
    },
    Bad {
        text: "1 2 256",
        len: 8,
        count: 1,
        fault: NumbersFault::TooMany(1),
    },
];

/// Numbers, how many stand in a line, and the text.
struct Written {
    numbers: &'static [u64],
    width: usize,
    text: &'static str,
}

static WRITTEN: [Written; 5] = [
    Written {
        numbers: &[],
        width: 16,
        text: "",
    },
    Written {
        numbers: &[0, 1, 2, 3],
        width: 2,
        text: "0 1\n2 3\n",
    },
    Written {
        numbers: &[0, 10, 200],
        width: 1,
        text: "0\n10\n200\n",
    },
    Written {
        numbers: &[18446744073709551615, 7, 0],
        width: 2,
        text: "18446744073709551615 7\n0 ",
    },
    Written {
        numbers: &[5],
        width: 256,
        text: "5 ",
    },
];

/// The text of the first row that is not so.
fn first_not_read(alloc: Global) -> Option<&'static str> {
    for row in &GOOD {
        let is_so = match read_numbers(
            alloc,
            row.text.as_bytes(),
            row.len.min(64),
            row.numbers.len(),
        ) {
            Ok(numbers) => numbers.as_slice() == row.numbers,
            Err(_) => false,
        };
        if !is_so {
            return Some(row.text);
        }
    }
    None
}

fn first_not_refused(alloc: Global) -> Option<&'static str> {
    for row in &BAD {
        let answer = read_numbers(alloc, row.text.as_bytes(), row.len.min(64), row.count);
        if answer.err() != Some(row.fault) {
            return Some(row.text);
        }
    }
    None
}

fn first_not_written(alloc: Global) -> Option<&'static str> {
    for row in &WRITTEN {
        let is_so = match write_numbers(alloc, row.numbers, row.width.max(1)) {
            Ok(text) => text.as_slice() == row.text.as_bytes(),
            Err(_) => false,
        };
        if !is_so {
            return Some(row.text);
        }
    }
    None
}

#[test]
fn texts_are_read_to_their_limits(rt: HostRuntime) -> Result<(), Fail> {
    assert_eq!(rt; first_not_read(rt.alloc()), None);
    Ok(())
}

#[test]
fn the_first_fault_of_a_text_is_told_with_its_line(rt: HostRuntime) -> Result<(), Fail> {
    assert_eq!(rt; first_not_refused(rt.alloc()), None);
    Ok(())
}

#[test]
fn numbers_are_written_in_lines_of_so_many(rt: HostRuntime) -> Result<(), Fail> {
    assert_eq!(rt; first_not_written(rt.alloc()), None);
    Ok(())
}
