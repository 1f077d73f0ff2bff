//! The bytes of a message.

use cm_bits::Proc;
use cm_message::{Message, Tag, bytes, of_bytes};
use std::test::Fail;

/// For processor 5 of the same chip, from processor 0 of chip 0 in petit cycle 0.
static WORKED: [u8; 18] = [
    0, 1, 5, 0xde, 0xad, 0xbe, 0xef, 0, 0, 0, 0, 0, 0, 0, 0, 0, 0, 0,
];

fn message() -> Result<Message, Fail> {
    Ok(Message {
        rel: 1,
        proc: Proc::new(5).ok_or("no processor")?,
        payload: 0xdead_beef,
        tag: Tag::default(),
    })
}

struct Row {
    name: &'static str,
    at: usize,
    byte: u8,
    is_message: bool,
}

static CHANGES: [Row; 5] = [
    Row {
        name: "no change",
        at: 0,
        byte: 0,
        is_message: true,
    },
    Row {
        name: "processor 15",
        at: 2,
        byte: 15,
        is_message: true,
    },
    Row {
        name: "processor 16",
        at: 2,
        byte: 16,
        is_message: false,
    },
    Row {
        name: "from processor 16",
        at: 9,
        byte: 16,
        is_message: false,
    },
    Row {
        name: "the last birth",
        at: 10,
        byte: 255,
        is_message: true,
    },
];

/// What the first row shows that is not so.
fn first_not_so(table: &[Row]) -> Option<&'static str> {
    for row in table {
        let mut changed = WORKED;
        if row.at < 18 {
            changed[row.at] = row.byte;
        }
        let is_so = match of_bytes(&changed) {
            Some(message) => row.is_message && bytes(&message) == changed,
            None => !row.is_message,
        };
        if !is_so {
            return Some(row.name);
        }
    }
    None
}

#[test]
fn a_message_has_its_eighteen_bytes(rt: HostRuntime) -> Result<(), Fail> {
    let message = message()?;
    assert_eq!(rt; bytes(&message), WORKED);
    Ok(())
}

#[test]
fn bytes_are_read_back_but_not_a_processor_above_15(rt: HostRuntime) -> Result<(), Fail> {
    assert_eq!(rt; first_not_so(&CHANGES), None);
    Ok(())
}
