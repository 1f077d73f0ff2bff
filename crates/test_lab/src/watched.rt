//! What a watcher is told of programs.

use crate::growths::{BLANK, plain};
use cm_bits::Proc;
use lab_data::{Excerpt, Format, Shown, Table, Tag, Task, Watch, perform_watched};
use std::alloc::Global;
use std::test::Fail;

/// All processors of a chip send to processor 0, which receives one message in the first petit cycle.
const ALL_SEND: &str = "set 12\ncycle\nsense\ncycle\n";

/// Keeps of how many acts it was told last, and whether each was told in its turn.
#[derive(Drop)]
struct Count {
    done: usize,
    all: usize,
    in_turn: bool,
}

impl Watch for Count {
    fn see(&mut self, done: usize, all: usize) {
        if done != self.done.saturating_add(1) || self.done != 0 && all != self.all {
            self.in_turn = false;
        }
        self.done = done;
        self.all = all;
    }
}

/// How many acts are told last of a task, and of how many in all.
fn told_of(alloc: Global, task: Task) -> Option<(usize, usize)> {
    let mut count = Count {
        done: 0,
        all: 0,
        in_turn: true,
    };
    perform_watched(alloc, task, &BLANK, ALL_SEND.as_bytes(), &mut count).ok()?;
    if count.in_turn {
        Some((count.done, count.all))
    } else {
        None
    }
}

/// The same of the route of the message that a processor sends in the first petit cycle.
fn told_of_route(alloc: Global, proc: u8) -> Option<(usize, usize)> {
    let tag = Tag {
        chip: 0,
        proc: Proc::new(proc)?,
        birth: 0,
    };
    told_of(alloc, Task::Route(None, Excerpt::WHOLE, tag))
}

/// The message of processor 0 is delivered by the second act, that of processor 1 never; a picture runs no program.
#[test]
fn each_act_is_told_in_its_turn(rt: HostRuntime) -> Result<(), Fail> {
    let alloc = rt.alloc();
    let told = [
        told_of(alloc, Task::Study(None, Table::Cycles)),
        told_of(alloc, Task::Study(None, Table::Messages)),
        told_of(alloc, Task::Study(None, Table::Repeats)),
        told_of_route(alloc, 0),
        told_of_route(alloc, 1),
        told_of(alloc, Task::Show(Shown::Buffers, plain(Format::Png))),
    ];
    assert_eq!(rt;
        told,
        [
            Some((4, 4)),
            Some((4, 4)),
            Some((4, 4)),
            Some((2, 4)),
            Some((4, 4)),
            Some((0, 0))
        ]
    );
    Ok(())
}
