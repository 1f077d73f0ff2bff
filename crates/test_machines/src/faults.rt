//! The causes that faults of the library tell, each worked from docs/REFUSALS.md.

use cm_array::{BuildFault, MachineFault, RunFault};
use cm_element::ZeroFlag;
use cm_gates::ForkFault;
use cm_subcube::SplitFault;
use cm_weave::{NotNow, WorldFault};
use cm_weave_text::WeaveFault;
use std::alloc::Global;
use std::fmt::Display;
use std::test::Fail;

const CYCLES: &str = "more than 2^63 - 1 petit cycles in all";

const LONG: &str = "more than 4,096 acts or 64 petit cycles in one stretch";

const MEMORY: &str = "out of memory";

const ROW: &str = "a block would have less than a row of chips";

static BUILD: [(BuildFault, &str); 2] = [
    (BuildFault::TagTwice, "two messages have one tag"),
    (BuildFault::Memory, MEMORY),
];

static FORK: [(ForkFault, &str); 2] = [
    (ForkFault::Split, ROW),
    (
        ForkFault::Workers,
        "there is no worker, or there are more than blocks",
    ),
];

static MACHINE: [(MachineFault, &str); 3] = [
    (MachineFault::Dim, "more than 12 dimensions"),
    (
        MachineFault::Cap,
        "a router's buffer has room for 1 to 15 messages",
    ),
    (MachineFault::Memory, MEMORY),
];

static NOT_NOW: [(NotNow, &str); 1] = [(NotNow, "the step does not fit the world")];

static RUN: [(RunFault, &str); 4] = [
    (RunFault::Long, LONG),
    (RunFault::Clock, CYCLES),
    (RunFault::Memory, MEMORY),
    (
        RunFault::NoThread,
        "a thread was not admitted or not started",
    ),
];

static SPLIT: [(SplitFault, &str); 2] = [(SplitFault::Split, ROW), (SplitFault::Memory, MEMORY)];

static WEAVE: [(WeaveFault, &str); 5] = [
    (WeaveFault::Read, "a read failed"),
    (
        WeaveFault::Write(7),
        "a write failed, or took no byte, after 7 bytes",
    ),
    (WeaveFault::TooMuch, "more than 16777216 bytes of steps"),
    (WeaveFault::Memory, "a growth of memory was refused"),
    (WeaveFault::Unfinished, "a block has steps left"),
];

static WORLD: [(WorldFault, &str); 4] = [
    (WorldFault::Long, LONG),
    (WorldFault::Clock, CYCLES),
    (WorldFault::Split, ROW),
    (WorldFault::Memory, MEMORY),
];

static ZERO_FLAG: [(ZeroFlag, &str); 1] = [(ZeroFlag, "flag 8 is always 0")];

/// The place of the first fault that tells another cause, if one does.
fn first_otherwise<T: Display>(alloc: Global, faults: &[(T, &str)]) -> Result<Option<usize>, Fail> {
    for (place, (fault, cause)) in faults.iter().enumerate() {
        if format!(in alloc; "{fault}")?.as_str() != *cause {
            return Ok(Some(place));
        }
    }
    Ok(None)
}

#[test]
fn faults_tell_their_causes(rt: HostRuntime) -> Result<(), Fail> {
    let alloc = rt.alloc();
    let found = [
        first_otherwise(alloc, BUILD.as_slice())?,
        first_otherwise(alloc, FORK.as_slice())?,
        first_otherwise(alloc, MACHINE.as_slice())?,
        first_otherwise(alloc, NOT_NOW.as_slice())?,
        first_otherwise(alloc, RUN.as_slice())?,
        first_otherwise(alloc, SPLIT.as_slice())?,
        first_otherwise(alloc, WEAVE.as_slice())?,
        first_otherwise(alloc, WORLD.as_slice())?,
        first_otherwise(alloc, ZERO_FLAG.as_slice())?,
    ];
    assert_eq!(rt; found, [None; 9]);
    Ok(())
}
