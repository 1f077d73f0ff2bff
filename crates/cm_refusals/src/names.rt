//! The names and causes of all refusals, by number.

ghost use Rattle.std.specs.Prelude.{◌≡◌, ◌≤◌};
ghost use Rattle.cm_refusals.specs.Refusals.{name_of};

/// The name of a refusal. Above each stands its cause, which page REFUSALS tells in the same words.
pub fn fault_name(number: u8) -> &'static str
    requires some { 1 ≤ number }
    requires known { number ≤ 38 }
    ensures value { result.now ≡ name_of number }
{
    match number {
        // a memory field's length is not 1 to 64
        1 => "Width",
        // a memory field ends above bit 4095; in a session also a number too large for what it names
        2 => "Range",
        // flag 8 cannot be poked: it is always 0
        3 => "ZeroFlag",
        // a cube of more than 12 dimensions
        4 => "Dim",
        // room for 0 or more than 15 messages; in `cm1` another room than 1 or 7
        5 => "Cap",
        // more than 4,096 acts or 64 petit cycles in one run
        6 => "Long",
        // the petit cycles of a run would take the counter past 2^63 - 1
        7 => "Clock",
        // a growth was refused in a run
        8 => "Memory",
        // a thread was not admitted or not started
        9 => "NoThread",
        // fields of a macro meet in part, or a product's field meets a factor's
        10 => "Overlap",
        // fields of a macro have different lengths, or a number does not fit
        11 => "Lengths",
        // a macro writes the flag of its condition, or flag 8, 10 or 11
        12 => "Scratch",
        // a product under a condition
        13 => "Context",
        // a growth was refused while a text was read
        14 => "Memory",
        // unknown first word of a line
        15 => "Word",
        // an operand too few or too many, or none of the words listed
        16 => "Operands",
        // not a number, or out of its range
        17 => "Number",
        // not a name, or not defined
        18 => "Name",
        // a name that was defined before
        19 => "Twice",
        // more than 65,535 acts
        20 => "TooLong",
        // an image's bytes end inside a part
        21 => "Short",
        // not the first bytes of an image
        22 => "Magic",
        // an image of an unknown version
        23 => "Version",
        // an image of a dimension above 12, of room 0 or above 15, or of another dimension or room than is asked
        // for; an image with a rule that no image of this version has
        24 => "Shape",
        // a memory plane that is 0, or whose address is not above the one before; a cut wire that is not above the
        // one before
        25 => "Order",
        // more planes, messages or cut wires of an image than there can be; an image of version 2 that has rule 0
        // and no cut wire
        26 => "Count",
        // an image's number out of its range
        27 => "Value",
        // two messages in the buffers have one tag
        28 => "TagTwice",
        // bytes after the last chip of an image
        29 => "Extra",
        // a read failed; a file cannot be opened, or is a folder
        30 => "Read",
        // a write failed or took 0 bytes; a file cannot be made or replaced
        31 => "Write",
        // input above its limit
        32 => "TooMuch",
        // any other growth was refused
        33 => "Memory",
        // a step of an exchange cannot be taken now
        34 => "NotNow",
        // a file of steps ended, and a block has steps left
        35 => "Unfinished",
        // more workers than the 2^K blocks, or, of the library, none
        36 => "Workers",
        // 2^N chips cut into more than 2^(N - N/2) blocks, N/2 rounded down
        37 => "Split",
        // the words are no command line; `cm1: bad command line`, without the number
        _ => "BadLine",
    }
}
