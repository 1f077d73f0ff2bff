//! The words of a task of lab_data, behind the name of its command.

ghost use Rattle.std.specs.Prelude.{◌≡◌, IfOk, IfErr, Ok};
ghost use Rattle.lab_args.specs.Words.{texts};
ghost use Rattle.lab_args.specs.Refusals.{Reports};
ghost use Rattle.lab_args.specs.Requests.{Nothing, Program, task_asked};
ghost use Rattle.lab_args.specs.Tasks.{field_pictured, filled, filling, filling_in, flag_pictured, flagged};
ghost use Rattle.lab_args.specs.Tasks.{is_setting, is_sign, looked_at, painted, painting, picture_asked, picturing};
ghost use Rattle.lab_args.specs.Tasks.{is_route_setting, room_named, routed, routed_with, routing, sender_words};
ghost use Rattle.lab_args.specs.Tasks.{field_shown, span_pictured, studied_with, studying, studying_in, tag};
ghost use Rattle.lab_args.specs.Tasks.{is_table_option, table_named, with_route_setting, with_waits};
ghost use Rattle.lab_args.specs.Tasks.{task_of, telling, reporting_task, with_setting, with_sign};

use crate::fault::CommandFault;
use crate::operands::{
    Operand, field, file_named, flag, long_number, number, palette, processor, scale,
};
use crate::reading::{Asked, Given};
use cm_bits::Field;
use lab_data::{Excerpt, Form, Format, Look, Order, Shown, Table, Tag, Task};
use std::alloc::Global;

/// The words of the task of a command.
pub(crate) fn read_task<'a>(
    alloc: Global,
    command: &str,
    words: &[&'a str],
) -> Result<Asked<'a>, CommandFault>
    ensures value { IfOk result (λ asked. task_of command.now (texts words.now) ≡ Ok (task_asked asked)) }
    ensures refused { IfErr result (Reports (task_of command.now (texts words.now))) }
{
    match command {
        "get" => read_telling(alloc, Order::Chips, words),
        "rows" => read_telling(alloc, Order::Rows, words),
        "put" => read_filling(alloc, words),
        "picture" => read_picturing(alloc, words),
        "paint" => read_painting(alloc, words),
        "study" => read_studying(alloc, words),
        "route" => read_routing(alloc, words),
        _ => Err(CommandFault::Words),
    }
}

/// What is told is a flag of each processor, or its number in a field.
fn read_telling<'a>(
    alloc: Global,
    order: Order,
    words: &[&'a str],
) -> Result<Asked<'a>, CommandFault>
    ensures value { IfOk result (λ asked. telling order (texts words.now) ≡ Ok (task_asked asked)) }
    ensures refused { IfErr result (Reports (telling order (texts words.now))) }
{
    match words {
        [image, at, len] => {
            if *at == "flag" {
                read_flagged(alloc, order, image, len)
            } else {
                read_shown(alloc, order, image, at, len)
            }
        }
        _ => Err(CommandFault::Words),
    }
}

fn read_flagged<'a>(
    alloc: Global,
    order: Order,
    image: &'a str,
    number: &str,
) -> Result<Asked<'a>, CommandFault>
    ensures value { IfOk result (λ asked. flagged order image.now number.now ≡ Ok (task_asked asked)) }
    ensures refused { IfErr result (Reports (flagged order image.now number.now)) }
{
    let flag = flag(alloc, number)?;
    Ok(Asked {
        task: Task::Flags(order, flag),
        image,
        given: Given::Nothing,
        out: None,
    })
}

fn read_shown<'a>(
    alloc: Global,
    order: Order,
    image: &'a str,
    at: &str,
    len: &str,
) -> Result<Asked<'a>, CommandFault>
    ensures value { IfOk result (λ asked. field_shown order image.now at.now len.now ≡ Ok (task_asked asked)) }
    ensures refused { IfErr result (Reports (field_shown order image.now at.now len.now)) }
{
    let field = field(alloc, at, len)?;
    Ok(Asked {
        task: Task::Get(order, field),
        image,
        given: Given::Nothing,
        out: None,
    })
}

/// Numbers come chip by chip, or row by row.
fn read_filling<'a>(alloc: Global, words: &[&'a str]) -> Result<Asked<'a>, CommandFault>
    ensures value { IfOk result (λ asked. filling (texts words.now) ≡ Ok (task_asked asked)) }
    ensures refused { IfErr result (Reports (filling (texts words.now))) }
{
    let Some((first, rest)) = words.split_first() else {
        return Err(CommandFault::Words);
    };
    match *first {
        "--rows" => read_filling_in(alloc, Order::Rows, rest),
        _ => read_filling_in(alloc, Order::Chips, words),
    }
}

fn read_filling_in<'a>(
    alloc: Global,
    order: Order,
    words: &[&'a str],
) -> Result<Asked<'a>, CommandFault>
    ensures value { IfOk result (λ asked. filling_in order (texts words.now) ≡ Ok (task_asked asked)) }
    ensures refused { IfErr result (Reports (filling_in order (texts words.now))) }
{
    match words {
        [image, at, len, out] => read_filled(alloc, order, image, at, len, out),
        _ => Err(CommandFault::Words),
    }
}

fn read_filled<'a>(
    alloc: Global,
    order: Order,
    image: &'a str,
    at: &str,
    len: &str,
    out: &'a str,
) -> Result<Asked<'a>, CommandFault>
    ensures value { IfOk result (λ asked. filled order image.now at.now len.now out.now ≡ Ok (task_asked asked)) }
    ensures refused { IfErr result (Reports (filled order image.now at.now len.now out.now)) }
{
    let field = field(alloc, at, len)?;
    let out = file_named(out)?;
    Ok(Asked {
        task: Task::Put(order, field),
        image,
        given: Given::Numbers,
        out: Some(out),
    })
}

/// Options, and what a picture shows.
fn read_picturing<'a>(alloc: Global, words: &[&'a str]) -> Result<Asked<'a>, CommandFault>
    ensures value { IfOk result (λ asked. picturing (texts words.now) ≡ Ok (task_asked asked)) }
    ensures refused { IfErr result (Reports (picturing (texts words.now))) }
{
    let plain = Look {
        format: Format::Netpbm(Form::Raw),
        scale: 1,
        is_by_dots: false,
    };
    read_looked_at(alloc, plain, words)
}

/// The same, from a look on that options have said.
fn read_looked_at<'a>(
    alloc: Global,
    look: Look,
    words: &[&'a str],
) -> Result<Asked<'a>, CommandFault>
    ensures value { IfOk result (λ asked. looked_at look (texts words.now) ≡ Ok (task_asked asked)) }
    ensures refused { IfErr result (Reports (looked_at look (texts words.now))) }
{
    match words {
        [option, word, after @ ..] => {
            if is_sign(option) {
                read_looked_at(alloc, with_sign(look, option), &words[1..])
            } else if is_setting(option) {
                let changed = with_setting(alloc, look, option, word)?;
                read_looked_at(alloc, changed, after)
            } else {
                read_picture_in(alloc, look, words)
            }
        }
        _ => Err(CommandFault::Words),
    }
}

/// Whether it is an option of a picture that stands alone.
pub(crate) fn is_sign(option: &str) -> bool
    ensures { result ≡ is_sign option.now }
{
    option == "--plain" || option == "--png" || option == "--greatest"
}

/// What such an option says.
fn with_sign(look: Look, option: &str) -> Look
    ensures { result ≡ with_sign look option.now }
{
    match option {
        "--plain" => Look {
            format: Format::Netpbm(Form::Plain),
            ..look
        },
        "--png" => Look {
            format: Format::Png,
            ..look
        },
        _ => Look {
            is_by_dots: true,
            ..look
        },
    }
}

/// Whether it is an option of a picture behind which a word stands.
pub(crate) fn is_setting(option: &str) -> bool
    ensures { result ≡ is_setting option.now }
{
    option == "--scale" || option == "--palette"
}

/// What such an option says with its word.
fn with_setting(alloc: Global, look: Look, option: &str, word: &str) -> Result<Look, CommandFault>
    ensures value { IfOk result (λ changed. with_setting look option.now word.now ≡ Ok changed) }
    ensures refused { IfErr result (Reports (with_setting look option.now word.now)) }
{
    match option {
        "--scale" => {
            let scale = scale(alloc, word)?;
            Ok(Look { scale, ..look })
        }
        _ => {
            let palette = palette(alloc, word)?;
            Ok(Look {
                format: Format::Colours(palette),
                ..look
            })
        }
    }
}

/// A picture by the words that say what it shows.
fn read_picture_in<'a>(
    alloc: Global,
    look: Look,
    words: &[&'a str],
) -> Result<Asked<'a>, CommandFault>
    ensures value { IfOk result (λ asked. picture_asked look (texts words.now) ≡ Ok (task_asked asked)) }
    ensures refused { IfErr result (Reports (picture_asked look (texts words.now))) }
{
    match words {
        [image, what] => {
            if *what == "buffers" {
                Ok(pictured(Shown::Buffers, look, image))
            } else {
                Err(CommandFault::Words)
            }
        }
        [image, at, len] => {
            if *at == "flag" {
                read_flag_pictured(alloc, look, image, len)
            } else {
                read_field_pictured(alloc, look, image, at, len)
            }
        }
        _ => Err(CommandFault::Words),
    }
}

fn pictured<'a>(shown: Shown, look: Look, image: &'a str) -> Asked<'a>
    ensures { task_asked result ≡ reporting_task (Task.Show shown look) image.now Nothing }
{
    Asked {
        task: Task::Show(shown, look),
        image,
        given: Given::Nothing,
        out: None,
    }
}

fn read_flag_pictured<'a>(
    alloc: Global,
    look: Look,
    image: &'a str,
    number: &str,
) -> Result<Asked<'a>, CommandFault>
    ensures value { IfOk result (λ asked. flag_pictured look image.now number.now ≡ Ok (task_asked asked)) }
    ensures refused { IfErr result (Reports (flag_pictured look image.now number.now)) }
{
    let flag = flag(alloc, number)?;
    Ok(pictured(Shown::Flag(flag), look, image))
}

fn read_field_pictured<'a>(
    alloc: Global,
    look: Look,
    image: &'a str,
    at: &str,
    len: &str,
) -> Result<Asked<'a>, CommandFault>
    ensures value { IfOk result (λ asked. field_pictured look image.now at.now len.now ≡ Ok (task_asked asked)) }
    ensures refused { IfErr result (Reports (field_pictured look image.now at.now len.now)) }
{
    let field = field(alloc, at, len)?;
    read_span_pictured(alloc, look, image, len, field)
}

/// A picture has numbers of at most 16 bits.
fn read_span_pictured<'a>(
    alloc: Global,
    look: Look,
    image: &'a str,
    len: &str,
    field: Field,
) -> Result<Asked<'a>, CommandFault>
    ensures value { IfOk result (λ asked. span_pictured look image.now len.now field ≡ Ok (task_asked asked)) }
    ensures refused { IfErr result (Reports (span_pictured look image.now len.now field)) }
{
    if field.len() > 16 {
        return Err(CommandFault::operand(alloc, Operand::Depth, len));
    }
    Ok(pictured(Shown::Number(field), look, image))
}

fn read_painting<'a>(alloc: Global, words: &[&'a str]) -> Result<Asked<'a>, CommandFault>
    ensures value { IfOk result (λ asked. painting (texts words.now) ≡ Ok (task_asked asked)) }
    ensures refused { IfErr result (Reports (painting (texts words.now))) }
{
    match words {
        [image, picture, at, out] => read_painted(alloc, image, picture, at, out),
        _ => Err(CommandFault::Words),
    }
}

fn read_painted<'a>(
    alloc: Global,
    image: &'a str,
    picture: &'a str,
    at: &str,
    out: &'a str,
) -> Result<Asked<'a>, CommandFault>
    ensures value { IfOk result (λ asked. painted image.now picture.now at.now out.now ≡ Ok (task_asked asked)) }
    ensures refused { IfErr result (Reports (painted image.now picture.now at.now out.now)) }
{
    let at = number(alloc, Operand::Address, at)?;
    let out = file_named(out)?;
    Ok(Asked {
        task: Task::Paint(at),
        image,
        given: Given::Picture(picture),
        out: Some(out),
    })
}

/// A study is a table of petit cycles, with the machine's own room, where options say nothing else.
fn read_studying<'a>(alloc: Global, words: &[&'a str]) -> Result<Asked<'a>, CommandFault>
    ensures value { IfOk result (λ asked. studying (texts words.now) ≡ Ok (task_asked asked)) }
    ensures refused { IfErr result (Reports (studying (texts words.now))) }
{
    read_studied_with(alloc, None, Table::Cycles, words)
}

/// The same, with what options have said.
fn read_studied_with<'a>(
    alloc: Global,
    room: Option<u16>,
    table: Table,
    words: &[&'a str],
) -> Result<Asked<'a>, CommandFault>
    ensures value { IfOk result (λ asked. studied_with room table (texts words.now) ≡ Ok (task_asked asked)) }
    ensures refused { IfErr result (Reports (studied_with room table (texts words.now))) }
{
    match words {
        [option, word, after @ ..] => {
            if is_table_option(option) {
                read_studied_with(alloc, room, table_named(option), &words[1..])
            } else if *option == "--room" {
                let given = room_named(alloc, word)?;
                read_studied_with(alloc, given, table, after)
            } else {
                read_studying_in(room, table, words)
            }
        }
        _ => Err(CommandFault::Words),
    }
}

/// Whether an option says what a study tells.
pub(crate) fn is_table_option(option: &str) -> bool
    ensures { result ≡ is_table_option option.now }
{
    option == "--messages" || option == "--repeats"
}

/// The table that such an option says.
fn table_named(option: &str) -> Table
    ensures { result ≡ table_named option.now }
{
    if option == "--repeats" {
        Table::Repeats
    } else {
        Table::Messages
    }
}

/// The room that a word says.
fn room_named(alloc: Global, word: &str) -> Result<Option<u16>, CommandFault>
    ensures value { IfOk result (λ room. room_named word.now ≡ Ok room) }
    ensures refused { IfErr result (Reports (room_named word.now)) }
{
    let room = number(alloc, Operand::Cap, word)?;
    Ok(Some(room))
}

fn read_studying_in<'a>(
    room: Option<u16>,
    table: Table,
    words: &[&'a str],
) -> Result<Asked<'a>, CommandFault>
    ensures value { IfOk result (λ asked. studying_in room table (texts words.now) ≡ Ok (task_asked asked)) }
    ensures refused { IfErr result (Reports (studying_in room table (texts words.now))) }
{
    match words {
        [image, program] => Ok(reporting(Task::Study(room, table), image, program)),
        _ => Err(CommandFault::Words),
    }
}

/// A task that tells, of a program.
fn reporting<'a>(task: Task, image: &'a str, program: &'a str) -> Asked<'a>
    ensures { task_asked result ≡ reporting_task task image.now (Program program.now) }
{
    Asked {
        task,
        image,
        given: Given::Program(program),
        out: None,
    }
}

/// What options say of a route.
#[derive(Clone, Copy)]
pub(crate) struct RouteAsked {
    pub(crate) room: Option<u16>,
    pub(crate) excerpt: Excerpt,
}

/// A route is told whole, with the machine's own room, where options say nothing else.
fn read_routing<'a>(alloc: Global, words: &[&'a str]) -> Result<Asked<'a>, CommandFault>
    ensures value { IfOk result (λ asked. routing (texts words.now) ≡ Ok (task_asked asked)) }
    ensures refused { IfErr result (Reports (routing (texts words.now))) }
{
    let whole = RouteAsked {
        room: None,
        excerpt: Excerpt::WHOLE,
    };
    read_routed_with(alloc, whole, words)
}

/// The same, with what options have said.
fn read_routed_with<'a>(
    alloc: Global,
    asked: RouteAsked,
    words: &[&'a str],
) -> Result<Asked<'a>, CommandFault>
    ensures value { IfOk result (λ task. routed_with asked (texts words.now) ≡ Ok (task_asked task)) }
    ensures refused { IfErr result (Reports (routed_with asked (texts words.now))) }
{
    match words {
        [option, word, after @ ..] => {
            if *option == "--why" {
                read_routed_with(alloc, with_waits(asked), &words[1..])
            } else if is_route_setting(option) {
                let changed = with_route_setting(alloc, asked, option, word)?;
                read_routed_with(alloc, changed, after)
            } else {
                read_routed(alloc, asked, option, word, after)
            }
        }
        _ => Err(CommandFault::Words),
    }
}

/// Whether it is an option of a route behind which a word stands.
pub(crate) fn is_route_setting(option: &str) -> bool
    ensures { result ≡ is_route_setting option.now }
{
    option == "--from" || option == "--to" || option == "--room"
}

/// What such an option says with its word.
fn with_route_setting(
    alloc: Global,
    asked: RouteAsked,
    option: &str,
    word: &str,
) -> Result<RouteAsked, CommandFault>
    ensures value { IfOk result (λ changed. with_route_setting asked option.now word.now ≡ Ok changed) }
    ensures refused { IfErr result (Reports (with_route_setting asked option.now word.now)) }
{
    match option {
        "--from" => {
            let from = long_number(alloc, Operand::Bound, word)?;
            let excerpt = Excerpt {
                from,
                ..asked.excerpt
            };
            Ok(RouteAsked { excerpt, ..asked })
        }
        "--to" => {
            let to = long_number(alloc, Operand::Bound, word)?;
            let excerpt = Excerpt {
                to,
                ..asked.excerpt
            };
            Ok(RouteAsked { excerpt, ..asked })
        }
        _ => {
            let room = room_named(alloc, word)?;
            Ok(RouteAsked { room, ..asked })
        }
    }
}

/// Why the message waits is told too.
fn with_waits(asked: RouteAsked) -> RouteAsked
    ensures { result ≡ with_waits asked }
{
    RouteAsked {
        excerpt: Excerpt {
            waits: true,
            ..asked.excerpt
        },
        ..asked
    }
}

fn read_routed<'a>(
    alloc: Global,
    asked: RouteAsked,
    image: &'a str,
    program: &'a str,
    words: &[&str],
) -> Result<Asked<'a>, CommandFault>
    ensures value { IfOk result (λ task. routed asked image.now program.now (texts words.now) ≡ Ok (task_asked task)) }
    ensures refused { IfErr result (Reports (routed asked image.now program.now (texts words.now))) }
{
    let sent = read_sender(alloc, words)?;
    Ok(reporting(Task::Route(asked.room, asked.excerpt, sent), image, program))
}

/// Which message it is, by the words that say who sent it.
fn read_sender(alloc: Global, words: &[&str]) -> Result<Tag, CommandFault>
    ensures value { IfOk result (λ tag. sender_words (texts words.now) ≡ Ok tag) }
    ensures refused { IfErr result (Reports (sender_words (texts words.now))) }
{
    match words {
        [chip, proc, birth] => read_tag(alloc, chip, proc, birth),
        _ => Err(CommandFault::Words),
    }
}

/// The tag of a message: the chip and the processor that sent it, and the petit cycle in which it was taken in.
fn read_tag(alloc: Global, chip: &str, proc: &str, birth: &str) -> Result<Tag, CommandFault>
    ensures value { IfOk result (λ sent. tag chip.now proc.now birth.now ≡ Ok sent) }
    ensures refused { IfErr result (Reports (tag chip.now proc.now birth.now)) }
{
    let chip = number(alloc, Operand::Chip, chip)?;
    let proc = processor(alloc, proc)?;
    let birth = long_number(alloc, Operand::Cycle, birth)?;
    Ok(Tag { chip, proc, birth })
}
