//! What help tells, and of it the words of one command.

ghost use Rattle.std.specs.Prelude.{◌≡◌, ◌++◌, IfOk, MatchOption, None, OnOk, Some, string_bytes};
ghost use Rattle.lab_args.specs.Words.{texts};
ghost use Rattle.lab_args.specs.Usage.{behind_word, first_word, usage_of, with_usage};
ghost use Rattle.lab_args.specs.Commands.{is_command, is_fresh_option, is_load_option, is_option_of, unknown_option};

use crate::operands::is_option;
use crate::tasks::{is_route_setting, is_setting, is_sign, is_table_option};
use cm_bits::NoMemory;
use std::alloc::Global;

/// What is told of the version: that of `python/pyproject.toml`.
pub const VERSION: &str = "cm1lab 0";

/// What help tells.
pub const HELP: &str = "\
Data and pictures of all processors, out of the image of a machine and into it

cm1lab get IMAGE ADDRESS LENGTH
cm1lab get IMAGE flag NUMBER
    tells the number that each processor has in a memory field, or its flag, a line for each chip
cm1lab rows IMAGE ADDRESS LENGTH
cm1lab rows IMAGE flag NUMBER
    tells the same, a line for each row of the grid, the north row first
cm1lab put [--rows] IMAGE ADDRESS LENGTH OUT < NUMBERS
    puts a number into the field of each processor, and the image into the file OUT;
    they come chip by chip, with --rows row by row of the grid
cm1lab picture [--plain | --png | --palette NAME] [--scale K] [--greatest] IMAGE flag NUMBER
cm1lab picture [--plain | --png | --palette NAME] [--scale K] [--greatest] IMAGE ADDRESS LENGTH
cm1lab picture [--plain | --png | --palette NAME] [--scale K] [--greatest] IMAGE buffers
    tells a picture, the north row above, with a dot for each processor: its flag, or its
    number in a memory field; or with a dot for each chip: how many messages stand there;
    PBM (1 is black) where a dot has one bit, else PGM (0 is black), with --plain as a text;
    with --png a PNG in the same black and white, with --palette one in colours, heat or
    viridis; with --scale each dot K by K; with --greatest the greatest number that is there
    is white, and not the greatest that there can be
cm1lab paint IMAGE PICTURE ADDRESS OUT
    puts the dots of the file PICTURE, a PBM or a PGM, into a field of each processor that
    begins at ADDRESS and has as many bits as a dot, and the image into the file OUT
cm1lab study [--room CAP] IMAGE PROGRAM
    runs the program and tells a table, a line for each petit cycle: messages that were
    taken in, delivered, referred, that stand in routers then, full routers, and
    processors that still ask to send; with --room the machine has room for CAP messages in
    each router, 1 to 15, and not the image's
cm1lab study --messages [--room CAP] IMAGE PROGRAM
    tells a line for each message: who sent it and in which petit cycle, where it is
    bound for, when it was delivered, how many dimensions it crossed, how often it was
    referred
cm1lab study --repeats [--room CAP] IMAGE PROGRAM
    tells a line where routers come to hold again what they held, and nothing came in or out
    since, so that they go round for ever: from which petit cycle on and with which period,
    how many messages stand there, and how often in a period one stands at its chip
cm1lab route [--why] [--from T] [--to T] [--room CAP] IMAGE PROGRAM CHIP PROC CYCLE
    runs the program and tells the way of the message that processor PROC of CHIP sent and
    that was taken in in petit cycle CYCLE: a line for each petit cycle with the chips on its
    way, the dimensions in which it was referred, and its place in the router where it stands;
    with --why what it waits for where it stays: a wire that is cut, the message that goes
    first, RECV; with --from the petit cycles before T are left out, with --to the program
    ends behind petit cycle T
cm1lab front IMAGE [--out FILE]
    takes the place of the front end: each line of standard input is one of a program, whose
    acts are run at once and which is answered ok, sense by the wire as it is, or a question
    as to cm1 run; at the end the image of the machine goes into FILE
cm1lab expand SOURCE > PROGRAM
    tells the program of a source, which has constants, lines that are repeated, and lines
    for a field from a neighbour or along the chain, for bits, and for a number added
cm1lab fresh N CAP [--cut CHIP DIM].. [--cut-random K] [--seed S] [--rule R] FILE
    puts the image of a blank machine of 2^N chips with room for CAP messages in each router,
    1 to 15, into FILE; the wire of CHIP over dimension DIM is cut, by whichever end it is
    named, and K wires are that are drawn, others by another S; rule 0, who came first goes
    first, or rule 1, the oldest
cm1lab load N CAP RATE,.. CYCLES [--cut CHIP DIM].. [--cut-random K] [--seed S] [--rule R] \
    [--pattern P | --places FILE] [--background H] [--until T] [--skip T] [--seeds K] [--table NAME]
    tells a table, a line for each RATE of messages that the processors of a chip offer in a
    petit cycle, as 0.5: what was offered, taken in and delivered on such a blank machine, and
    how many petit cycles that took; S draws other messages too; P is uniform, transpose,
    reversal or hotspot, or FILE has a number for each processor, the place to which its
    messages go; of a hundred messages H go to a processor that is drawn, and the rest by P
    or FILE; with --until only the first T petit cycles offer, with --skip the first T are not
    told of; with --seeds means of K loads, and half their 95 % intervals; --table crossings
    tells more columns, how often messages crossed a dimension, were referred, were refused,
    and petit cycles behind which nothing was left; --table dimensions a line for each
    dimension; --table chips a line for each chip, with the messages that crossed out of it;
    --table latencies a line for each number of petit cycles, with a column for each RATE:
    how many messages took so many
cm1lab plot [--from T] [--to T] [FILE] > PICTURE
    tells a picture, an SVG, of a table that cm1lab study, cm1lab study --messages or cm1lab
    load told, or of what cm1lab route told, which is in FILE or on standard input: lines over
    petit cycles, over how long messages took, or over the rate, or the way of the message,
    of which --from and --to draw petit cycles T to T alone;
    also of a table that compares loads: its first line begins with rate and has at most nine
    names more, with commas between, and each line behind it has their numbers

ADDRESS is that of the field's lowest bit, 0 to 4095, and LENGTH how many bits it has, 1 to 64.
IMAGE is a file that cm1 fresh, cm1 run --out or cm1lab wrote, PROGRAM a text as for cm1 run.
Where study, route or load take longer than a second, standard error tells how far they are.";

/// The words of a command as help tells them; nothing where it tells of none of this name.
pub(crate) fn usage_of(alloc: Global, command: &str) -> Result<String, NoMemory>
    ensures value { IfOk result (λ usage. string_bytes usage ≡ usage_of command.now) }
{
    let mut usage = String::new(alloc);
    for line in HELP.lines() {
        push_usage(&mut usage, command, line)?;
    }
    Ok(usage)
}

/// The words of a line of help, if it has those of this command.
fn push_usage(usage: &mut String, command: &str, line: &str) -> Result<(), NoMemory>
    ensures ok { OnOk result (string_bytes usage.new ≡ with_usage command.now (string_bytes usage.old) line.now) }
{
    let words = behind_word(line);
    if first_word(line) != "cm1lab" || first_word(words) != command {
        return Ok(());
    }
    if !usage.is_empty() {
        push_words(usage, ", or ")?;
    }
    push_words(usage, words)
}

fn push_words(usage: &mut String, words: &str) -> Result<(), NoMemory>
    ensures ok { OnOk result (string_bytes usage.new ≡ string_bytes usage.old ++ words.now) }
{
    match usage.push_str(words) {
        Ok(()) => Ok(()),
        Err(_) => Err(NoMemory),
    }
}

/// What stands before the first space.
fn first_word(line: &str) -> &str
    ensures { result.now ≡ first_word line.now }
{
    match line.split_once(' ') {
        Some((word, _)) => word,
        None => line,
    }
}

/// What stands behind it.
fn behind_word(line: &str) -> &str
    ensures { result.now ≡ behind_word line.now }
{
    match line.split_once(' ') {
        Some((_, words)) => words,
        None => "",
    }
}

/// Whether a command has this name.
pub(crate) fn is_command(name: &str) -> bool
    ensures { result ≡ is_command name.now }
{
    matches!(
        name,
        "get"
            | "rows"
            | "put"
            | "picture"
            | "paint"
            | "study"
            | "route"
            | "front"
            | "expand"
            | "fresh"
            | "load"
            | "plot"
    )
}

/// The first option among words that a command has not.
pub(crate) fn unknown_option<'a>(command: &str, words: &[&'a str]) -> Option<&'a str>
    ensures { MatchOption result (unknown_option command.now (texts words.now) ≡ None)
        (λ word. unknown_option command.now (texts words.now) ≡ Some word.now) }
{
    for word in words {
        if is_option(word) && !is_option_of(command, word) {
            return Some(*word);
        }
    }
    None
}

/// Whether a command has this option.
fn is_option_of(command: &str, word: &str) -> bool
    ensures { result ≡ is_option_of command.now word.now }
{
    match command {
        "put" => word == "--rows",
        "picture" => is_sign(word) || is_setting(word),
        "study" => is_table_option(word) || word == "--room",
        "route" => word == "--why" || is_route_setting(word),
        "front" => word == "--out",
        "fresh" => is_fresh_option(word),
        "load" => is_load_option(word),
        "plot" => word == "--from" || word == "--to",
        _ => false,
    }
}

/// Whether it says of a blank machine which it is.
fn is_fresh_option(word: &str) -> bool
    ensures { result ≡ is_fresh_option word.now }
{
    word == "--cut" || word == "--cut-random" || word == "--seed" || word == "--rule"
}

fn is_load_option(word: &str) -> bool
    ensures { result ≡ is_load_option word.now }
{
    is_fresh_option(word)
        || word == "--pattern"
        || word == "--background"
        || word == "--until"
        || word == "--skip"
        || word == "--seeds"
        || word == "--table"
        || word == "--places"
}
