//! The lines that a session answers.

ghost use Rattle.std.specs.Prelude.{◌≡◌, ◌<◌, ◌++◌, ◌∷◌, [], OnOk, flat_map, length, codes, decimal};
ghost use Rattle.cm_bits.specs.Bit.{bit_number};
ghost use Rattle.cm_language.specs.Listing.{hex_digit};
ghost use Rattle.cm_session.specs.Answer.{line, payload_word, message_words, standing_line, buffer_lines, event_line};
ghost use Rattle.cm_session.specs.Answer.{log_lines, found_line, refused_line, at_line, end_line, sense_line};

use cm_model::{Event, Found, Message, Tag};
use itoa::Buffer;
use std::alloc::AllocError;

/// A line of one word.
#[tactic(auto, unfolding(cm_session::specs::Answer::line))]
pub fn push_word(text: &mut Vec<u8>, word: &[u8]) -> Result<(), AllocError>
    ensures ok { OnOk result (text.new.items ≡ text.old.items ++ line (word.now ∷ [])) }
{
    text.extend_from_slice(word)?;
    text.push(b'\n')?;
    Ok(())
}

/// A line of a word and a number.
#[tactic(auto, unfolding(cm_session::specs::Answer::line))]
pub fn push_number(text: &mut Vec<u8>, word: &[u8], number: u64) -> Result<(), AllocError>
    ensures ok { OnOk result (text.new.items ≡ text.old.items ++ line (word.now ∷ decimal number ∷ [])) }
{
    text.extend_from_slice(word)?;
    push_operand(text, number)?;
    text.push(b'\n')?;
    Ok(())
}

/// A line of a word and a bit.
pub fn push_bit(text: &mut Vec<u8>, word: &[u8], bit: bool) -> Result<(), AllocError>
    ensures ok { OnOk result (text.new.items ≡ text.old.items ++ line (word.now ∷ decimal (bit_number bit) ∷ [])) }
{
    push_number(text, word, bit_number(bit))
}

/// That the act of this index looked at the wire.
#[tactic(auto, unfolding(cm_session::specs::Answer::line))]
pub fn push_sense(text: &mut Vec<u8>, index: usize, bit: bool) -> Result<(), AllocError>
    ensures ok { OnOk result (text.new.items ≡ text.old.items ++ sense_line index bit) }
{
    text.extend_from_slice(b"sense")?;
    push_operand(text, index as u64)?;
    push_operand(text, bit_number(bit))?;
    text.push(b'\n')?;
    Ok(())
}

/// Where a message is.
pub fn push_found(text: &mut Vec<u8>, found: Found) -> Result<(), AllocError>
    ensures ok { OnOk result (text.new.items ≡ text.old.items ++ found_line found) }
{
    match found {
        Found::Router(chip) => push_number(text, b"router", u64::from(chip)),
        Found::Delivered(chip, proc) => push_delivered(text, chip, proc.get()),
        Found::Unknown => push_word(text, b"unknown"),
    }
}

#[tactic(auto, unfolding(cm_session::specs::Answer::line))]
fn push_delivered(text: &mut Vec<u8>, chip: u16, proc: u8) -> Result<(), AllocError>
    ensures ok { OnOk result (text.new.items
        ≡ text.old.items ++ line (codes "delivered" ∷ decimal chip ∷ decimal proc ∷ [])) }
{
    text.extend_from_slice(b"delivered")?;
    push_operand(text, u64::from(chip))?;
    push_operand(text, u64::from(proc))?;
    text.push(b'\n')?;
    Ok(())
}

/// The messages of a router, from the front.
#[tactic(auto, unfolding(cm_session::specs::Answer::buffer_lines))]
pub fn push_buffer(text: &mut Vec<u8>, messages: &[Message]) -> Result<(), AllocError>
    ensures ok { OnOk result (text.new.items ≡ text.old.items ++ buffer_lines messages.now) }
{
    push_number(text, b"buf", messages.len() as u64)?;
    push_standing(text, messages)
}

fn push_standing(text: &mut Vec<u8>, messages: &[Message]) -> Result<(), AllocError>
    ensures ok { OnOk result (text.new.items ≡ text.old.items ++ flat_map standing_line messages.now) }
{
    for message in messages {
        push_standing_line(text, message)?;
    }
    Ok(())
}

#[tactic(auto, unfolding(cm_session::specs::Answer::standing_line))]
fn push_standing_line(text: &mut Vec<u8>, message: &Message) -> Result<(), AllocError>
    ensures ok { OnOk result (text.new.items ≡ text.old.items ++ standing_line message.now) }
{
    push_message(text, b"msg", message)
}

/// The events of a log, the oldest first.
#[tactic(auto, unfolding(cm_session::specs::Answer::log_lines))]
pub fn push_log(text: &mut Vec<u8>, events: &[Event]) -> Result<(), AllocError>
    ensures ok { OnOk result (text.new.items ≡ text.old.items ++ log_lines events.now) }
{
    push_number(text, b"events", events.len() as u64)?;
    push_events(text, events)
}

fn push_events(text: &mut Vec<u8>, events: &[Event]) -> Result<(), AllocError>
    ensures ok { OnOk result (text.new.items ≡ text.old.items ++ flat_map event_line events.now) }
{
    for event in events {
        push_event(text, event)?;
    }
    Ok(())
}

fn push_event(text: &mut Vec<u8>, event: &Event) -> Result<(), AllocError>
    ensures ok { OnOk result (text.new.items ≡ text.old.items ++ event_line event.now) }
{
    match event {
        Event::Injected(message) => push_message(text, b"in", message),
        Event::Delivered { message, chip: _ } => push_message(text, b"out", message),
    }
}

/// A line that tells a message behind a word: `msg` where it stands, `in` where it was injected, `out` where it was
/// delivered.
#[tactic(auto, unfolding(cm_session::specs::Answer::line))]
fn push_message(text: &mut Vec<u8>, word: &[u8], message: &Message) -> Result<(), AllocError>
    ensures ok { OnOk result (text.new.items ≡ text.old.items ++ line (message_words word.now message.now)) }
{
    text.extend_from_slice(word)?;
    push_route(text, message)?;
    push_tag(text, message.tag)?;
    text.push(b'\n')?;
    Ok(())
}

/// Where a message goes, and what it carries, each after a space.
fn push_route(text: &mut Vec<u8>, message: &Message) -> Result<(), AllocError>
    ensures ok { OnOk result (text.new.items ≡ text.old.items
        ++ 32 ∷ decimal message.now.rel ++ 32 ∷ decimal message.now.proc ++ 32 ∷ payload_word message.now.payload) }
{
    push_operand(text, u64::from(message.rel))?;
    push_operand(text, u64::from(message.proc.get()))?;
    push_payload(text, message.payload)
}

/// Who sent a message and when, each after a space.
fn push_tag(text: &mut Vec<u8>, tag: Tag) -> Result<(), AllocError>
    ensures ok { OnOk result (text.new.items ≡ text.old.items
        ++ 32 ∷ decimal tag.chip ++ 32 ∷ decimal tag.proc ++ 32 ∷ decimal tag.birth) }
{
    push_operand(text, u64::from(tag.chip))?;
    push_operand(text, u64::from(tag.proc.get()))?;
    push_operand(text, tag.birth)
}

/// A space and a payload.
fn push_payload(text: &mut Vec<u8>, payload: u32) -> Result<(), AllocError>
    ensures ok { OnOk result (text.new.items ≡ text.old.items ++ 32 ∷ payload_word payload) }
{
    text.push(b' ')?;
    text.extend_from_slice(&payload_word(payload))?;
    Ok(())
}

/// A space and a number.
fn push_operand(text: &mut Vec<u8>, number: u64) -> Result<(), AllocError>
    ensures ok { OnOk result (text.new.items ≡ text.old.items ++ 32 ∷ decimal number) }
{
    text.push(b' ')?;
    text.extend_from_slice(Buffer::new().format(number).as_bytes())?;
    Ok(())
}

fn bit_number(bit: bool) -> u64
    ensures value { result ≡ bit_number bit }
{
    if bit { 1 } else { 0 }
}

/// `0x` and eight hexadecimal digits.
fn payload_word(payload: u32) -> [u8; 10]
    ensures value { result ≡ payload_word payload }
{
    [
        b'0',
        b'x',
        hex_digit(payload / 268435456),
        hex_digit(payload / 16777216 % 16),
        hex_digit(payload / 1048576 % 16),
        hex_digit(payload / 65536 % 16),
        hex_digit(payload / 4096 % 16),
        hex_digit(payload / 256 % 16),
        hex_digit(payload / 16 % 16),
        hex_digit(payload % 16),
    ]
}

/// A hexadecimal digit, lower case.
fn hex_digit(digit: u32) -> u8
    requires { digit < 16 }
    ensures value { result ≡ hex_digit digit }
{
    if digit < 10 {
        b'0' + digit as u8
    } else {
        b'a' + (digit as u8 - 10)
    }
}
