//! The eighteen bytes of a message, as an image has them: its parts in order, each with its highest byte first.

ghost use Rattle.std.specs.Prelude.{◌≡◌, ◌<◌, ◌↔◌, IsSome, IfSome};
ghost use Rattle.cm_message.specs.Bytes.{message_text, message_of, rel_in, proc_in, payload_in, origin_chip_in};
ghost use Rattle.cm_message.specs.Bytes.{origin_proc_in, birth_in};

use cm_bits::Proc;
use cm_model::{Message, Tag};

/// The bytes of a message: relative address, processor, payload, then origin chip, origin processor, birth.
#[tactic(auto, unfolding(crate::specs::Bytes::number_bytes))]
pub fn bytes(message: &Message) -> [u8; 18]
    ensures value { result ≡ message_text message.now }
{
    let [rel_high, rel_low] = message.rel.to_be_bytes();
    let payload = message.payload.to_be_bytes();
    let [chip_high, chip_low] = message.tag.chip.to_be_bytes();
    let birth = message.tag.birth.to_be_bytes();
    [
        rel_high,
        rel_low,
        message.proc.get(),
        payload[0],
        payload[1],
        payload[2],
        payload[3],
        chip_high,
        chip_low,
        message.tag.proc.get(),
        birth[0],
        birth[1],
        birth[2],
        birth[3],
        birth[4],
        birth[5],
        birth[6],
        birth[7],
    ]
}

/// The message of these bytes; None where a processor's number is above 15.
#[tactic(auto, unfolding(crate::specs::Bytes::message_of))]
pub fn of_bytes(bytes: &[u8; 18]) -> Option<Message>
    ensures value { result ≡ message_of bytes.now }
{
    let proc = proc_in(bytes)?;
    let origin = origin_proc_in(bytes)?;
    Some(Message {
        rel: rel_in(bytes),
        proc,
        payload: payload_in(bytes),
        tag: Tag {
            chip: origin_chip_in(bytes),
            proc: origin,
            birth: birth_in(bytes),
        },
    })
}

/// Bytes 0 and 1.
#[tactic(auto, using(crate::proofs::Numbers::dropped), unfolding(crate::specs::Bytes::number_from))]
pub fn rel_in(bytes: &[u8; 18]) -> u16
    ensures value { result ≡ rel_in bytes.now }
{
    u16::from_be_bytes([bytes[0], bytes[1]])
}

/// Byte 2, where it is a processor's number.
pub fn proc_in(bytes: &[u8; 18]) -> Option<Proc>
    ensures in_range { IsSome result ↔ (proc_in bytes.now < 16) }
    ensures value { IfSome result (λ proc. proc ≡ proc_in bytes.now) }
{
    Proc::new(bytes[2])
}

/// Bytes 3 to 6.
#[tactic(auto, using(crate::proofs::Numbers::dropped), unfolding(crate::specs::Bytes::number_from))]
pub fn payload_in(bytes: &[u8; 18]) -> u32
    ensures value { result ≡ payload_in bytes.now }
{
    u32::from_be_bytes([bytes[3], bytes[4], bytes[5], bytes[6]])
}

/// Bytes 7 and 8.
#[tactic(auto, using(crate::proofs::Numbers::dropped), unfolding(crate::specs::Bytes::number_from))]
pub fn origin_chip_in(bytes: &[u8; 18]) -> u16
    ensures value { result ≡ origin_chip_in bytes.now }
{
    u16::from_be_bytes([bytes[7], bytes[8]])
}

/// Byte 9, where it is a processor's number.
pub fn origin_proc_in(bytes: &[u8; 18]) -> Option<Proc>
    ensures in_range { IsSome result ↔ (origin_proc_in bytes.now < 16) }
    ensures value { IfSome result (λ proc. proc ≡ origin_proc_in bytes.now) }
{
    Proc::new(bytes[9])
}

/// Bytes 10 to 17.
#[tactic(auto, using(crate::proofs::Numbers::dropped), unfolding(crate::specs::Bytes::number_from))]
pub fn birth_in(bytes: &[u8; 18]) -> u64
    ensures value { result ≡ birth_in bytes.now }
{
    u64::from_be_bytes([
        bytes[10], bytes[11], bytes[12], bytes[13], bytes[14], bytes[15], bytes[16], bytes[17],
    ])
}
