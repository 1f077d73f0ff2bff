//! Lines, words and numbers of the text languages, read in place.

ghost use Rattle.std.specs.Prelude.{◌≡◌, ◌≤◌, ◌==◌, length};
ghost use Rattle.std.specs.Iterator.{YieldsFirstBy, item_count};
ghost use Rattle.std.specs.List.{position_or_len, prefix_len};
ghost use Rattle.cm_bits.specs.Text.{is_blank, lines_left, lines_of, number_in, number_of, words_left, words_of};

use memchr::memchr;

/// The lines of a text, each without its LF.
#[derive(Drop)]
pub struct Lines<'a> {
    rest: &'a [u8],
}

impl<'a> Lines<'a> {
    /// The lines of a text, from the first on.
    pub fn new(text: &'a [u8]) -> Lines<'a>
        ensures { lines_left result ≡ lines_of text.entry.now }
    {
        Lines { rest: text }
    }
}

impl<'a> Iterator for Lines<'a> {
    type Item = &'a [u8];

    ghost next_gives = { YieldsFirstBy (λ line. line.now) lines_left };

    ghost remaining = { item_count lines_left };

    fn next(&mut self) -> Option<&'a [u8]> {
        let rest = self.rest;
        if rest.is_empty() {
            return None;
        }
        let end = find(rest, b'\n');
        if end < rest.len() {
            self.rest = &rest[end + 1..];
            Some(&rest[..end])
        } else {
            self.rest = &[];
            Some(rest)
        }
    }
}

/// The words of a line. Its comment, from the first `;` on, is cut off first.
#[derive(Drop)]
pub struct Words<'a> {
    rest: &'a [u8],
}

impl<'a> Words<'a> {
    /// The words of a line that stand before its first `;`, from the first on.
    pub fn new(line: &'a [u8]) -> Words<'a>
        ensures { words_left result ≡ words_of line.entry.now }
    {
        Words {
            rest: &line[..find(line, b';')],
        }
    }
}

impl<'a> Iterator for Words<'a> {
    type Item = &'a [u8];

    ghost next_gives = { YieldsFirstBy (λ word. word.now) words_left };

    ghost remaining = { item_count words_left };

    #[inline(never)]
    fn next(&mut self) -> Option<&'a [u8]> {
        let rest = &self.rest[blanks_len(self.rest)..];
        let end = word_len(rest);
        self.rest = &rest[end..];
        if end > 0 { Some(&rest[..end]) } else { None }
    }
}

/// The number that a word writes, in decimal or after `0x` in hexadecimal, below 2^64.
pub fn read_number(word: &[u8]) -> Option<u64>
    ensures { result ≡ number_of word.now }
{
    match word {
        [b'0', b'x', digits @ ..] => number_in(digits, 16),
        digits => number_in(digits, 10),
    }
}

#[tactic(auto, using(crate::proofs::TextLemmas::too_big_before))]
fn number_in(digits: &[u8], base: u32) -> Option<u64>
    requires low { 2 ≤ base }
    requires high { base ≤ 16 }
    ensures { result ≡ number_in base digits.now }
{
    if digits.is_empty() {
        return None;
    }
    let mut value = 0u64;
    for digit in digits {
        let digit = (*digit as char).to_digit(base)?;
        value = value.checked_mul(base as u64)?.checked_add(digit as u64)?;
    }
    Some(value)
}

fn is_blank(byte: u8) -> bool
    ensures { result ≡ is_blank byte }
{
    byte == b' ' || byte == b'\t' || byte == b'\r'
}

// The place of the first `byte`, or the length.
fn find(bytes: &[u8], byte: u8) -> usize
    ensures place { result ≡ position_or_len (λ other. other == byte) bytes.now }
    ensures within { result ≤ length bytes.now }
{
    match memchr(byte, bytes) {
        Some(place) => place,
        None => bytes.len(),
    }
}

// The place of the first blank, or the length.
fn word_len(bytes: &[u8]) -> usize
    ensures place { result ≡ position_or_len is_blank bytes.now }
    ensures within { result ≤ length bytes.now }
{
    for (i, byte) in bytes.iter().enumerate() {
        if is_blank(*byte) {
            return i;
        }
    }
    bytes.len()
}

// The place of the first byte that is not blank, or the length.
fn blanks_len(bytes: &[u8]) -> usize
    ensures place { result ≡ prefix_len is_blank bytes.now }
    ensures within { result ≤ length bytes.now }
{
    for (i, byte) in bytes.iter().enumerate() {
        if !is_blank(*byte) {
            return i;
        }
    }
    bytes.len()
}
