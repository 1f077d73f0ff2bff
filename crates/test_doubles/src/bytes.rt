//! A source of bytes in memory, which fails when told to.

ghost use Rattle.std.specs.Prelude.{◌≡◌, ◌-◌, ◌↔◌, true, false, Some, None, length, min, max, IsErr, IfOk};
ghost use Rattle.std.specs.Prelude.{MatchResult};
ghost use Rattle.std.specs.Option.{option_map};
ghost use Rattle.std.specs.Io.{ReadsAtMost};
ghost use Rattle.std.specs.Io.KnownBytes.{ReadConsumes};
ghost use Rattle.test_doubles.specs.Doubles.{bytes_left, bytes_most, bytes_step, bytes_good, bytes_has_failed};

use cm_bits::{Failed, Source};

/// A source over bytes in memory. It gives at most `step` bytes a call, where 0 counts as 1.
#[derive(Drop)]
pub struct Bytes<'a> {
    rest: &'a [u8],
    step: usize,
    good: Option<usize>,
    failed: bool,
}

impl<'a> Bytes<'a> {
    /// A source of these bytes, which gives at most `step` of them a read, at least 1, and never fails.
    pub fn new(bytes: &'a [u8], step: usize) -> Bytes<'a>
        ensures left { bytes_left result ≡ bytes.entry.now }
        ensures good { bytes_good result ≡ None }
        ensures step { bytes_step result ≡ max step 1 }
        ensures failed { bytes_has_failed result ≡ false }
    {
        Bytes {
            rest: bytes,
            step,
            good: None,
            failed: false,
        }
    }

    /// The same, but once `good` bytes have come every call fails.
    pub fn failing(bytes: &'a [u8], step: usize, good: usize) -> Bytes<'a>
        ensures left { bytes_left result ≡ bytes.entry.now }
        ensures good { bytes_good result ≡ Some good }
        ensures step { bytes_step result ≡ max step 1 }
        ensures failed { bytes_has_failed result ≡ false }
    {
        Bytes {
            rest: bytes,
            step,
            good: Some(good),
            failed: false,
        }
    }
}

impl<'a> Source for Bytes<'a> {
    ghost left = { λ s. Some (bytes_left s) };

    ghost has_failed = { bytes_has_failed };

    fn read(&mut self, buf: &mut [u8]) -> Result<usize, Failed>
        ensures bound { ReadsAtMost result buf.new }
        ensures bytes { ReadConsumes (Some (bytes_left self.old)) (Some (bytes_left self.new))
            result buf.new }
        ensures failed { MatchResult result
            (λ _. bytes_has_failed self.new ≡ bytes_has_failed self.old)
            (λ _. bytes_has_failed self.new ≡ true) }
        ensures fails { IsErr result ↔ (bytes_good self.old ≡ Some 0) }
        ensures count { IfOk result (λ count. count ≡ min (bytes_most self.old)
            (min (length buf.old) (length (bytes_left self.old)))) }
        ensures good { IfOk result (λ count.
            bytes_good self.new ≡ option_map (λ good. good - count) (bytes_good self.old)) }
        ensures others { bytes_step self.new ≡ bytes_step self.old }
    {
        if self.good == Some(0) {
            self.failed = true;
            return Err(Failed);
        }
        let step = self.step.max(1);
        let most = step.min(self.good.unwrap_or(step));
        let count = buf.len().min(self.rest.len()).min(most);
        buf[..count].copy_from_slice(&self.rest[..count]);
        self.rest = &self.rest[count..];
        self.good = self.good.map(|good| good.saturating_sub(count));
        Ok(count)
    }
}
