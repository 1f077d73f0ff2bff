//! An image read part after part, as the table of the format has it: plain, slow, and with no machine.

use cm_image_format::ImageFault;
use std::alloc::Global;

/// Where reading stands, and the tags that were read.
#[derive(Drop)]
pub(crate) struct Reader {
    at: usize,
    tags: Vec<[u64; 3]>,
}

impl Reader {
    pub(crate) fn new(alloc: Global) -> Reader {
        Reader {
            at: 0,
            tags: Vec::new(alloc),
        }
    }

    /// Reads a whole image of this dimension and room.
    pub(crate) fn read(&mut self, n: u8, cap: u8, bytes: &[u8]) -> Result<(), ImageFault> {
        must(self.number(bytes, 4)? == 0x434d_3149, ImageFault::Magic)?;
        let version = self.number(bytes, 1)?;
        must(version == 1 || version == 2, ImageFault::Version)?;
        must(self.number(bytes, 1)? == u64::from(n), ImageFault::Shape)?;
        must(self.number(bytes, 1)? == u64::from(cap), ImageFault::Shape)?;
        let rule = self.number(bytes, 1)?;
        must(rule == 0 || version == 2 && rule == 1, ImageFault::Shape)?;
        let clock = self.number(bytes, 8)?;
        must(clock < 0x8000_0000_0000_0000, ImageFault::Value)?;
        let chips = power(u64::from(n));
        if version == 2 {
            self.cuts(bytes, u64::from(n), chips, rule)?;
        }
        for _ in 0..chips {
            self.flags(bytes)?;
            self.memory(bytes)?;
            self.messages(bytes, chips, cap, clock)?;
        }
        must(!self.has_tag_twice(), ImageFault::TagTwice)?;
        must(self.at == bytes.len(), ImageFault::Extra)
    }

    fn cuts(&mut self, bytes: &[u8], n: u64, chips: u64, rule: u64) -> Result<(), ImageFault> {
        let count = self.number(bytes, 2)?;
        must(count <= n.saturating_mul(chips) / 2, ImageFault::Count)?;
        must(count != 0 || rule != 0, ImageFault::Count)?;
        let mut before = None;
        for _ in 0..count {
            let chip = self.below(bytes, 2, chips)?;
            let dimension = self.below(bytes, 1, n)?;
            must(chip & power(dimension) == 0, ImageFault::Value)?;
            let rises = match before {
                None => true,
                Some((c, d)) => chip > c || chip == c && dimension > d,
            };
            must(rises, ImageFault::Order)?;
            before = Some((chip, dimension));
        }
        Ok(())
    }

    fn flags(&mut self, bytes: &[u8]) -> Result<(), ImageFault> {
        for f in 0..16 {
            let plane = self.number(bytes, 2)?;
            must(f != 8 || plane == 0, ImageFault::Value)?;
        }
        Ok(())
    }

    fn memory(&mut self, bytes: &[u8]) -> Result<(), ImageFault> {
        let count = self.number(bytes, 2)?;
        must(count <= 4096, ImageFault::Count)?;
        let mut before = None;
        for _ in 0..count {
            let at = self.number(bytes, 2)?;
            must(at < 4096, ImageFault::Value)?;
            let rises = match before {
                None => true,
                Some(address) => at > address,
            };
            must(rises, ImageFault::Order)?;
            must(self.number(bytes, 2)? != 0, ImageFault::Order)?;
            before = Some(at);
        }
        Ok(())
    }

    fn messages(
        &mut self,
        bytes: &[u8],
        chips: u64,
        cap: u8,
        clock: u64,
    ) -> Result<(), ImageFault> {
        let count = self.number(bytes, 1)?;
        must(count <= u64::from(cap), ImageFault::Count)?;
        for _ in 0..count {
            let _rel = self.below(bytes, 2, chips)?;
            let _proc = self.below(bytes, 1, 16)?;
            let _payload = self.number(bytes, 4)?;
            let chip = self.below(bytes, 2, chips)?;
            let proc = self.below(bytes, 1, 16)?;
            let birth = self.below(bytes, 8, clock)?;
            if self.tags.push([chip, proc, birth]).is_err() {
                return Err(ImageFault::Memory);
            }
        }
        Ok(())
    }

    fn below(&mut self, bytes: &[u8], width: usize, limit: u64) -> Result<u64, ImageFault> {
        let number = self.number(bytes, width)?;
        must(number < limit, ImageFault::Value)?;
        Ok(number)
    }

    /// A number of so many bytes, the highest first.
    fn number(&mut self, bytes: &[u8], width: usize) -> Result<u64, ImageFault> {
        let end = self.at.saturating_add(width);
        let Some(part) = bytes.get(self.at..end) else {
            return Err(ImageFault::Short);
        };
        self.at = end;
        let mut number: u64 = 0;
        for byte in part {
            number = number.wrapping_mul(256).wrapping_add(u64::from(*byte));
        }
        Ok(number)
    }

    fn has_tag_twice(&self) -> bool {
        for i in 0..self.tags.len() {
            for k in 0..i {
                if self.tags[i] == self.tags[k] {
                    return true;
                }
            }
        }
        false
    }
}

/// 2 to this power, if it is below 64.
fn power(exponent: u64) -> u64 {
    match u32::try_from(exponent) {
        Ok(shift) => 1u64.checked_shl(shift).unwrap_or(0),
        Err(_) => 0,
    }
}

fn must(holds: bool, fault: ImageFault) -> Result<(), ImageFault> {
    if holds { Ok(()) } else { Err(fault) }
}
