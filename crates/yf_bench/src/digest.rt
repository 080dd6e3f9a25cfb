//! A digest of bytes.

/// An odd number with the bits of the golden ratio.
const FACTOR: u64 = 0x9e37_79b9_7f4a_7c15;

/// A digest of all bytes and numbers that were added, in their order.
#[derive(Clone, Copy)]
pub struct Digest {
    value: u64,
}

impl Digest {
    pub fn new() -> Digest {
        Digest { value: FACTOR }
    }

    pub fn value(&self) -> u64 {
        self.value
    }

    /// Adds a number.
    #[inline(always)]
    pub fn add_number(&mut self, number: u64) {
        self.value = (self.value ^ number).wrapping_mul(FACTOR).rotate_left(29);
    }

    /// Adds bytes and their number.
    pub fn add_bytes(&mut self, bytes: &[u8]) {
        let (chunks, rest) = bytes.as_chunks::<8>();
        for chunk in chunks {
            self.add_number(u64::from_le_bytes(*chunk));
        }
        for byte in rest {
            self.add_number(u64::from(*byte));
        }
        self.add_number(bytes.len() as u64);
    }
}
