//! Codes and additional bits as T.81 defines them (Annex C, F.2.2.1), bit by bit and by no code of jri.

/// The number of codes of each length, from one bit to sixteen, and their symbols.
#[derive(Clone, Copy)]
pub(crate) struct PlainTable {
    pub counts: &'static [u8],
    pub symbols: &'static [u8],
}

/// A reader of bits, and whether it has met no code, or no bit where one was to be.
#[derive(Clone, Copy)]
pub(crate) struct PlainBits<'a> {
    pub bytes: &'a [u8],
    /// The number of bits that are read.
    pub at: usize,
    pub has_failed: bool,
}

impl PlainBits<'_> {
    /// Reads the number of the next n bits, from the most significant bit of each byte.
    pub(crate) fn number(&mut self, n: u8) -> u32 {
        let mut number = 0u32;
        for _ in 0..n {
            let byte = match self.bytes.get(self.at / 8) {
                Some(byte) => *byte,
                None => {
                    self.has_failed = true;
                    return 0;
                }
            };
            number = number << 1 | u32::from(byte >> (7 - self.at % 8) & 1);
            self.at = self.at.wrapping_add(1);
        }
        number
    }

    /// Reads a code, and returns its symbol. The codes of a length are those that follow the last one of the length before.
    pub(crate) fn word(&mut self, table: &PlainTable) -> u8 {
        let (mut word, mut first, mut place) = (0u32, 0u32, 0u32);
        for count in table.counts {
            let count = u32::from(*count);
            word = word << 1 | self.number(1);
            first = first << 1;
            let code = word.wrapping_sub(first);
            if code < count {
                let symbol = table.symbols.get(place.wrapping_add(code) as usize);
                return symbol.copied().unwrap_or(0);
            }
            first = first.wrapping_add(count);
            place = place.wrapping_add(count);
        }
        self.has_failed = true;
        0
    }

    /// Reads the value of additional bits, at most fifteen.
    pub(crate) fn value(&mut self, size: u8) -> i32 {
        let number = (self.number(size) % 65536) as i32;
        let full = 1i32 << (size % 16);
        if size == 0 || number >= full / 2 {
            number
        } else {
            number - full + 1
        }
    }
}
