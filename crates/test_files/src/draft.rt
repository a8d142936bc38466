//! Bytes that a text in a notation stands for, while they are written.

ghost use Rattle.std.specs.Prelude.{◌≤◌};

use crate::error::NotationError;
use std::alloc::Global;

/// The bytes so far, and the last reason why there are none.
#[derive(Drop)]
pub(crate) struct Draft {
    bytes: Vec<u8>,
    fault: Option<NotationError>,
}

impl Draft {
    pub(crate) fn new(alloc: Global) -> Draft {
        Draft {
            bytes: Vec::new(alloc),
            fault: None,
        }
    }

    /// Returns the bytes.
    pub(crate) fn finish(self) -> Result<Vec<u8>, NotationError> {
        match self.fault {
            None => Ok(self.bytes),
            Some(fault) => Err(fault),
        }
    }

    /// Notes that the text is not of the notation.
    pub(crate) fn reject(&mut self) {
        self.fault = Some(NotationError::Malformed);
    }

    pub(crate) fn push(&mut self, byte: u8) {
        if self.bytes.push(byte).is_err() {
            self.fault = Some(NotationError::Memory);
        }
    }

    pub(crate) fn append(&mut self, bytes: &[u8]) {
        if self.bytes.extend_from_slice(bytes).is_err() {
            self.fault = Some(NotationError::Memory);
        }
    }

    /// Leaves the first bytes.
    pub(crate) fn truncate(&mut self, length: u32) {
        self.bytes.truncate(length as usize);
    }

    /// Changes the byte at an offset.
    pub(crate) fn change(&mut self, at: u32, value: u8) {
        match self.bytes.get_mut(at as usize) {
            Some(byte) => *byte = value,
            None => self.reject(),
        }
    }

    /// Reads a number, of digits in that base.
    pub(crate) fn number(&mut self, digits: &str, radix: u32) -> u32
        requires { (2 ≤ radix) × (radix ≤ 36) }
    {
        match u32::from_str_radix(digits, radix) {
            Ok(number) => number,
            Err(_) => {
                self.reject();
                0
            }
        }
    }

    /// Reads a hexadecimal digit.
    fn digit(&mut self, c: u8) -> u8 {
        match char::from(c).to_digit(16) {
            Some(digit) => digit as u8,
            None => {
                self.reject();
                0
            }
        }
    }

    /// Appends the bytes that pairs of hexadecimal digits write.
    pub(crate) fn write_hex(&mut self, digits: &str) {
        for pair in digits.as_bytes().as_chunks::<2>().0 {
            let high = self.digit(pair[0]);
            let low = self.digit(pair[1]);
            self.push(high.wrapping_mul(16).wrapping_add(low));
        }
    }

    /// Appends pairs of digits, or a number of times a pair.
    pub(crate) fn write_digits(&mut self, word: &str) {
        match word.split_once('*') {
            None => self.write_hex(word),
            Some((times, digits)) => {
                for _ in 0..self.number(times, 10) {
                    self.write_hex(digits);
                }
            }
        }
    }
}
