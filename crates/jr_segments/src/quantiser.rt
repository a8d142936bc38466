//! Quantisation tables (T.81, B.2.4.1).
//!
//! A payload holds tables one after the other until it ends. Each has a byte with its precision Pq in the high half and
//! its destination Tq in the low half, and 64 elements in zigzag order: of one byte if Pq is 0, of two if it is 1.

ghost use Rattle.std.specs.Prelude.{◌≡◌, ◌<◌, ◌≤◌, ◌+◌, ◌*◌, ◌++◌, ◌/◌, ◌%◌, ◌==◌, ℕ, List, length, drop, take, OnOk, IfOk};
ghost use Rattle.jr_segments.specs.Bytes.{high, low};
ghost use Rattle.jr_segments.specs.Tests.{Obeys};
ghost use Rattle.jr_segments.specs.Quantisers.{Quantisation, quantisation, quantisations, quantisation_tests, quantisations_tests, elements_len, words, DefinesQuantisers};

use crate::refusal::Refusal;
use byteorder::{BigEndian, ByteOrder};
use jr_base::marker::DQT;

/// A quantisation table.
#[derive(Clone, Copy, PartialEq, Eq)]
pub struct Quantiser {
    /// Whether its elements are written with two bytes each.
    pub is_wide: bool,
    /// In zigzag order.
    pub elements: [u16; 64],
}

/// A quantisation table and its destination.
#[derive(Clone, Copy)]
pub struct Quantisation {
    /// Tq.
    pub destination: u8,
    pub quantiser: Quantiser,
}

impl Quantiser {
    ghost use Rattle.std.specs.Prelude.{◌≡◌, length};

    /// Returns a copy of the elements.
    pub fn to_elements(&self) -> [u16; 64]
        ensures value { result ≡ self.now.elements }
        ensures count { length result ≡ 64 }
    {
        let Quantiser { elements, .. } = self;
        let _count = elements.len();
        *elements
    }
}

/// Sixty-four elements of one byte.
fn short_elements(bytes: &[u8]) -> [u16; 64]
    requires { 64 ≤ length bytes.now }
    ensures { result ≡ take 64 bytes.now }
{
    let mut elements = [0; 64];
    for i in 0..64usize {
        elements[i] = u16::from(bytes[i]);
    }
    elements
}

/// Sixty-four elements of two bytes.
fn long_elements(bytes: &[u8]) -> [u16; 64]
    requires { 128 ≤ length bytes.now }
    ensures { result ≡ words (take 128 bytes.now) }
{
    let mut elements = [0; 64];
    for i in 0..64usize {
        elements[i] = BigEndian::read_u16(&bytes[2 * i..]);
    }
    elements
}

/// Reads the table that a byte begins, and returns it with the bytes after it.
///
/// # Errors
///
/// `BadQuantTable` if Pq is over 1 or Tq over 3, then `BadLength` if elements are missing. An element may be 0.
#[tactic(auto, unfolding(crate::specs::Quantisers::quantisation_tests))]
fn read_quantisation(head: u8, bytes: &[u8]) -> Result<(Quantisation, &[u8]), Refusal>
    ensures obeys { Obeys result (quantisation_tests (head, bytes.now)) }
    ensures destination { IfOk result (λ q. q.0.destination < 4) }
    ensures table { IfOk result (λ q. q.0 ≡ quantisation (head, bytes.now)) }
    ensures rest { IfOk result (λ q. q.1.now ≡ drop (elements_len head) bytes.now) }
{
    let precision = head / 16;
    let destination = head % 16;
    if precision > 1 || destination > 3 {
        return Err(Refusal::BadQuantTable);
    }
    let len = if precision == 1 { 128 } else { 64 };
    if bytes.len() < len {
        return Err(Refusal::BadLength(DQT));
    }
    let elements = if precision == 1 {
        long_elements(bytes)
    } else {
        short_elements(bytes)
    };
    let quantisation = Quantisation {
        destination,
        quantiser: Quantiser {
            is_wide: precision == 1,
            elements,
        },
    };
    let (_, rest) = bytes.split_at(len);
    Ok((quantisation, rest))
}

/// Stores each table of a DQT payload at its destination.
///
/// # Errors
///
/// Those of `read_quantisation`, for the first table that has one.
pub fn define_quantisers(places: &mut [Option<Quantiser>; 4], payload: &[u8]) -> Result<(), Refusal>
    ensures obeys { Obeys result (quantisations_tests payload.now) }
    ensures defined { OnOk result (DefinesQuantisers payload.now places.old places.new) }
{
    let mut rest = payload;
    while let [head, further @ ..] = rest {
        let (quantisation, after) = read_quantisation(*head, further)?;
        places[usize::from(quantisation.destination)] = Some(quantisation.quantiser);
        rest = after;
    }
    Ok(())
}
