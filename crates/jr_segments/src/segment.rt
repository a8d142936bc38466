//! Marker segments: a marker, a length of two bytes and a payload (T.81, B.1.1.2 to B.1.1.4).
//!
//! `read_segment` makes the tests of any segment, in their order: those of its marker, of its code and of its length.

ghost use Rattle.std.specs.Prelude.{◌≡◌, ◌≢◌, ◌<◌, ◌≤◌, ◌^◌, ◌+◌, ◌-◌, Bool, List, length, take, drop, IfOk, IfSome, slice_index};
ghost use Rattle.jr_segments.specs.Bytes.{byte, word};
ghost use Rattle.jr_segments.specs.Tests.{Obeys};
ghost use Rattle.jr_segments.specs.Marker.{code_of};
ghost use Rattle.jr_segments.specs.Segments.{at_code, marker_tests, code_tests, length_tests, framing_tests, segment_at, after_segment};

use crate::marker::Marker;
use crate::refusal::Refusal;
use byteorder::{BigEndian, ByteOrder};
use jr_base::marker::{
    APP0, APP15, COM, DHT, DQT, DRI, SOF0, SOF1, SOF2, SOF3, SOF5, SOF7, SOF9, SOF11, SOF13, SOF15,
    SOS, fill_count,
};

/// Returns the code of the marker that comes first, and the bytes after it.
///
/// A marker is one or more FF and a code other than 0 (T.81, B.1.1.2). `at` is the offset in the file of the first
/// byte.
///
/// # Errors
///
/// `EndsEarly` if the file ends before the code; `ExpectedMarker` with the offset of the first byte that cannot be
/// where it is: one that is not FF at the start, or a 00 after the FF bytes.
#[tactic(auto, unfolding(crate::specs::Segments::marker_tests))]
fn read_marker(bytes: &[u8], at: u64) -> Result<(u8, &[u8]), Refusal>
    requires { at + length bytes.now < 2 ^ 63 }
    ensures obeys { Obeys result (marker_tests at bytes.now) }
    ensures read { IfOk result (λ m. (m.0 ≡ byte 0 (at_code bytes.now)) × (m.1.now ≡ drop 1 (at_code bytes.now))) }
{
    if bytes.is_empty() {
        return Err(Refusal::EndsEarly);
    }
    let fill = fill_count(bytes);
    if fill == 0 {
        return Err(Refusal::ExpectedMarker(at));
    }
    match &bytes[fill..] {
        [] => Err(Refusal::EndsEarly),
        [0, ..] => Err(Refusal::ExpectedMarker(at + fill as u64)),
        [code, body @ ..] => Ok((*code, body)),
    }
}

/// Returns the marker of a code, if it may occur before the scan.
///
/// `framed` says whether there was a frame header.
///
/// # Errors
///
/// `NotBaseline` for the frames SOF2 to SOF15, `SecondFrame` for SOF0 or SOF1 after a frame, `NoFrame` for SOS before
/// one, `UnexpectedMarker` for all others that are not DHT, DQT, DRI, APP0 to APP15 or COM.
#[tactic(auto, unfolding(crate::specs::Segments::code_tests))]
fn marker_of(code: u8, framed: bool) -> Result<Marker, Refusal>
    ensures obeys { Obeys result (code_tests framed code) }
    ensures marker { IfOk result (λ m. code_of m ≡ code) }
{
    match code {
        SOF2 | SOF3 | SOF5..=SOF7 | SOF9..=SOF11 | SOF13..=SOF15 => Err(Refusal::NotBaseline(code)),
        SOF0 | SOF1 if framed => Err(Refusal::SecondFrame),
        SOF0 => Ok(Marker::Sof0),
        SOF1 => Ok(Marker::Sof1),
        SOS if !framed => Err(Refusal::NoFrame),
        SOS => Ok(Marker::Sos),
        DHT => Ok(Marker::Dht),
        DQT => Ok(Marker::Dqt),
        DRI => Ok(Marker::Dri),
        APP0..=APP15 => Ok(Marker::App(code - APP0)),
        COM => Ok(Marker::Com),
        _ => Err(Refusal::UnexpectedMarker(code)),
    }
}

/// Returns the payload of a segment, and the bytes after it.
///
/// `body` is what follows the marker: a big-endian length, which counts its own two bytes, and the payload (T.81,
/// B.1.1.4).
///
/// # Errors
///
/// `EndsEarly` if the length or the payload goes past the end of the file, `BadLength` for a length under 2.
#[tactic(auto, unfolding(crate::specs::Segments::length_tests))]
fn read_payload(code: u8, body: &[u8]) -> Result<(&[u8], &[u8]), Refusal>
    ensures obeys { Obeys result (length_tests code body.now) }
    ensures payload { IfOk result (λ p. p.0.now ≡ take (word 0 body.now - 2) (drop 2 body.now)) }
    ensures rest { IfOk result (λ p. p.1.now ≡ drop (word 0 body.now) body.now) }
{
    if body.len() < 2 {
        return Err(Refusal::EndsEarly);
    }
    let len = usize::from(BigEndian::read_u16(body));
    if len < 2 {
        return Err(Refusal::BadLength(code));
    }
    if body.len() < len {
        return Err(Refusal::EndsEarly);
    }
    Ok((&body[2..len], &body[len..]))
}

/// A marker segment, and the bytes after it.
#[derive(Clone, Copy)]
pub struct Segment<'a> {
    pub marker: Marker,
    pub payload: &'a [u8],
    pub rest: &'a [u8],
}

/// Reads the segment that comes first. `at` is the offset in the file of its first byte.
#[tactic(auto, unfolding(crate::specs::Segments::framing_tests), using(crate::proofs::TestLaws::test_laws))]
pub fn read_segment(bytes: &[u8], at: u64, framed: bool) -> Result<Segment<'_>, Refusal>
    requires { at + length bytes.now < 2 ^ 63 }
    ensures obeys { Obeys result (framing_tests framed at bytes.now) }
    ensures code { IfOk result (λ s. code_of s.marker ≡ (segment_at bytes.now).code) }
    ensures payload { IfOk result (λ s. s.payload.now ≡ (segment_at bytes.now).payload) }
    ensures rest { IfOk result (λ s. s.rest.now ≡ after_segment bytes.now) }
{
    let (code, body) = read_marker(bytes, at)?;
    let marker = marker_of(code, framed)?;
    let (payload, rest) = read_payload(code, body)?;
    Ok(Segment {
        marker,
        payload,
        rest,
    })
}
