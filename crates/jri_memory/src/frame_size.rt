//! The size of the image of a file that is refused: that of its first frame header (T.81, B.2.2).

ghost use Rattle.std.specs.Prelude.{◌≡◌, ◌≢◌, ◌<◌, ◌≤◌, None, length, IfSome, IfNone};
ghost use Rattle.jr_segments.specs.declared.refusal.Refusal.TheVariants.{Memory};
ghost use Rattle.jr_segments.specs.Frames.{frame_component_count, height, width};
ghost use Rattle.jr_segments.specs.Segments.{after_segment, is_known, segment_at};
ghost use Rattle.jri_memory.specs.Frames.{HasOneSize, HasSegment, LacksSize, is_any_frame};

use byteorder::{BigEndian, ByteOrder};
use jr_base::marker::{
    APP0, APP15, COM, DHT, DQT, DRI, PREFIX, SOF0, SOF1, SOF2, SOF3, SOF5, SOF7, SOF9, SOF11,
    SOF13, SOF15, SOI, SOS, fill_count,
};
use jr_segments::Refusal;

/// The size that a frame header has, whether or not jri decodes such a frame.
#[derive(Clone, Copy)]
pub(crate) struct FrameSize {
    /// X, in pixels.
    pub(crate) width: u32,
    /// Y, in lines; 0 if it follows the scan.
    pub(crate) height: u32,
    /// Nf.
    pub(crate) components: u32,
}

/// A marker's code, the payload of its segment, and the bytes after it.
#[derive(Clone, Copy)]
struct AnySegment<'a> {
    code: u8,
    payload: &'a [u8],
    rest: &'a [u8],
}

/// Returns the segment that comes first, of any code, or `None` if it is not whole.
fn first_segment(bytes: &[u8]) -> Option<AnySegment<'_>>
    ensures there { IfSome result (λ _. HasSegment bytes.now) }
    ensures code { IfSome result (λ s. s.code ≡ (segment_at bytes.now).code) }
    ensures payload { IfSome result (λ s. s.payload.now ≡ (segment_at bytes.now).payload) }
    ensures rest { IfSome result (λ s. s.rest.now ≡ after_segment bytes.now) }
    ensures none { IfNone result (HasSegment bytes.now → ⊥) }
{
    let fill = fill_count(bytes);
    if fill == 0 {
        return None;
    }
    let body = &bytes[fill..];
    if body.len() < 3 {
        return None;
    }
    let length = usize::from(BigEndian::read_u16(&body[1..]));
    if length < 2 || body.len() < 1 + length {
        return None;
    }
    Some(AnySegment {
        code: body[0],
        payload: &body[3..1 + length],
        rest: &body[1 + length..],
    })
}

/// Returns whether the code is that of a frame, of SOF0 to SOF15.
fn is_any_frame(code: u8) -> bool
    ensures { result ≡ is_any_frame code }
{
    match code {
        SOF0 | SOF1 => true,
        SOF2 | SOF3 | SOF5..=SOF7 | SOF9..=SOF11 | SOF13..=SOF15 => true,
        _ => false,
    }
}

/// Returns whether jri knows segments of this code.
fn is_known(code: u8) -> bool
    ensures { result ≡ is_known code }
{
    match code {
        DQT | DHT | DRI | SOF0 | SOF1 | SOS | COM => true,
        APP0..=APP15 => true,
        _ => false,
    }
}

/// Returns the size in the payload of a frame header, or `None` if it is too short to have one.
fn size_in(payload: &[u8]) -> Option<FrameSize>
    ensures long { IfSome result (λ _. 6 ≤ length payload.now) }
    ensures width { IfSome result (λ s. s.width ≡ width payload.now) }
    ensures height { IfSome result (λ s. s.height ≡ height payload.now) }
    ensures components { IfSome result (λ s. s.components ≡ frame_component_count payload.now) }
    ensures none { IfNone result (length payload.now < 6) }
{
    if payload.len() < 6 {
        return None;
    }
    Some(FrameSize {
        width: u32::from(BigEndian::read_u16(&payload[3..])),
        height: u32::from(BigEndian::read_u16(&payload[1..])),
        components: u32::from(payload[5]),
    })
}

/// Returns the size in the first frame header of a file, or `None` if no whole one comes before the scan and before what is no segment
/// of a header.
fn frame_size(file: &[u8]) -> Option<FrameSize>
    ensures some { IfSome result (λ s. HasOneSize file.now s.width s.height s.components) }
    ensures none { IfNone result (LacksSize file.now) }
{
    let [PREFIX, SOI, first @ ..] = file else {
        return None;
    };
    let mut rest = first;
    'segments: loop {
        let Some(segment) = first_segment(rest) else {
            return None;
        };
        if is_any_frame(segment.code) {
            return size_in(segment.payload);
        }
        if segment.code == SOS || !is_known(segment.code) {
            return None;
        }
        rest = segment.rest;
    }
}

/// Returns the size in the first frame header of a file that is refused; `None` too if allocation failed, which says nothing of the file.
pub(crate) fn size_of_refused(file: &[u8], refusal: Refusal) -> Option<FrameSize>
    ensures some { IfSome result (λ s. HasOneSize file.now s.width s.height s.components) }
    ensures none { refusal ≢ Memory → IfNone result (LacksSize file.now) }
    ensures memory { refusal ≡ Memory → result ≡ None }
{
    match refusal {
        Refusal::Memory => None,
        _ => frame_size(file),
    }
}
