//! Frame headers (T.81, B.2.2).
//!
//! A payload holds the precision P in bits, the lines Y and the columns X in two bytes each, and the number of
//! components Nf; then for each component its identifier Ci, a byte with its sampling factors Hi in the high half and Vi
//! in the low half, and the destination Tqi of its quantisation table. `read_frame` makes the tests, in their order.

ghost use Rattle.std.specs.Prelude.{◌≡◌, ◌<◌, ◌≤◌, ◌==◌, ◌&&◌, ◌||◌, ◌+◌, ◌*◌, ◌⊎◌, true, false, not, nat_lt, ℕ, List, length, drop, map, IfOk, OnOk};
ghost use Rattle.std.specs.List.{list_any, list_all};
ghost use Rattle.jr_base.specs.declared.limits.TheConstants.{MAX_PIXELS};
ghost use Rattle.jr_segments.specs.Tests.{Obeys};
ghost use Rattle.jr_segments.specs.Frames.{components_in, components, width, height, has_repeats, is_factor, greatest_horizontal, greatest_vertical, blocks, divides, divide_greatest, is_ill_sampled, has_far_quantiser, have_factors, size_tests, component_tests, frame_tests, IsAccepted};

use crate::refusal::Refusal;
use byteorder::{BigEndian, ByteOrder};
use jr_base::limits::MAX_PIXELS;
use std::alloc::{AllocError, Global};

/// A component's entry in a frame header.
#[derive(Clone, Copy)]
pub struct FrameComponent {
    /// Ci.
    pub id: u8,
    /// Hi.
    pub horizontal: u8,
    /// Vi.
    pub vertical: u8,
    /// Tqi.
    pub quantiser: u8,
}

/// A frame header.
#[derive(Drop)]
pub struct Frame {
    /// The marker's code: SOF0 or SOF1.
    pub code: u8,
    /// X, in pixels.
    pub width: u16,
    /// Y, in lines.
    pub height: u16,
    /// In the order of the header.
    pub components: Vec<FrameComponent>,
}

impl Frame {
    ghost use Rattle.std.specs.Prelude.{◌≡◌, ◌==◌, length};

    /// Returns whether the image has one component, whose sampling factors are read as 1 and 1.
    pub fn is_single(&self) -> bool
        ensures { result ≡ (length self.now.components.items == 1) }
    {
        self.components.as_slice().len() == 1
    }
}

/// Returns the entries of components, three bytes each.
fn read_components(alloc: Global, bytes: &[u8]) -> Result<Vec<FrameComponent>, AllocError>
    ensures { IfOk result (λ v. v.items ≡ components_in bytes.now) }
{
    let mut components = Vec::new(alloc);
    let mut rest = bytes;
    while let [id, factors, quantiser, further @ ..] = rest {
        components.push(FrameComponent {
            id: *id,
            horizontal: *factors / 16,
            vertical: *factors % 16,
            quantiser: *quantiser,
        })?;
        rest = further;
    }
    Ok(components)
}

fn has_id(components: &[FrameComponent], id: u8) -> bool
    ensures { result ≡ list_any (λ c. c.id == id) components.now }
{
    components.iter().any(|c| c.id == id)
}

/// Returns whether two components have one identifier.
fn has_repeats(components: &[FrameComponent]) -> bool
    ensures { result ≡ has_repeats components.now }
{
    for (i, c) in components.iter().enumerate() {
        if has_id(&components[i + 1..], c.id) {
            return true;
        }
    }
    false
}

/// Hmax.
fn greatest_horizontal(components: &[FrameComponent]) -> u8
    ensures { result ≡ greatest_horizontal components.now }
{
    components.iter().fold(0, |most, c| c.horizontal.max(most))
}

/// Vmax.
fn greatest_vertical(components: &[FrameComponent]) -> u8
    ensures { result ≡ greatest_vertical components.now }
{
    components.iter().fold(0, |most, c| c.vertical.max(most))
}

/// Returns the number of data units of an MCU (T.81, A.2.3).
fn block_count(components: &[FrameComponent]) -> u32
    requires { length components.now ≤ 3 }
    ensures { result ≡ blocks components.now }
{
    let mut blocks: u32 = 0;
    for c in components {
        blocks += u32::from(c.horizontal) * u32::from(c.vertical);
    }
    blocks
}

fn is_factor(factor: u8) -> bool
    ensures { result ≡ is_factor factor }
{
    factor > 0 && factor < 5
}

/// Returns whether all sampling factors are from 1 to 4.
#[tactic(auto, unfolding(crate::specs::Frames::have_factors))]
fn have_factors(components: &[FrameComponent]) -> bool
    ensures { result ≡ have_factors components.now }
{
    components
        .iter()
        .all(|c| is_factor(c.horizontal) && is_factor(c.vertical))
}

fn is_divisor(d: u8, n: u8) -> bool
    ensures { result ≡ divides d n }
{
    d > 0 && n % d == 0
}

/// Returns whether each Hi divides Hmax and each Vi divides Vmax.
fn divide_greatest(components: &[FrameComponent]) -> bool
    ensures { result ≡ divide_greatest components.now }
{
    let horizontal = greatest_horizontal(components);
    let vertical = greatest_vertical(components);
    components.iter().all(|c| is_divisor(c.horizontal, horizontal)
        && is_divisor(c.vertical, vertical))
}

/// Returns whether a destination Tqi is over 3.
#[tactic(auto, unfolding(crate::specs::Frames::has_far_quantiser))]
fn has_far_quantiser(components: &[FrameComponent]) -> bool
    ensures { result ≡ has_far_quantiser components.now }
{
    components.iter().any(|c| c.quantiser > 3)
}

/// Returns whether three components have a factor that does not divide the greatest, or more than ten data units in an
/// MCU.
#[tactic(auto, unfolding(crate::specs::Frames::is_ill_sampled))]
fn is_ill_sampled(components: &[FrameComponent]) -> bool
    ensures { result ≡ is_ill_sampled components.now }
{
    components.len() == 3 && (!divide_greatest(components) || block_count(components) > 10)
}

/// Makes the tests of the components, each for all of them before the next.
///
/// # Errors
///
/// `BadComponents` for equal identifiers or a destination over 3; `BadSampling` for a sampling factor that is not from 1
/// to 4, or three components that do not fit together.
#[tactic(auto, unfolding(crate::specs::Frames::component_tests))]
fn check_components(components: &[FrameComponent]) -> Result<(), Refusal>
    ensures obeys { Obeys result (component_tests components.now) }
    ensures factors { OnOk result (have_factors components.now ≡ true) }
    ensures sampled { OnOk result (is_ill_sampled components.now ≡ false) }
{
    if has_repeats(components) {
        return Err(Refusal::BadComponents);
    }
    if has_far_quantiser(components) {
        return Err(Refusal::BadComponents);
    }
    if !have_factors(components) {
        return Err(Refusal::BadSampling);
    }
    if is_ill_sampled(components) {
        return Err(Refusal::BadSampling);
    }
    Ok(())
}

/// Returns X and Y, if the tests before those of the components pass.
///
/// # Errors
///
/// In this order: `BadLength` for fewer than six bytes, `BadPrecision` for samples not of 8 bits, `BadSize` if X or Y
/// is 0, `TooManyPixels`, `BadComponents` for a number of components other than 1 and 3, `BadLength` if the entries of
/// the components do not fill the payload.
#[tactic(auto, unfolding(crate::specs::Frames::size_tests))]
fn read_sizes(code: u8, payload: &[u8]) -> Result<(u16, u16), Refusal>
    ensures obeys { Obeys result (size_tests code payload.now) }
    ensures long { OnOk result (6 ≤ length payload.now) }
    ensures width { IfOk result (λ s. s.0 ≡ width payload.now) }
    ensures height { IfOk result (λ s. s.1 ≡ height payload.now) }
    ensures across { IfOk result (λ s. (0 < s.0) × (s.0 < 65536)) }
    ensures down { IfOk result (λ s. (0 < s.1) × (s.1 < 65536)) }
    ensures few { IfOk result (λ s. s.0 * s.1 ≤ MAX_PIXELS) }
    ensures count { OnOk result ((length payload.now ≡ 9) ⊎ (length payload.now ≡ 15)) }
{
    if payload.len() < 6 {
        return Err(Refusal::BadLength(code));
    }
    if payload[0] != 8 {
        return Err(Refusal::BadPrecision);
    }
    let height = BigEndian::read_u16(&payload[1..]);
    let width = BigEndian::read_u16(&payload[3..]);
    if width == 0 || height == 0 {
        return Err(Refusal::BadSize);
    }
    if u32::from(width) * u32::from(height) > MAX_PIXELS {
        return Err(Refusal::TooManyPixels);
    }
    let count = payload[5];
    if count != 1 && count != 3 {
        return Err(Refusal::BadComponents);
    }
    if payload.len() != 6 + 3 * usize::from(count) {
        return Err(Refusal::BadLength(code));
    }
    Ok((width, height))
}

/// Returns the frame header of a payload. `code` is its marker's, SOF0 or SOF1.
///
/// # Errors
///
/// Those of `read_sizes`, then those of `check_components`; `Memory` if allocation fails.
#[tactic(auto, unfolding(crate::specs::Frames::frame_tests), using(crate::proofs::TestLaws::test_laws))]
pub fn read_frame(alloc: Global, code: u8, payload: &[u8]) -> Result<Frame, Refusal>
    ensures obeys { Obeys result (frame_tests code payload.now) }
    ensures code { IfOk result (λ f. f.code ≡ code) }
    ensures width { IfOk result (λ f. f.width ≡ width payload.now) }
    ensures height { IfOk result (λ f. f.height ≡ height payload.now) }
    ensures components { IfOk result (λ f. f.components.items ≡ components payload.now) }
    ensures accepted { IfOk result IsAccepted }
{
    let (width, height) = read_sizes(code, payload)?;
    let (_, entries) = payload.split_at(6);
    let components = read_components(alloc, entries)?;
    check_components(&components)?;
    Ok(Frame {
        code,
        width,
        height,
        components,
    })
}
