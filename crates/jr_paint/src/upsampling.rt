//! Lines of samples brought to the image's size: each sample covers a rectangle of pixels.

ghost use Rattle.std.specs.Prelude.{◌≡◌, ℕ, ◌+◌, ◌*◌, ◌/◌, ◌<◌, ◌≤◌, length, slice_index};
ghost use Rattle.jr_head.specs.Geometry.{IsValid, components_of, horizontal_of, horizontal_max, vertical_of, vertical_max};
ghost use Rattle.jr_paint.specs.Geometry.{samples_across, samples_down};
ghost use Rattle.std.specs.Bool.{OnTrue};
ghost use Rattle.jr_paint.specs.Shades.{HalvesChroma, IsHalved, IsShared, SharesChroma};
ghost use Rattle.jr_paint.specs.Lines.{IsStretched, IsHalfStretched};

use crate::samples::Samples;
use jr_head::{Head, Kind};

/// Writes each of `near` into two entries.
fn double(near: &[u8], out: &mut [u8])
    requires { length out.old ≤ 2 * length near.now }
    ensures { (k : ℕ) → k < length out.new → slice_index out.new k ≡ slice_index near.now (k / 2) }
{
    let whole = out.len() / 2;
    for i in 0..whole {
        out[2 * i] = near[i];
        out[2 * i + 1] = near[i];
    }
    for k in 2 * whole..out.len() {
        out[k] = near[whole];
    }
}

/// Writes each of `near` into three entries.
fn triple(near: &[u8], out: &mut [u8])
    requires { length out.old ≤ 3 * length near.now }
    ensures { (k : ℕ) → k < length out.new → slice_index out.new k ≡ slice_index near.now (k / 3) }
{
    let whole = out.len() / 3;
    for i in 0..whole {
        out[3 * i] = near[i];
        out[3 * i + 1] = near[i];
        out[3 * i + 2] = near[i];
    }
    for k in 3 * whole..out.len() {
        out[k] = near[whole];
    }
}

/// Writes each of `near` into four entries.
fn quadruple(near: &[u8], out: &mut [u8])
    requires { length out.old ≤ 4 * length near.now }
    ensures { (k : ℕ) → k < length out.new → slice_index out.new k ≡ slice_index near.now (k / 4) }
{
    let whole = out.len() / 4;
    for i in 0..whole {
        out[4 * i] = near[i];
        out[4 * i + 1] = near[i];
        out[4 * i + 2] = near[i];
        out[4 * i + 3] = near[i];
    }
    for k in 4 * whole..out.len() {
        out[k] = near[whole];
    }
}

/// Writes each of `near` into `factor` entries.
fn repeat(near: &[u8], factor: u32, out: &mut [u8])
    requires some { 1 < factor }
    requires few { factor ≤ 4 }
    requires enough { length out.old ≤ factor * length near.now }
    ensures { (k : ℕ) → k < length out.new → slice_index out.new k ≡ slice_index near.now (k / factor) }
{
    match factor {
        2 => double(near, out),
        3 => triple(near, out),
        _ => quadruple(near, out),
    }
}

/// Returns the line of component c that pixels of line y take their samples from.
fn sample_line(head: &Head, c: u32, y: u32) -> u32
    requires valid { IsValid head.now }
    requires component { c < components_of head.now }
    requires down { y < head.now.height }
    ensures value { result ≡ y * vertical_of head.now c / vertical_max head.now }
    ensures inside { result < samples_down head.now c }
{
    y * head.vertical(c) / head.vertical_max()
}

/// Returns the number of pixels of a line that each sample of component c covers.
fn pixels_per_sample(head: &Head, c: u32) -> u32
    requires valid { IsValid head.now }
    requires component { c < components_of head.now }
    ensures value { result ≡ horizontal_max head.now / horizontal_of head.now c }
    ensures some { 0 < result }
    ensures few { result ≤ 4 }
    ensures whole { horizontal_max head.now ≡ horizontal_of head.now c * result }
{
    head.horizontal_max() / head.horizontal(c)
}

/// Returns the samples of component c that the pixels of line y use, one for each: a reference, or a copy in `out`.
/// `near` is the space for them before they are repeated.
pub(crate) fn upsample<'a, S: Samples>(
    samples: &'a S,
    c: u32,
    y: u32,
    near: &mut [u8],
    out: &'a mut [u8],
) -> &'a [u8]
    requires component { c < components_of (S.head_of samples.now) }
    requires down { y < (S.head_of samples.now).height }
    requires whole { length out.old ≡ (S.head_of samples.now).width }
    requires space { length out.old ≤ length near.old }
    ensures long { length result.now ≡ (S.head_of samples.now).width }
    ensures samples { IsStretched (S.head_of samples.now) (S.shown samples.now) c y result.now }
{
    let head = samples.head();
    let line = sample_line(head, c, y);
    let factor = pixels_per_sample(head, c);
    let count = out.len().div_ceil(factor as usize);
    if factor == 1 {
        return samples.line(c, line, count, out);
    }
    let once = samples.line(c, line, count, near);
    repeat(once, factor, out);
    out
}

/// Returns the number of samples of each chrominance for the pixels of a line, two each.
fn half_count(head: &Head) -> usize
    requires valid { IsValid head.now }
    requires halves { HalvesChroma head.now }
    ensures enough { head.now.width ≤ 2 * result }
    ensures few { result ≤ head.now.width }
    ensures inside_b { result ≤ samples_across head.now 1 }
    ensures inside_c { result ≤ samples_across head.now 2 }
{
    (head.width() as usize).div_ceil(2)
}

/// Returns the samples of both chrominances that the pixels of line y use, a sample for two pixels: references, or
/// copies in `cb` and `cr`.
pub(crate) fn read_halves<'a, S: Samples>(
    samples: &'a S,
    y: u32,
    cb: &'a mut [u8],
    cr: &'a mut [u8],
) -> (&'a [u8], &'a [u8])
    requires halves { HalvesChroma (S.head_of samples.now) }
    requires down { y < (S.head_of samples.now).height }
    requires space_b { (S.head_of samples.now).width ≤ length cb.old }
    requires space_c { (S.head_of samples.now).width ≤ length cr.old }
    ensures enough { (S.head_of samples.now).width ≤ 2 * length result.0.now }
    ensures same { length result.1.now ≡ length result.0.now }
    ensures second { IsHalfStretched (S.head_of samples.now) (S.shown samples.now) 1 y result.0.now }
    ensures third { IsHalfStretched (S.head_of samples.now) (S.shown samples.now) 2 y result.1.now }
{
    let head = samples.head();
    let count = half_count(head);
    let cb = samples.line(1, sample_line(head, 1, y), count, cb);
    let cr = samples.line(2, sample_line(head, 2, y), count, cr);
    (cb, cr)
}

/// Returns whether a sample of component c covers two pixels of a line.
fn is_halved(head: &Head, c: u32) -> bool
    requires valid { IsValid head.now }
    requires component { c < components_of head.now }
    ensures { OnTrue result (IsHalved head.now c) }
{
    pixels_per_sample(head, c) == 2
}

/// Returns whether line y and the next take their samples of component c from one line.
fn is_shared(head: &Head, c: u32, y: u32) -> bool
    requires valid { IsValid head.now }
    requires component { c < components_of head.now }
    requires down { y + 1 < head.now.height }
    ensures { OnTrue result (IsShared head.now c y) }
{
    sample_line(head, c, y + 1) == sample_line(head, c, y)
}

/// Returns whether a sample of both chrominances covers two pixels of a line.
pub(crate) fn halves_chroma(head: &Head) -> bool
    requires { IsValid head.now }
    ensures { OnTrue result (HalvesChroma head.now) }
{
    match head.kind() {
        Kind::Ycc => is_halved(head, 1) && is_halved(head, 2),
        Kind::Grey | Kind::Rgb => false,
    }
}

/// Returns whether line y has a next one that uses the same samples of both chrominances, each for two pixels of a
/// line.
pub(crate) fn shares_chroma(head: &Head, y: u32) -> bool
    requires valid { IsValid head.now }
    requires down { y < head.now.height }
    ensures { OnTrue result (SharesChroma head.now y) }
{
    halves_chroma(head) && y + 1 < head.height() && is_shared(head, 1, y) && is_shared(head, 2, y)
}
