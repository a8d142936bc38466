//! Lines of samples of images that are stored by data units.

ghost use Rattle.std.specs.Prelude.{◌≡◌, ℕ, ◌+◌, ◌*◌, ◌/◌, ◌%◌, ◌<◌, ◌≤◌, length, slice_index};
ghost use Rattle.jr_head.specs.Geometry.{IsValid, components_of, blocks_of, mcus_of};
ghost use Rattle.jr_head.specs.HeadValue.{HeadValue};
ghost use Rattle.jr_paint.specs.Geometry.{samples_across, samples_down, spot_of};
ghost use Rattle.jr_paint.specs.Units.{sample_by_units, sample_in_unit};

use crate::geometry::{Spot, place};
use jr_head::Head;
use std::simd::prelude::*;

/// What is shown of a data unit.
#[derive(Clone, Copy)]
pub enum Unit<'a> {
    /// One value for all its samples.
    Even(u8),
    /// Its samples, `8 row + column`.
    Of(&'a [u8; 64]),
}

/// An image by its data units.
pub trait Units {
    // the header of the image's file
    ghost head_of: { Self → HeadValue };

    // the sample by component, MCU, data unit in the MCU and position in the data unit
    ghost shown_in: { Self → ℕ → ℕ → ℕ → ℕ → ℕ };

    /// Returns what is shown of data unit `block` of an MCU, one of component c.
    fn unit(&self, c: u32, mcu: u32, block: u32) -> Unit<'_>
        requires component { c < components_of (head_of self.now) }
        requires mcu { mcu < mcus_of (head_of self.now) }
        requires block { block < blocks_of (head_of self.now) }
        ensures { (at : ℕ) → sample_in_unit result at ≡ shown_in self.now c mcu block at };
}

/// Copies samples; a whole row of a data unit by one load and one store.
fn copy(from: &[u8], out: &mut [u8])
    requires { length from.now ≡ length out.old }
    ensures { out.new ≡ from.now }
{
    if out.len() == 8 {
        u8x8::from_slice(from).copy_to_slice(out);
    } else {
        out.copy_from_slice(from);
    }
}

/// Copies the samples of a data unit starting at one of them.
fn store(unit: &Unit<'_>, from: usize, out: &mut [u8])
    requires { from + length out.old ≤ 64 }
    ensures { (k : ℕ) → k < length out.new → slice_index out.new k ≡ sample_in_unit unit.now (from + k) }
{
    match unit {
        Unit::Even(value) => out.fill(*value),
        Unit::Of(samples) => {
            let samples = &samples[..];
            copy(&samples[from..from + out.len()], out);
        }
    }
}

/// Returns the sample of a data unit at a position.
fn sample_at(unit: &Unit<'_>, at: usize) -> u8
    requires { at < 64 }
    ensures { result ≡ sample_in_unit unit.now at }
{
    match unit {
        Unit::Even(value) => *value,
        Unit::Of(samples) => samples[at],
    }
}

/// Returns the MCU of a data unit of a line of a component, and the unit's column in it.
fn in_mcu(number: u32, across: u32) -> (u32, u32)
    requires some { 0 < across }
    requires few { across ≤ 4 }
    ensures mcu { result.0 ≡ number / across }
    ensures column { result.1 ≡ number % across }
{
    match across {
        1 => (number, 0),
        2 => (number / 2, number % 2),
        3 => (number / 3, number % 3),
        _ => (number / 4, number % 4),
    }
}

/// Returns the sample in column x and line y of component c.
pub fn sample_of_units<U: Units>(head: &Head, units: &U, c: u32, x: u32, y: u32) -> u8
    requires head { head.now ≡ U.head_of units.now }
    requires component { c < components_of head.now }
    requires column { x < samples_across head.now c }
    requires line { y < samples_down head.now c }
    ensures { result ≡ sample_by_units head.now (U.shown_in units.now) c x y }
{
    let spot = place(head, c, x, y);
    let unit = units.unit(c, spot.mcu, spot.block);
    sample_at(&unit, (8 * spot.row + spot.col) as usize)
}

/// Fills the samples of data unit n of a line of component c, or the first ones of them. `start` is the spot of the line's
/// column 0.
fn fill_unit<U: Units>(head: &Head, units: &U, c: u32, y: u32, start: Spot, n: u32, out: &mut [u8])
    requires valid { IsValid head.now }
    requires head { head.now ≡ U.head_of units.now }
    requires component { c < components_of head.now }
    requires line { y < samples_down head.now c }
    requires start { start ≡ spot_of head.now c 0 y }
    requires some { 0 < length out.old }
    requires few { length out.old ≤ 8 }
    requires across { 8 * n + length out.old ≤ samples_across head.now c }
    ensures { (k : ℕ) → k < length out.new → slice_index out.new k ≡ sample_by_units head.now (U.shown_in units.now) c (8 * n + k) y }
{
    // By its contract an image has few enough MCUs that their numbers fit.
    let _mcus = head.mcus();
    let (column, part) = in_mcu(n, head.horizontal(c));
    let unit = units.unit(c, start.mcu + column, start.block + part);
    store(&unit, 8 * start.row as usize, out);
}

/// Fills `out` with a line of samples of component c, starting at column 0: those of a data unit after the other.
pub fn fill_line<U: Units>(head: &Head, units: &U, c: u32, y: u32, out: &mut [u8])
    requires head { head.now ≡ U.head_of units.now }
    requires component { c < components_of head.now }
    requires across { length out.old ≤ samples_across head.now c }
    requires line { y < samples_down head.now c }
    ensures { (k : ℕ) → k < length out.new → slice_index out.new k ≡ sample_by_units head.now (U.shown_in units.now) c k y }
{
    if out.is_empty() {
        return;
    }
    head.assert_invariant();
    let start = place(head, c, 0, y);
    let whole = out.len() / 8;
    for n in 0..whole {
        let unit = &mut out[8 * n..8 * n + 8];
        fill_unit(head, units, c, y, start, n as u32, unit);
    }
    if 8 * whole < out.len() {
        let unit = &mut out[8 * whole..];
        fill_unit(head, units, c, y, start, whole as u32, unit);
    }
}
