//! A band: one row of MCUs, by its lines of samples.

ghost use Rattle.std.specs.Prelude.{◌≡◌, ℕ, ◌+◌, ◌*◌, ◌/◌, ◌%◌, ◌<◌, ◌≤◌, [], length, slice_index, slice_index_or};
ghost use Rattle.jr_head.specs.Geometry.{IsValid, components_of, vertical_of};
ghost use Rattle.jr_paint.specs.Geometry.{samples_down};
ghost use Rattle.jr_rows.specs.Bands.{sample_in_groups, samples_in};
ghost use Rattle.jr_rows.specs.Groups.{groups_across, lines_before_component};
ghost use Rattle.jr_rows.specs.RowLines.{HasGroups};

use crate::row_lines::{RowLines, groups_across, lines_before_component};
use jr_head::Head;
use jr_paint::Samples;
use std::marker::Model;

/// The lines of one row of MCUs, as the image of which each row of MCUs has these.
#[derive(Drop)]
pub(crate) struct Band<'a> {
    head: &'a Head,
    lines: &'a RowLines,
}

impl<'a> Model for Band<'a> {
    ghost use Rattle.jr_head.specs.Geometry.{IsValid};
    ghost use Rattle.jr_rows.specs.Groups.{groups_across};
    ghost use Rattle.jr_rows.specs.RowLines.{HasGroups};
    ghost use Rattle.jr_rows.specs.BandValue.{BandValue};

    ghost Value = { BandValue };

    ghost view = { λ b. record { head = b.head.now; groups = b.lines.now.groups } };

    ghost invariant = { λ b. IsValid b.head.now × HasGroups b.head.now (groups_across b.head.now) b.lines.now.groups };
}

/// Returns the samples of groups of eight, one after the other.
fn samples_of(groups: &[[u8; 8]]) -> &[u8]
    ensures long { length result.now ≡ 8 * length groups.now }
    ensures samples { (k : ℕ) → k < 8 * length groups.now → slice_index result.now k ≡ sample_in_groups groups.now k }
{
    groups.as_flattened()
}

/// Returns a sample of groups of eight.
fn sample_at(groups: &[[u8; 8]], at: usize) -> u8
    requires { at < 8 * length groups.now }
    ensures { result ≡ sample_in_groups groups.now at }
{
    groups[at / 8][at % 8]
}

impl<'a> Band<'a> {
    /// Returns a row of MCUs of an image with this header.
    pub(crate) fn of(head: &'a Head, lines: &'a RowLines) -> Band<'a>
        requires { HasGroups head.now (groups_across head.now) lines.now.groups }
        ensures value { result ≡ record { head = head.now; groups = lines.now.groups } }
        ensures valid { IsValid head.now }
    {
        head.assert_invariant();
        Band { head, lines }
    }

    /// Returns the index in the groups of the first sample of line y of component c.
    fn start(&self, c: u32, y: u32) -> usize
        requires component { c < components_of self.now.head }
        requires line { y < samples_down self.now.head c }
        ensures { result ≡ 8 * ((lines_before_component self.now.head c + y % (8 * vertical_of self.now.head c)) * groups_across self.now.head) }
    {
        let line = lines_before_component(self.head, c) + y % (8 * self.head.vertical(c));
        8 * (line * groups_across(self.head)) as usize
    }
}

impl Samples for Band<'_> {
    ghost head_of = { λ b. b.head };

    ghost shown = { samples_in };

    fn head(&self) -> &Head {
        self.head
    }

    fn sample(&self, c: u32, x: u32, y: u32) -> u8 {
        let groups = self.lines.groups();
        sample_at(groups, self.start(c, y) + x as usize)
    }

    fn line<'a>(&'a self, c: u32, y: u32, count: usize, _space: &'a mut [u8]) -> &'a [u8] {
        if count == 0 {
            return &[];
        }
        let start = self.start(c, y);
        &samples_of(self.lines.groups())[start..start + count]
    }
}
