//! The samples of a row of MCUs as lines of its components.

ghost use Rattle.std.specs.Prelude.{◌≡◌, ◌≢◌, ℕ, ◌+◌, ◌*◌, ◌/◌, ◌%◌, ◌<◌, ◌≤◌, ◌^◌, [], length, slice_index, slice_index_or, None, IfOk};
ghost use Rattle.jr_head.specs.Geometry.{IsValid, blocks_before, blocks_of, components_of, mcus_across};
ghost use Rattle.jr_piece.specs.Outcome.{unit_of};
ghost use Rattle.jr_rows.specs.Bands.{unit_shown_of};
ghost use Rattle.jr_rows.specs.Groups.{all_lines, group_of, groups_across, lines_before_component, unit_in, units_in};
ghost use Rattle.jr_rows.specs.RowLines.{AreStarts, HasGroups, HasLines, IsStartOf};

use crate::blank::blank_unit;
use crate::shape::shape_of;
use jr_base::{Coefficients, Memory};
use jr_head::Head;
use jr_paint::place;
use jr_piece::{UnitSink, transform_blocks};
use std::alloc::Global;
use std::marker::Model;

/// The position of data unit j of MCU 0 in a row's lines, and the step to the next MCU.
#[derive(Clone, Copy)]
pub struct UnitStart {
    /// The group of the first row of samples of the unit in MCU 0.
    pub first: usize,
    /// Number of groups from an MCU's unit to the next MCU's.
    pub step: usize,
}

/// The samples of a row of MCUs: for each component its lines from the top, eight samples a group, and a line after the
/// other. Data units are stored in it, and the image's lines are painted from it.
#[derive(Drop)]
pub struct RowLines {
    groups: Vec<[u8; 8]>,
    starts: Vec<UnitStart>,
    /// Number of groups of a line.
    across: usize,
}

impl Model for RowLines {
    ghost use Rattle.jr_rows.specs.RowLinesValue.{RowLinesValue};

    ghost Value = { RowLinesValue };

    ghost view = { λ r. record { groups = r.groups.items; starts = r.starts.items; across = r.across } };
}

/// Returns a row of samples of a data unit.
#[inline(always)]
fn row_of(unit: &[u8; 64], row: usize) -> [u8; 8]
    requires { row < 8 }
    ensures { (k : ℕ) → k < 8 → slice_index result k ≡ slice_index unit.now (8 * row + k) }
{
    let mut samples = [0; 8];
    samples.copy_from_slice(&unit[8 * row..8 * row + 8]);
    samples
}

/// Stores the rows of samples of a data unit in groups of lines below one another.
#[inline(always)]
fn store_rows(groups: &mut [[u8; 8]], at: usize, across: usize, unit: &[u8; 64])
    requires some { 0 < across }
    requires space { at + 7 * across < length groups.old }
    ensures rows { (row k : ℕ) → row < 8 → k < 8 → slice_index (slice_index_or groups.new (at + row * across) []) k ≡ slice_index unit.now (8 * row + k) }
    ensures others { (n : ℕ) → ((row : ℕ) → row < 8 → n ≢ at + row * across) → slice_index_or groups.new n [] ≡ slice_index_or groups.old n [] }
{
    for row in 0..8 {
        groups[at + row * across] = row_of(unit, row);
    }
}

/// Stores data unit j of an MCU.
#[inline(always)]
fn store_unit(
    head: &Head,
    groups: &mut [[u8; 8]],
    across: usize,
    starts: &[UnitStart],
    mcu: usize,
    j: usize,
    unit: &[u8; 64],
)
    requires space { HasGroups head.now across groups.old }
    requires starts { AreStarts head.now starts.now }
    requires mcu { mcu < mcus_across head.now }
    requires unit { j < blocks_of head.now }
    ensures here { unit_in head.now groups.new mcu j ≡ unit.now }
    ensures others { (m i : ℕ) → m < mcus_across head.now → i < blocks_of head.now → (m ≡ mcu → i ≡ j → ⊥) → unit_in head.now groups.new m i ≡ unit_in head.now groups.old m i }
{
    head.assert_invariant();
    let start = starts[j];
    store_rows(groups, start.first + mcu * start.step, across, unit);
}

/// Returns the number of groups of a line.
pub(crate) fn groups_across(head: &Head) -> u32
    requires { IsValid head.now }
    ensures value { result ≡ groups_across head.now }
    ensures few { result < 2 ^ 18 }
{
    shape_of(head).across * head.horizontal_max()
}

/// Makes an MCU black.
fn blank_mcu(head: &Head, groups: &mut [[u8; 8]], across: usize, starts: &[UnitStart], mcu: usize)
    requires space { HasGroups head.now across groups.old }
    requires starts { AreStarts head.now starts.now }
    requires mcu { mcu < mcus_across head.now }
    ensures here { (j : ℕ) → j < blocks_of head.now → unit_in head.now groups.new mcu j ≡ unit_shown_of head.now j None 0 }
    ensures others { (m j : ℕ) → m < mcus_across head.now → j < blocks_of head.now → m ≢ mcu → unit_in head.now groups.new m j ≡ unit_in head.now groups.old m j }
{
    for j in 0..head.order().len() {
        store_unit(head, groups, across, starts, mcu, j, &blank_unit(head, j));
    }
}

/// Makes each MCU starting at one of them black.
fn blank_mcus(
    head: &Head,
    groups: &mut [[u8; 8]],
    across: usize,
    starts: &[UnitStart],
    first: usize,
)
    requires space { HasGroups head.now across groups.old }
    requires starts { AreStarts head.now starts.now }
    ensures here { (m j : ℕ) → first ≤ m → m < mcus_across head.now → j < blocks_of head.now → unit_in head.now groups.new m j ≡ unit_shown_of head.now j None 0 }
    ensures kept { (m j : ℕ) → m < first → m < mcus_across head.now → j < blocks_of head.now → unit_in head.now groups.new m j ≡ unit_in head.now groups.old m j }
{
    let mcus = shape_of(head).across as usize;
    for mcu in first..mcus {
        blank_mcu(head, groups, across, starts, mcu);
    }
}

/// Returns the number of lines of the components before c in a row of MCUs.
pub(crate) fn lines_before_component(head: &Head, c: u32) -> u32
    requires valid { IsValid head.now }
    requires component { c ≤ components_of head.now }
    ensures value { result ≡ lines_before_component head.now c }
    ensures few { result ≤ 32 * c }
{
    let mut lines = 0;
    for k in 0..c {
        lines += 8 * head.vertical(k);
    }
    lines
}

/// Returns the number of data units of an MCU before component c.
fn units_before(head: &Head, c: u32) -> u32
    requires valid { IsValid head.now }
    requires component { c < components_of head.now }
    ensures value { result ≡ blocks_before head.now c }
{
    place(head, c, 0, 0).block
}

/// Returns where data unit j of an MCU is, if a line has `across` groups.
fn start_of(head: &Head, across: u32, j: u32) -> UnitStart
    requires valid { IsValid head.now }
    requires across { across ≡ groups_across head.now }
    requires few { across < 2 ^ 18 }
    requires unit { j < blocks_of head.now }
    ensures { IsStartOf head.now j result }
{
    let c = u32::from(head.order()[j as usize]);
    let step = head.horizontal(c);
    let unit = j - units_before(head, c);
    let line = lines_before_component(head, c) + 8 * (unit / step);
    UnitStart {
        first: (line * across + unit % step) as usize,
        step: step as usize,
    }
}

impl RowLines {
    /// Allocates memory for a row of an image with this header.
    pub fn open(alloc: Global, head: &Head) -> Result<RowLines, Memory>
        ensures { IfOk result (HasLines head.now) }
    {
        head.assert_invariant();
        let count = head.order().len();
        let across = groups_across(head);
        let lines = lines_before_component(head, head.components());
        let mut starts = Vec::new(alloc);
        for j in 0..count {
            starts.push(start_of(head, across, j as u32))?;
        }
        Ok(RowLines {
            groups: vec![in alloc; [0; 8]; lines as usize * across as usize]?,
            starts,
            across: across as usize,
        })
    }

    /// Returns the groups of eight samples.
    pub(crate) fn groups(&self) -> &[[u8; 8]]
        ensures { result.now ≡ self.now.groups }
    {
        self.groups.as_slice()
    }

    /// Transforms the blocks of the first `coded` MCUs of a row; the others are black.
    pub fn decode(&mut self, head: &Head, coded: u32, blocks: &[Coefficients])
        requires space { HasLines head.now self.old }
        requires few { coded ≤ mcus_across head.now }
        requires blocks { coded * blocks_of head.now ≤ length blocks.now }
        ensures space { HasLines head.now self.new }
        ensures decoded { (k : ℕ) → k < coded * blocks_of head.now → slice_index_or (units_in head.now self.new.groups) k [] ≡ unit_of head.now blocks.now k }
        ensures blank { (k : ℕ) → coded * blocks_of head.now ≤ k → k < mcus_across head.now * blocks_of head.now → slice_index_or (units_in head.now self.new.groups) k [] ≡ unit_shown_of head.now (k % blocks_of head.now) None 0 }
    {
        let count = coded as usize * head.order().len();
        transform_blocks(head, 0, &blocks[..count], self);
        self.fill_blank(head, coded);
    }

    /// Makes the MCUs of the row starting at `first` black; those before are kept.
    pub fn fill_blank(&mut self, head: &Head, first: u32)
        requires space { HasLines head.now self.old }
        ensures space { HasLines head.now self.new }
        ensures kept { (k : ℕ) → k < first * blocks_of head.now → k < mcus_across head.now * blocks_of head.now → slice_index_or (units_in head.now self.new.groups) k [] ≡ slice_index_or (units_in head.now self.old.groups) k [] }
        ensures blank { (k : ℕ) → first * blocks_of head.now ≤ k → k < mcus_across head.now * blocks_of head.now → slice_index_or (units_in head.now self.new.groups) k [] ≡ unit_shown_of head.now (k % blocks_of head.now) None 0 }
    {
        // By its contract an MCU has a data unit.
        let _some = head.order().len();
        let groups = &mut self.groups;
        blank_mcus(head, groups, self.across, &self.starts, first as usize);
    }
}

impl UnitSink for RowLines {
    ghost has_space = { HasLines };

    ghost units = { λ h lines. units_in h lines.groups };

    #[inline(always)]
    fn store(&mut self, head: &Head, mcu: usize, j: usize, samples: &[u8; 64]) {
        let groups = &mut self.groups;
        store_unit(head, groups, self.across, &self.starts, mcu, j, samples);
    }
}
