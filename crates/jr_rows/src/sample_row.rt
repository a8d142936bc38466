//! A row of MCUs that one thread decodes or transforms, and paints.

ghost use Rattle.std.specs.Prelude.{◌≡◌, ◌+◌, ◌*◌, ◌<◌, ◌≤◌, ℕ, [], length, slice_index_or, IfOk};
ghost use Rattle.jr_head.specs.Geometry.{blocks_of, mcus_across, mcus_down};
ghost use Rattle.jr_paint.specs.Lines.{line_size, next_lines_of};
ghost use Rattle.jr_scan.specs.McuReader.{HasEnded};
ghost use Rattle.jr_piece.specs.Units.{grey_unit};
ghost use Rattle.jr_picture.specs.DecodedScan.{DecodedScan};
ghost use Rattle.jr_rows.specs.Bands.{ShowsMcus, samples_in};
ghost use Rattle.jr_rows.specs.Groups.{units_in};
ghost use Rattle.jr_rows.specs.Rows.{AreRead, DecodesFirst, HasSampleSpace, PaintsRowLines, line_count};
ghost use Rattle.jr_rows.specs.WholeMcus.{DecodesMcus};

use crate::band::Band;
use crate::painting::paint_row;
use crate::row_lines::RowLines;
use crate::shape::{coded_of_row, mcus_at_once};
use crate::whole_mcus::{decode_whole, write_grey};
use jr_base::{Coefficients, Memory};
use jr_head::Head;
use jr_paint::{line_space, paint_lines};
use jr_scan::{McuReader, Scan};
use std::alloc::Global;
use std::marker::Model;

/// Memory for the samples of a row of MCUs, used again for row after row, and for the blocks of a few MCUs, which are
/// transformed while they are near, and for the samples that painting repeats.
#[derive(Drop)]
pub struct SampleRow {
    pub(crate) blocks: Vec<Coefficients>,
    pub(crate) lines: RowLines,
    /// For painting.
    space: Vec<u8>,
}

impl Model for SampleRow {
    ghost use Rattle.std.specs.Prelude.{length};
    ghost use Rattle.jr_rows.specs.RowsValue.{SampleRowValue};

    ghost Value = { SampleRowValue };

    ghost view = { λ r. record { blocks = r.blocks.items; lines = r.lines; space = length r.space.items } };
}

impl SampleRow {
    /// Allocates memory for a row of an image with this header.
    pub fn open(alloc: Global, head: &Head) -> Result<SampleRow, Memory>
        ensures { IfOk result (HasSampleSpace head.now) }
    {
        let per_mcu = head.order().len();
        let blocks = vec![in alloc; Coefficients::zeros(); mcus_at_once(head) as usize * per_mcu]?;
        let lines = RowLines::open(alloc, head)?;
        let space = vec![in alloc; 0; line_space(head)]?;
        Ok(SampleRow {
            blocks,
            lines,
            space,
        })
    }

    /// Decodes the next whole MCUs of an interval after the first `done` of a row: as many as the reader has, as are
    /// left of the row and as are read at once. Returns their number.
    pub fn decode_whole(&mut self, head: &Head, reader: &mut McuReader<'_>, done: u32) -> u32
        requires head { reader.old.run.interval.head ≡ head.now }
        requires within { done < mcus_across head.now }
        requires space { HasSampleSpace head.now self.old }
        ensures space { HasSampleSpace head.now self.new }
        ensures run { reader.new.run ≡ reader.old.run }
        ensures mcu { reader.new.mcu ≡ reader.old.mcu + result }
        ensures few { done + result ≤ mcus_across head.now }
        ensures kept { (k : ℕ) → k < done * blocks_of head.now → slice_index_or (units_in head.now self.new.lines.groups) k [] ≡ slice_index_or (units_in head.now self.old.lines.groups) k [] }
        ensures decoded { DecodesMcus reader.old reader.new done result (units_in head.now self.new.lines.groups) }
        ensures none { result ≡ 0 → HasEnded reader.new }
    {
        decode_whole(head, reader, done, &mut self.blocks, &mut self.lines)
    }

    /// Makes MCUs of a row after the first `done` grey: as many as are asked for, and at most those that are decoded at
    /// once. Returns their number.
    pub fn write_grey(&mut self, head: &Head, done: u32, mcus: u32) -> u32
        requires some { 0 < mcus }
        requires within { done + mcus ≤ mcus_across head.now }
        requires space { HasSampleSpace head.now self.old }
        ensures space { HasSampleSpace head.now self.new }
        ensures some { 0 < result }
        ensures few { result ≤ mcus }
        ensures kept { (k : ℕ) → k < done * blocks_of head.now → slice_index_or (units_in head.now self.new.lines.groups) k [] ≡ slice_index_or (units_in head.now self.old.lines.groups) k [] }
        ensures grey { (k : ℕ) → k < result * blocks_of head.now → slice_index_or (units_in head.now self.new.lines.groups) (done * blocks_of head.now + k) [] ≡ grey_unit }
    {
        write_grey(head, done, mcus, &mut self.blocks, &mut self.lines)
    }

    /// Transforms the decoded MCUs of a row whose blocks are read; the others are blank.
    pub fn transform(&mut self, scan: &Scan, limit: u32, row: u32, blocks: &[Coefficients])
        requires row { row < mcus_down scan.now.head }
        requires space { HasSampleSpace scan.now.head self.old }
        requires long { length blocks.now ≡ mcus_across scan.now.head * blocks_of scan.now.head }
        requires read { AreRead scan.now limit row blocks.now }
        ensures space { HasSampleSpace scan.now.head self.new }
        ensures units { (b : DecodedScan) → DecodesFirst scan.now limit b → ShowsMcus b (row * mcus_across scan.now.head) (units_in scan.now.head self.new.lines.groups) }
    {
        let head = scan.head();
        // By its contract an MCU has a data unit.
        let _some = head.order().len();
        let coded = coded_of_row(scan, limit, row);
        self.lines.decode(head, coded, blocks);
    }

    /// Paints lines of the image of which each row of MCUs has the samples of the row that is decoded.
    pub fn paint_some(&mut self, head: &Head, y: u32, count: u32, pixels: &mut [u8])
        requires space { HasSampleSpace head.now self.old }
        requires inside { y + count ≤ head.now.height }
        requires pixels { length pixels.old ≡ count * line_size head.now }
        ensures space { HasSampleSpace head.now self.new }
        ensures kept { self.new.lines ≡ self.old.lines }
        ensures lines { pixels.new ≡ next_lines_of head.now (samples_in (record { head = head.now; groups = self.old.lines.groups })) y count }
    {
        let band = Band::of(head, &self.lines);
        paint_lines(&band, y, count, &mut self.space, pixels);
    }

    /// Paints the lines of the row of MCUs that is decoded.
    pub fn paint_row(&mut self, head: &Head, row: u32, pixels: &mut [u8])
        requires row { row < mcus_down head.now }
        requires space { HasSampleSpace head.now self.old }
        requires pixels { length pixels.old ≡ line_count head.now row * line_size head.now }
        ensures space { HasSampleSpace head.now self.new }
        ensures lines { PaintsRowLines head.now row self.old.lines.groups pixels.new }
    {
        paint_row(head, &self.lines, row, &mut self.space, pixels);
    }
}
