//! The destination of the MCUs of a row.

ghost use Rattle.std.specs.Prelude.{◌≡◌, ◌+◌, ◌<◌, ◌≤◌, ℕ, List, [], Bool, true, false, IsTrue, ⊤};
ghost use Rattle.jr_head.specs.HeadValue.{HeadValue};
ghost use Rattle.jr_head.specs.Geometry.{mcus_across};
ghost use Rattle.jr_scan.specs.McuReader.{HasEnded, HasRead};
ghost use Rattle.jr_piece.specs.Units.{grey_unit};
ghost use Rattle.jr_rows.specs.Rows.{HasSampleSpace};
ghost use Rattle.jr_arrival.specs.RowMcus.{ExtendsRow, TakesIntoRow};

use jr_head::Head;
use jr_rows::SampleRow;
use jr_scan::McuReader;

/// The destination of the MCUs of a row, one after the other.
pub(crate) trait McuSink {
    // whether it is for rows of an image with this header
    ghost has_space: { HeadValue → Self → Type 0 };

    // whether it keeps the samples of the MCUs
    ghost keeps: { Bool };

    // the samples that it keeps
    ghost groups: { Self → List (List ℕ) };

    /// Takes the next whole MCUs of a reader after the first `done` of the row, and returns their number.
    fn take(&mut self, head: &Head, reader: &mut McuReader<'_>, done: u32) -> u32
        requires head { reader.old.run.interval.head ≡ head.now }
        requires within { done < mcus_across head.now }
        requires space { has_space head.now self.old }
        ensures space { has_space head.now self.new }
        ensures run { reader.new.run ≡ reader.old.run }
        ensures mcu { reader.new.mcu ≡ reader.old.mcu + result }
        ensures few { done + result ≤ mcus_across head.now }
        ensures taken { HasRead reader.old [] → TakesIntoRow keeps head.now reader.new done result (groups self.old) (groups self.new) }
        ensures none { result ≡ 0 → HasEnded reader.new };

    /// Makes MCUs after the first `done` of the row grey, at most `mcus`, and returns their number.
    fn fill_grey(&mut self, head: &Head, done: u32, mcus: u32) -> u32
        requires some { 0 < mcus }
        requires within { done + mcus ≤ mcus_across head.now }
        requires space { has_space head.now self.old }
        ensures space { has_space head.now self.new }
        ensures some { 0 < result }
        ensures few { result ≤ mcus }
        ensures grey { IsTrue keeps → ExtendsRow head.now done result (λ _. grey_unit) (groups self.old) (groups self.new) };
}

impl McuSink for SampleRow {
    ghost has_space = { HasSampleSpace };

    ghost keeps = { true };

    ghost groups = { λ samples. samples.lines.groups };

    fn take(&mut self, head: &Head, reader: &mut McuReader<'_>, done: u32) -> u32 {
        self.decode_whole(head, reader, done)
    }

    fn fill_grey(&mut self, head: &Head, done: u32, mcus: u32) -> u32 {
        self.write_grey(head, done, mcus)
    }
}

/// Skips each MCU of a row.
#[derive(Drop)]
pub(crate) struct SkippedMcus {
    /// Number of MCUs of a row.
    pub across: u32,
}

impl McuSink for SkippedMcus {
    ghost has_space = { λ h skipped. skipped.across ≡ mcus_across h };

    ghost keeps = { false };

    ghost groups = { λ _. [] };

    fn take(&mut self, _head: &Head, reader: &mut McuReader<'_>, done: u32) -> u32 {
        reader.skip(self.across - done)
    }

    fn fill_grey(&mut self, _head: &Head, _done: u32, mcus: u32) -> u32 {
        mcus
    }
}
