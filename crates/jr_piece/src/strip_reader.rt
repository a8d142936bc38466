//! An interval, a strip at a time.

ghost use Rattle.std.specs.Prelude.{◌≡◌, ◌≤◌, ◌<◌, ◌+◌, ℕ, ℤ, List, Option, None, Some, false, IsTrue, IfOk, IfErr, IfSome, IfNone, OnOk, OnSome};
ghost use Rattle.std.specs.Arc.{arc_value};
ghost use Rattle.jr_scan.specs.declared.place.RunEnd.TheVariants.{AllRead};
ghost use Rattle.jr_scan.specs.Speculations.{AreSpeculationsOf};
ghost use Rattle.jr_scan.specs.Mcus.{Decodes, Front, HasNoDecoding, HasLongestFront};
ghost use Rattle.jr_scan.specs.Run.{start_of_interval, IsRun, run_from};
ghost use Rattle.jr_scan.specs.Cursors.{IsPlaceAfter, TakesMcus};

use crate::placed_strip::PlacedStrip;
use crate::strip::CodedStrip;
use jr_base::{Coefficients, Memory};
use jr_scan::{Cursor, Interval, Place, Speculations};
use std::alloc::Global;
use std::marker::Model;
use std::sync::Arc;

/// Returns the number of MCUs, at most `mcus`, that the bits after a position can code: two bits or more a data unit.
fn most_mcus(interval: &Interval, from: Place, mcus: u32) -> u32
    ensures claimed { result ≤ mcus }
    ensures enough { (k : ℕ) (zs : List (List ℤ)) (to : Place) → IsRun (run_from interval.now from k) zs to AllRead → k ≤ mcus → k ≤ result }
{
    let bits = (8 * interval.bytes().len() as u64).saturating_sub(from.bit);
    let coded = bits / (2 * interval.head().order().len() as u64);
    coded.min(u64::from(mcus)) as u32
}

/// Reads the next whole MCUs of an interval, at most `most`, over the blocks that are there. Returns their number, and
/// their blocks.
fn read_run(
    blocks: Vec<Coefficients>,
    interval: &Interval,
    cursor: &mut Cursor,
    from: Place,
    most: u32,
) -> Result<(u32, Vec<Coefficients>), Memory>
    requires at { IsPlaceAfter interval.now cursor.old.mcu cursor.old.place }
    requires from { cursor.old.place ≡ Some from }
    ensures few { IfOk result (λ r. r.0 ≤ most) }
    ensures mcu { IfOk result (λ r. cursor.new.mcu ≡ cursor.old.mcu + r.0) }
    ensures at { OnOk result (IsPlaceAfter interval.now cursor.new.mcu cursor.new.place) }
    ensures taken { IfOk result (λ r. TakesMcus interval.now cursor.old.mcu from most r.0 r.1.items cursor.new.place) }
{
    let left = most.min(interval.mcus() - cursor.mcu);
    let coded = most_mcus(interval, from, left);
    let per_mcu = interval.head().order().len();
    let mut blocks = blocks;
    blocks.resize(coded as usize * per_mcu, Coefficients::zeros())?;
    let mcus = cursor.take(interval.as_ref(), None, coded, true, blocks.as_mut_slice());
    blocks.truncate(mcus as usize * per_mcu);
    Ok((mcus, blocks))
}

/// Reads the whole MCUs of an interval, a strip at a time.
#[derive(Drop)]
pub struct StripReader {
    interval: Arc<Interval>,
    cursor: Cursor,
    /// Memory of a strip that is transformed, to be used again.
    spare: Option<Vec<Coefficients>>,
}

impl Model for StripReader {
    ghost use Rattle.std.specs.Arc.{arc_value};
    ghost use Rattle.jr_scan.specs.Cursors.{ReadingValue};
    ghost use Rattle.jr_scan.specs.Cursors.{IsReading};

    ghost Value = { ReadingValue };

    ghost view = { λ r. record { interval = arc_value r.interval; first = r.cursor.mcu; next = r.cursor.place } };

    ghost invariant = { λ r. IsReading (record { interval = arc_value r.interval; first = r.cursor.mcu; next = r.cursor.place }) };
}

impl StripReader {
    /// Returns a reader that has read nothing of an interval.
    pub fn over(interval: Arc<Interval>) -> StripReader
        ensures { result ≡ record { interval = arc_value interval; first = 0; next = Some start_of_interval } }
    {
        let cursor = Cursor::at_start(interval.number());
        StripReader {
            interval,
            cursor,
            spare: None,
        }
    }

    /// Gives the reader blocks whose memory the next strip reuses.
    pub fn lend(&mut self, blocks: Vec<Coefficients>)
        ensures { self.new ≡ self.old }
    {
        self.spare = Some(blocks);
    }

    /// Returns the number of its interval.
    pub fn number(&self) -> u32
        ensures { result ≡ self.now.interval.number }
    {
        self.interval.number()
    }

    /// Returns the number of MCUs that are read.
    pub fn first(&self) -> u32
        ensures { result ≡ self.now.first }
    {
        self.cursor.mcu
    }

    /// Returns the bit at which the next MCU starts; 0 if none follows.
    pub fn bit(&self) -> u64
        ensures { IfSome self.now.next (λ p. result ≡ p.bit) }
    {
        match self.cursor.place {
            Some(place) => place.bit,
            None => 0,
        }
    }

    /// Reads the next whole MCUs, as many as are asked for or as follow. `None` if no further one follows; then, and on
    /// `Err`, the reader is unchanged.
    pub fn next(&mut self, alloc: Global, most: u32) -> Result<Option<CodedStrip>, Memory>
        ensures interval { self.new.interval ≡ self.old.interval }
        ensures of { IfOk result (λ o. IfSome o (λ s. s.interval ≡ self.old.interval)) }
        ensures first { IfOk result (λ o. IfSome o (λ s. s.first ≡ self.old.first)) }
        ensures some { IfOk result (λ o. IfSome o (λ s. 0 < s.mcus)) }
        ensures few { IfOk result (λ o. IfSome o (λ s. s.mcus ≤ most)) }
        ensures on { IfOk result (λ o. IfSome o (λ s. self.new.first ≡ s.first + s.mcus)) }
        ensures within { IfOk result (λ o. OnSome o (self.new.first ≤ self.old.interval.mcus)) }
        ensures last { IfOk result (λ o. IfSome o (λ s. s.mcus < most → HasLongestFront self.new.interval self.new.first)) }
        ensures none { IfOk result (λ o. IfNone o (0 < most → HasLongestFront self.old.interval self.old.first)) }
        ensures same { IfOk result (λ o. IfNone o (self.new ≡ self.old)) }
        ensures err { IfErr result (λ _. self.new ≡ self.old) }
    {
        let Some(from) = self.cursor.place else {
            return Ok(None);
        };
        let interval = Arc::try_clone(&self.interval)?;
        let blocks = self.spare.take().unwrap_or(Vec::new(alloc));
        let mut cursor = self.cursor;
        let (mcus, blocks) = read_run(blocks, &interval, &mut cursor, from, most)?;
        if mcus == 0 {
            return Ok(None);
        }
        let first = self.cursor.mcu;
        self.cursor = cursor;
        Ok(Some(CodedStrip::of(interval, first, mcus, blocks)))
    }

    /// Skips the next whole MCUs, as many as are asked for or as follow, those that the speculative reads have without
    /// reading them, and keeps none of their blocks. `None` if no further one follows; then, and on `Err`, the reader is
    /// unchanged.
    pub fn skip_by(
        &mut self,
        speculations: &Speculations,
        most: u32,
    ) -> Result<Option<PlacedStrip>, Memory>
        requires { AreSpeculationsOf self.old.interval speculations.now }
        ensures interval { self.new.interval ≡ self.old.interval }
        ensures of { IfOk result (λ o. IfSome o (λ s. s.interval ≡ self.old.interval)) }
        ensures first { IfOk result (λ o. IfSome o (λ s. s.first ≡ self.old.first)) }
        ensures some { IfOk result (λ o. IfSome o (λ s. 0 < s.mcus)) }
        ensures few { IfOk result (λ o. IfSome o (λ s. s.mcus ≤ most)) }
        ensures from { IfOk result (λ o. IfSome o (λ s. self.old.next ≡ Some s.from)) }
        ensures on { IfOk result (λ o. IfSome o (λ s. self.new.first ≡ s.first + s.mcus)) }
        ensures within { IfOk result (λ o. OnSome o (self.new.first ≤ self.old.interval.mcus)) }
        ensures last { IfOk result (λ o. IfSome o (λ s. s.mcus < most → HasLongestFront self.new.interval self.new.first)) }
        ensures none { IfOk result (λ o. IfNone o (0 < most → HasLongestFront self.old.interval self.old.first)) }
        ensures same { IfOk result (λ o. IfNone o (self.new ≡ self.old)) }
        ensures err { IfErr result (λ _. self.new ≡ self.old) }
    {
        let Some(from) = self.cursor.place else {
            return Ok(None);
        };
        let interval = Arc::try_clone(&self.interval)?;
        let coded: &Interval = &interval;
        let mut past = self.cursor;
        let mcus = past.take(coded.as_ref(), Some(speculations), most, false, &mut []);
        if mcus == 0 {
            return Ok(None);
        }
        let first = self.cursor.mcu;
        self.cursor = past;
        Ok(Some(PlacedStrip::of(interval, first, mcus, from)))
    }

    /// Returns whether all MCUs are read and fewer than eight bits are left: then what is read is the interval's
    /// decoding. If no further MCU follows and it is `false`, the interval has none.
    pub fn is_sound(&self) -> bool
        ensures sound { IsTrue result → (zs : List (List ℤ)) → Front self.now.interval self.now.first zs → Decodes self.now.interval zs }
        ensures damaged { result ≡ false → HasLongestFront self.now.interval self.now.first → HasNoDecoding self.now.interval }
    {
        let coded: &Interval = &self.interval;
        let interval = coded.as_ref();
        self.cursor.mcu == interval.mcus() && self.cursor.is_sound(&interval)
    }
}
