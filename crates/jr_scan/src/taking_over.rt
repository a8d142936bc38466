//! Taking over the MCUs of speculative reads that a reader comes to.

ghost use Rattle.std.specs.Prelude.{◌≡◌, ◌<◌, ◌≤◌, ◌+◌, ◌*◌, ◌++◌, ℕ, ℤ, List, length, take, IfSome};
ghost use Rattle.std.specs.List.{All};
ghost use Rattle.jr_head.specs.Geometry.{order_of};
ghost use Rattle.jr_mcu.specs.Block.{IsInDcRange, IsInRange};
ghost use Rattle.jr_scan.specs.Speculation.{IsSpeculationOf};
ghost use Rattle.jr_scan.specs.Speculations.{AreSpeculationsOf};
ghost use Rattle.jr_scan.specs.Run.{IsRun, run_from};
ghost use Rattle.jr_scan.specs.McuReader.{HasRead, HasEnded, per_mcu};
ghost use Rattle.jr_scan.specs.declared.place.RunEnd.TheVariants.{AllRead};
ghost use Rattle.jr_scan.specs.declared.mcu_reader.TheConstants.{MAX_UNITS};

use crate::interval_ref::IntervalRef;
use crate::mcu_reader::McuReader;
use crate::place::Place;
use crate::speculation::Speculation;
use crate::speculations::Speculations;
use jr_base::Coefficients;

/// Takes over from a speculative read the MCUs that continue from a position, starting at its MCU `at`, at most `most`.
/// Moves past them and returns their number.
fn store_mcus(
    speculation: &Speculation,
    interval: &IntervalRef<'_>,
    at: usize,
    most: u32,
    place: &mut Place,
    blocks: &mut [Coefficients],
) -> u32
    requires of { IsSpeculationOf interval.now speculation.now }
    requires space { most * length (order_of interval.now.head) ≤ length blocks.old }
    requires within { place.old.bit ≤ 8 * length interval.now.bytes }
    requires in_range { All IsInDcRange place.old.predictions }
    ensures most { result ≤ most }
    ensures run { IsRun (run_from interval.now place.old result) (take (result * length (order_of interval.now.head)) blocks.new) place.new AllRead }
    ensures within { place.new.bit ≤ 8 * length interval.now.bytes }
    ensures in_range { All IsInDcRange place.new.predictions }
{
    let per_mcu = interval.head().order().len();
    for k in 0..most {
        let start = k as usize * per_mcu;
        let end = start + per_mcu;
        let mcu = at.saturating_add(k as usize);
        let Some(to) = speculation.store(interval, mcu, place, &mut blocks[start..end]) else {
            return k;
        };
        *place = to;
    }
    most
}

/// Does what `store_mcus` does, without the blocks.
fn pass_mcus(
    speculation: &Speculation,
    interval: &IntervalRef<'_>,
    at: usize,
    most: u32,
    place: &mut Place,
) -> u32
    requires of { IsSpeculationOf interval.now speculation.now }
    requires within { place.old.bit ≤ 8 * length interval.now.bytes }
    requires in_range { All IsInDcRange place.old.predictions }
    ensures most { result ≤ most }
    ensures run { (ys : List (List ℤ)) × IsRun (run_from interval.now place.old result) ys place.new AllRead }
    ensures within { place.new.bit ≤ 8 * length interval.now.bytes }
    ensures in_range { All IsInDcRange place.new.predictions }
{
    for k in 0..most {
        let Some(to) = speculation.pass(interval, at.saturating_add(k as usize), place) else {
            return k;
        };
        *place = to;
    }
    most
}

impl<'a> McuReader<'a> {
    /// Takes over the MCUs of a speculative read starting at its MCU `at`, as `read` reads them; none if that one
    /// starts at another bit. Their number says nothing of what follows.
    pub fn read_speculated(
        &mut self,
        speculation: &Speculation,
        at: usize,
        blocks: &mut [Coefficients],
    ) -> u32
        requires same { IsSpeculationOf self.old.run.interval speculation.now }
        ensures run { self.new.run ≡ self.old.run }
        ensures mcus { self.new.mcu ≡ self.old.mcu + result }
        ensures few { self.new.mcu ≤ self.new.run.mcus }
        ensures fits { result * per_mcu self.old ≤ length blocks.new }
        ensures read { (zs : List (List ℤ)) → HasRead self.old zs → HasRead self.new (zs ++ take (result * per_mcu self.old) blocks.new) }
        ensures in_range { All IsInRange (take (result * per_mcu self.old) blocks.new) }
        ensures stays { HasEnded self.old → self.new ≡ self.old }
        ensures none { result ≡ 0 → self.new ≡ self.old }
    {
        let interval = self.interval();
        let space = blocks.len() / interval.head().order().len();
        let most = space.min(self.left() as usize) as u32;
        let mut place = self.place();
        let taken = store_mcus(speculation, interval, at, most, &mut place, blocks);
        if taken > 0 {
            self.advance_to(taken, &place);
        }
        taken
    }

    /// Skips the MCUs of a speculative read starting at its MCU `at`, at most `mcus`, as `skip` does; none if that one
    /// starts at another bit. Their number says nothing of what follows.
    pub fn skip_speculated(&mut self, speculation: &Speculation, at: usize, mcus: u32) -> u32
        requires same { IsSpeculationOf self.old.run.interval speculation.now }
        ensures run { self.new.run ≡ self.old.run }
        ensures mcus { self.new.mcu ≡ self.old.mcu + result }
        ensures few { self.new.mcu ≤ self.new.run.mcus }
        ensures most { result ≤ mcus }
        ensures passed { (zs : List (List ℤ)) → HasRead self.old zs → (ys : List (List ℤ)) × (length ys ≡ result * per_mcu self.old) × All IsInRange ys × HasRead self.new (zs ++ ys) }
        ensures stays { HasEnded self.old → self.new ≡ self.old }
        ensures none { result ≡ 0 → self.new ≡ self.old }
    {
        let most = mcus.min(self.left());
        let mut place = self.place();
        let taken = pass_mcus(speculation, self.interval(), at, most, &mut place);
        if taken > 0 {
            self.advance_to(taken, &place);
        }
        taken
    }

    /// Reads as `read` does, and takes over what the speculative reads have of it.
    pub fn read_by(&mut self, speculations: &Speculations, blocks: &mut [Coefficients]) -> u32
        requires same { AreSpeculationsOf self.old.run.interval speculations.now }
        ensures run { self.new.run ≡ self.old.run }
        ensures mcus { self.new.mcu ≡ self.old.mcu + result }
        ensures few { self.new.mcu ≤ self.new.run.mcus }
        ensures fits { result * per_mcu self.old ≤ length blocks.new }
        ensures read { (zs : List (List ℤ)) → HasRead self.old zs → HasRead self.new (zs ++ take (result * per_mcu self.old) blocks.new) }
        ensures in_range { All IsInRange (take (result * per_mcu self.old) blocks.new) }
        ensures ended { (result + 1) * per_mcu self.old ≤ length blocks.new → HasEnded self.new }
        ensures none { MAX_UNITS ≤ length blocks.new → result ≡ 0 → HasEnded self.new }
        ensures stays { HasEnded self.old → self.new ≡ self.old }
    {
        if speculations.is_none() {
            return self.read(blocks);
        }
        let per_mcu = self.interval().head().order().len();
        let space = blocks.len() / per_mcu;
        let most = space.min(self.left() as usize) as u32;
        let mut done = 0;
        while done < most {
            let start = done as usize * per_mcu;
            let some = self.read_some(speculations, &mut blocks[start..]);
            if some == 0 {
                return done;
            }
            done += some;
        }
        done
    }

    /// Takes over what one of the speculative reads has starting here, or reads the next MCU.
    fn read_some(&mut self, speculations: &Speculations, blocks: &mut [Coefficients]) -> u32
        requires same { AreSpeculationsOf self.old.run.interval speculations.now }
        requires space { per_mcu self.old ≤ length blocks.old }
        ensures run { self.new.run ≡ self.old.run }
        ensures mcus { self.new.mcu ≡ self.old.mcu + result }
        ensures few { self.new.mcu ≤ self.new.run.mcus }
        ensures fits { result * per_mcu self.old ≤ length blocks.new }
        ensures read { (zs : List (List ℤ)) → HasRead self.old zs → HasRead self.new (zs ++ take (result * per_mcu self.old) blocks.new) }
        ensures in_range { All IsInRange (take (result * per_mcu self.old) blocks.new) }
        ensures ended { result ≡ 0 → HasEnded self.new }
        ensures stays { HasEnded self.old → self.new ≡ self.old }
    {
        if let Some((speculation, at)) = speculations.find(self.place().bit) {
            let taken = self.read_speculated(speculation, at, blocks);
            if taken > 0 {
                return taken;
            }
        }
        let per_mcu = self.interval().head().order().len();
        self.read(&mut blocks[..per_mcu])
    }

    /// Skips MCUs as `skip` does, those that the speculative reads have without reading them.
    pub fn skip_by(&mut self, speculations: &Speculations, mcus: u32) -> u32
        requires same { AreSpeculationsOf self.old.run.interval speculations.now }
        ensures run { self.new.run ≡ self.old.run }
        ensures mcus { self.new.mcu ≡ self.old.mcu + result }
        ensures few { self.new.mcu ≤ self.new.run.mcus }
        ensures most { result ≤ mcus }
        ensures passed { (zs : List (List ℤ)) → HasRead self.old zs → (ys : List (List ℤ)) × (length ys ≡ result * per_mcu self.old) × All IsInRange ys × HasRead self.new (zs ++ ys) }
        ensures ended { result < mcus → HasEnded self.new }
        ensures stays { HasEnded self.old → self.new ≡ self.old }
    {
        if speculations.is_none() {
            return self.skip(mcus);
        }
        let most = mcus.min(self.left());
        let mut done = 0;
        while done < most {
            let some = self.skip_some(speculations, most - done);
            if some == 0 {
                return done;
            }
            done += some;
        }
        done
    }

    /// Skips what one of the speculative reads has starting here, or the next MCU.
    fn skip_some(&mut self, speculations: &Speculations, mcus: u32) -> u32
        requires same { AreSpeculationsOf self.old.run.interval speculations.now }
        requires some { 0 < mcus }
        ensures run { self.new.run ≡ self.old.run }
        ensures mcus { self.new.mcu ≡ self.old.mcu + result }
        ensures few { self.new.mcu ≤ self.new.run.mcus }
        ensures most { result ≤ mcus }
        ensures passed { (zs : List (List ℤ)) → HasRead self.old zs → (ys : List (List ℤ)) × (length ys ≡ result * per_mcu self.old) × All IsInRange ys × HasRead self.new (zs ++ ys) }
        ensures ended { result ≡ 0 → HasEnded self.new }
        ensures stays { HasEnded self.old → self.new ≡ self.old }
    {
        if let Some((speculation, at)) = speculations.find(self.place().bit) {
            let taken = self.skip_speculated(speculation, at, mcus);
            if taken > 0 {
                return taken;
            }
        }
        self.skip(1)
    }
}
