//! The strips of a shared interval, kept until all are there.

ghost use Rattle.std.specs.Prelude.{◌≡◌, IfSome};
ghost use Rattle.std.specs.List.{All};
ghost use Rattle.std.specs.Arc.{arc_value};
ghost use Rattle.jr_scan.specs.IntervalValue.{IntervalValue};
ghost use Rattle.jr_wall.specs.Sharing.{IsOneOf, IsEmptyOrOf, IsEndOf};
ghost use Rattle.jr_piece.specs.Strips.{AreOf, ReportsEnd, shared_strips};

use crate::reading::{End, strip_mcus};
use jr_base::Memory;
use jr_piece::Strip;
use jr_scan::Interval;
use jr_work::OneScan;
use std::alloc::Global;
use std::marker::{Model, PhantomData};
use std::sync::Arc;

/// The decoded parts of an interval of the scan: each strip at its index, and the interval's end once that is known.
#[derive(Drop)]
pub(crate) struct Gathered<S: OneScan> {
    interval: Arc<Interval>,
    each: u32,
    strips: Vec<Option<Arc<Strip>>>,
    kept: u32,
    end: Option<End>,
    is_given: bool,
    of: PhantomData<S>,
}

impl<S: OneScan> Model for Gathered<S> {
    ghost use Rattle.std.specs.Prelude.{◌<◌, IfSome};
    ghost use Rattle.std.specs.List.{All};
    ghost use Rattle.std.specs.Arc.{arc_value};
    ghost use Rattle.jr_scan.specs.IntervalValue.{IntervalValue};
    ghost use Rattle.jr_wall.specs.Sharing.{IsOneOf, IsEmptyOrOf};
    ghost use Rattle.jr_piece.specs.Strips.{ReportsEnd};

    ghost Value = { IntervalValue };

    ghost view = { λ g. arc_value g.interval };

    ghost invariant = { λ g. (0 < g.each) × IsOneOf S.part (arc_value g.interval) × All (IsEmptyOrOf (arc_value g.interval)) g.strips.items × IfSome g.end (λ e. ReportsEnd (arc_value g.interval) e.front e.is_sound) };
}

/// Returns the strips of all positions; `None` if a position is empty.
fn all_of(alloc: Global, places: &[Option<Arc<Strip>>]) -> Option<Vec<Arc<Strip>>>
    ensures { IfSome result (λ v. (i : IntervalValue) → All (IsEmptyOrOf i) places.now → AreOf i (shared_strips v.items)) }
{
    let mut strips = Vec::with_capacity(alloc, places.len()).ok()?;
    for place in places {
        let strip = place.as_ref()?;
        strips.push(Arc::try_clone(strip).ok()?).ok()?;
    }
    Some(strips)
}

/// Stores a strip at its index. Indices before it that have none yet are empty.
fn store(
    places: &mut Vec<Option<Arc<Strip>>>,
    place: usize,
    strip: Arc<Strip>,
) -> Result<(), Memory>
    ensures { (i : IntervalValue) → (arc_value strip).interval ≡ i → All (IsEmptyOrOf i) places.old.items → All (IsEmptyOrOf i) places.new.items }
{
    for _ in places.len()..=place {
        places.push(None)?;
    }
    places[place] = Some(strip);
    Ok(())
}

impl<S: OneScan> Gathered<S> {
    /// Returns the strips of an interval of which none is decoded yet.
    pub(crate) fn of(alloc: Global, interval: Arc<Interval>) -> Gathered<S>
        requires { IsOneOf S.part (arc_value interval) }
        ensures { result ≡ arc_value interval }
    {
        let each = strip_mcus(&interval);
        Gathered {
            interval,
            each,
            strips: Vec::new(alloc),
            kept: 0,
            end: None,
            is_given: false,
            of: PhantomData,
        }
    }

    /// Keeps a strip of this interval at its index; ignores a strip of another interval.
    pub(crate) fn keep(&mut self, strip: Arc<Strip>) -> Result<(), Memory>
        requires { IsOneOf S.part (arc_value strip).interval }
        ensures { self.new ≡ self.old }
    {
        if strip.number() != self.interval.number() {
            return Ok(());
        }
        let place = strip.first() / self.each;
        store(&mut self.strips, place as usize, strip)?;
        self.kept = self.kept.saturating_add(1);
        Ok(())
    }

    /// Notes where this interval ends, until its strips are taken.
    pub(crate) fn close(&mut self, end: End)
        requires { IsEndOf S.part end }
        ensures { self.new ≡ self.old }
    {
        if !self.is_given && end.number == self.interval.number() {
            self.end = Some(end);
        }
    }

    /// Takes the interval's number, all strips and the end, once they are there. They are returned once.
    pub(crate) fn take(&mut self, alloc: Global) -> Option<(u32, Vec<Arc<Strip>>, End)>
        ensures own { IsOneOf S.part self.old }
        ensures number { IfSome result (λ r. r.0 ≡ self.old.number) }
        ensures strips { IfSome result (λ r. AreOf self.old (shared_strips r.1.items)) }
        ensures end { IfSome result (λ r. ReportsEnd self.old r.2.front r.2.is_sound) }
    {
        let end = self.end?;
        if self.kept != end.front.div_ceil(self.each) {
            return None;
        }
        self.end = None;
        self.is_given = true;
        let strips = all_of(alloc, self.strips.as_slice())?;
        Some((self.interval.number(), strips, end))
    }
}
