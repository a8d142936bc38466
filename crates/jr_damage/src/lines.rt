//! The MCUs of an interval in the image.

ghost use Rattle.std.specs.Prelude.{◌≡◌, ◌+◌, ◌-◌, ◌*◌, ◌/◌, ◌<◌, ◌≤◌, min};
ghost use Rattle.jr_base.specs.declared.limits.TheConstants.{MAX_MCUS};
ghost use Rattle.jr_head.specs.Geometry as geometry;
ghost use Rattle.jr_scan.specs.ScanValue.{intervals_of, mcus_in};
ghost use Rattle.jr_damage.specs.Lines.{first_mcu_of, AreRows, AreLinesOf};

use jr_head::Head;

/// MCUs that follow one another, the first by its number in the scan, from 0.
#[derive(Clone, Copy)]
pub struct McuRange {
    pub first: u32,
    pub count: u32,
}

/// Lines of an image, the first and the last of them counted from 0 at the top.
#[derive(Clone, Copy, PartialEq, Eq)]
pub struct Lines {
    pub first: u32,
    pub last: u32,
}

/// Returns the MCUs of interval i (T.81, E.1.4).
pub fn mcus_of(head: &Head, i: u32) -> McuRange
    requires { i < intervals_of head.now }
    ensures first { result.first ≡ first_mcu_of head.now i }
    ensures count { result.count ≡ mcus_in head.now i }
    ensures some { 0 < result.count }
    ensures within { result.first + result.count ≤ geometry.mcus_of head.now }
    ensures few { result.first + result.count ≤ MAX_MCUS }
{
    // By its contract an image has few enough MCUs that their numbers fit.
    let _mcus = head.mcus();
    McuRange {
        first: head.first_mcu(i),
        count: head.mcus_in(i),
    }
}

/// Returns the lines that MCUs cover in rows of `across` MCUs.
fn lines_of_rows(mcus: McuRange, across: u32, high: u32, height: u32) -> Lines
    requires rows { AreRows across high height mcus.first mcus.count }
    requires few { mcus.first + mcus.count ≤ MAX_MCUS }
    requires low { height < 65536 }
    requires flat { high ≤ 32 }
    ensures first { result.first ≡ mcus.first / across * high }
    ensures last { result.last + 1 ≡ min (((mcus.first + mcus.count - 1) / across + 1) * high) height }
{
    let first_row = mcus.first / across;
    let last_row = (mcus.first + mcus.count - 1) / across;
    Lines {
        first: first_row * high,
        last: ((last_row + 1) * high).min(height) - 1,
    }
}

/// Returns the lines of the image that the MCUs of interval i cover (T.81, A.2.3).
pub fn lines_of(head: &Head, i: u32) -> Lines
    requires { i < intervals_of head.now }
    ensures lines { AreLinesOf head.now i result }
    ensures within { result.last < head.now.height }
{
    let across = head.mcus_across();
    let high = 8 * head.vertical_max();
    lines_of_rows(mcus_of(head, i), across, high, head.height())
}
