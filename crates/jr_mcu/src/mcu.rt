//! The blocks of one MCU.

ghost use Rattle.std.specs.Prelude.{◌≡◌, ◌+◌, ◌<◌, ◌≤◌, ◌^◌, ◌++◌, ℤ, List, length, take, IsTrue, IfNone, OnSome};
ghost use Rattle.std.specs.List.{All};
ghost use Rattle.jr_head.specs.Geometry.{IsValid, order_of};
ghost use Rattle.jr_mcu.specs.Block.{IsInDcRange};
ghost use Rattle.jr_mcu.specs.Mcus.{predicted, TakesMcu, BeginsNoMcu};

use crate::block_sink::BlockSink;
use jr_base::Coefficients;
use jr_code::Bits;
use jr_head::Head;

/// Reads the blocks of one MCU in order; those that are kept go to `blocks` starting at `start`. The predictions become those
/// after the MCU. If it is not whole, bits, predictions and the blocks before `start` are unchanged.
#[inline(always)]
pub fn read_mcu<S: BlockSink>(
    head: &Head,
    bits: &mut Bits<'_>,
    predictions: &mut [i32; 3],
    start: usize,
    blocks: &mut [Coefficients],
) -> Option<()>
    requires valid { IsValid head.now }
    requires fits { start + length (order_of head.now) < 2 ^ 64 }
    requires space { IsTrue S.keeps → start + length (order_of head.now) ≤ length blocks.old }
    requires in_range { All IsInDcRange predictions.old }
    ensures some { OnSome result ((zs : List (List ℤ)) × TakesMcu head.now predictions.old zs bits.old bits.new × (predictions.new ≡ predicted head.now predictions.old zs) × (IsTrue S.keeps → take (start + length (order_of head.now)) blocks.new ≡ take start blocks.old ++ zs)) }
    ensures front { IsTrue S.keeps → take start blocks.new ≡ take start blocks.old }
    ensures in_range { All IsInDcRange predictions.new }
    ensures none { IfNone result (BeginsNoMcu head.now predictions.old bits.old) }
    ensures kept { IfNone result ((bits.new ≡ bits.old) × (predictions.new ≡ predictions.old)) }
{
    let order = head.order();
    let mut left = bits.fork();
    let mut last = *predictions;
    for k in 0..order.len() {
        let c = order[k];
        let dc = head.dc_book(u32::from(c));
        let ac = head.ac_book(u32::from(c));
        let prediction = last[c as usize];
        let Some(first) = S::take(dc, ac, &mut left, prediction, start + k, blocks) else {
            return None;
        };
        last[c as usize] = first;
    }
    *bits = left;
    *predictions = last;
    Some(())
}
