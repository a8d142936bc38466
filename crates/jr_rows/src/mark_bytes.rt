//! Marks as bytes, each at the index of its interval.

ghost use Rattle.std.specs.Prelude.{◌≡◌, ℕ, ◌<◌, cond, length, slice_index};
ghost use Rattle.jr_picture.specs.declared.mark.Mark.TheVariants.{Sound, Damaged};
ghost use Rattle.jr_rows.specs.MarkBytes.{mark_byte};

/// A sound interval.
const SOUND: u8 = 1;

/// A damaged one.
const DAMAGED: u8 = 2;

/// Stores the mark of interval `number` at its index if marks are asked for.
pub fn write_mark(is_sound: bool, number: u32, marks: &mut [u8])
    requires { 0 < length marks.old → number < length marks.old }
    ensures long { length marks.new ≡ length marks.old }
    ensures store { 0 < length marks.old → slice_index marks.new number ≡ mark_byte (cond is_sound Sound Damaged) }
    ensures kept { (k : ℕ) → k < number → slice_index marks.new k ≡ slice_index marks.old k }
{
    if !marks.is_empty() {
        marks[number as usize] = if is_sound { SOUND } else { DAMAGED };
    }
}
