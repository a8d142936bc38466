//! Samples of an image, as painting asks for them.

ghost use Rattle.std.specs.Prelude.{◌≡◌, ℕ, ◌<◌, ◌≤◌, length, slice_index};
ghost use Rattle.jr_head.specs.Geometry.{IsValid, components_of};
ghost use Rattle.jr_head.specs.HeadValue.{HeadValue};
ghost use Rattle.jr_paint.specs.Geometry.{samples_across, samples_down};

use jr_head::Head;

/// The decoded samples of an image: for each component, columns from the left and lines from the top.
pub trait Samples {
    // the header of the image's file
    ghost head_of: { Self → HeadValue };

    // the sample by component, column and line
    ghost shown: { Self → ℕ → ℕ → ℕ → ℕ };

    /// Returns the header of the image's file.
    fn head(&self) -> &Head
        ensures value { result.now ≡ head_of self.now }
        ensures valid { IsValid result.now };

    /// Returns the sample in column x and line y of component c.
    fn sample(&self, c: u32, x: u32, y: u32) -> u8
        requires component { c < components_of (head_of self.now) }
        requires column { x < samples_across (head_of self.now) c }
        requires line { y < samples_down (head_of self.now) c }
        ensures { result ≡ shown self.now c x y };

    /// Returns the first `count` samples of line y of component c: a reference if they are in one piece, otherwise a
    /// copy in `space`.
    fn line<'a>(&'a self, c: u32, y: u32, count: usize, space: &'a mut [u8]) -> &'a [u8]
        requires component { c < components_of (head_of self.now) }
        requires columns { count ≤ samples_across (head_of self.now) c }
        requires line { y < samples_down (head_of self.now) c }
        requires space { count ≤ length space.old }
        ensures long { length result.now ≡ count }
        ensures samples { (k : ℕ) → k < count → slice_index result.now k ≡ shown self.now c k y }
    {
        // By its contract a header has few enough columns that their numbers fit.
        let _valid = self.head();
        let space = &mut space[..count];
        let mut x = 0;
        for entry in space.iter_mut() {
            *entry = self.sample(c, x, y);
            x += 1;
        }
        space
    }
}
