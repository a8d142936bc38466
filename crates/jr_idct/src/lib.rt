//! The inverse discrete cosine transform of a block of 8 by 8 samples, dequantising included
//! (ITU-T T.81, A.3.3, A.3.4 and A.3.6).
//!
//! T.81 leaves the arithmetic to the decoder. This is the IJG's slow-but-accurate integer method: the
//! constants have 13 bits after the point, and each of the two passes rounds once. The laws `values_are_near` and
//! `samples_are_faithful` say how near it is to the ideal transform of T.81, with real cosines.
#![tactic(auto)]

mod block;
mod butterfly;
mod first_only;
mod lanes;
mod laws;
mod low;
mod matrix;
mod nonzero;
mod number;
mod pair;
mod pass;
mod small;
mod turned;
mod turned_bytes;
mod wide;

pub use block::{transform, transform_one, transform_two};
pub use butterfly::{even, odd};
pub use laws::{
    floors, places_agree, roots_agree, samples_are_faithful, samples_are_near, samples_are_rounded,
    tables_agree, values_are_near, zeros_are_grey,
};
pub use matrix::matrix_transform;
