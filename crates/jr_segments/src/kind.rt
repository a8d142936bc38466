//! The meaning of the samples, and the marks that give it.
//!
//! T.81 leaves the colours to the application. A file of one component is grey. Of three components the image is RGB if
//! the last Adobe mark has transform 0 and no JFIF mark is there, otherwise YCbCr, as JFIF 1.02 has it. The components'
//! identifiers play no part.

ghost use Rattle.std.specs.Prelude.{◌≡◌, ◌==◌, ◌&&◌, ◌≤◌, nat_le, nat_eq, codes, ◌++◌, ◌∷◌, [], ℕ, List, length, Option, Some, None, IfSome, IsNone, ◌↔◌};
ghost use Rattle.jr_segments.specs.Marks.{has_jfif_mark, has_adobe_mark, kind_by, transform_of};

/// The meaning of the samples of an image.
#[derive(Clone, Copy, PartialEq, Eq)]
pub enum Kind {
    /// One component: the intensity.
    Grey,
    /// Three components: red, green and blue.
    Rgb,
    /// Three components: luminance Y and the differences Cb and Cr (JFIF 1.02).
    Ycc,
}

/// Returns whether the payload of an APP0 segment is a JFIF mark: it begins with `JFIF` and a 0 (JFIF 1.02).
pub fn is_jfif_mark(payload: &[u8]) -> bool
    ensures { result ≡ has_jfif_mark payload.now }
{
    payload.starts_with(b"JFIF\0")
}

/// Returns the transform byte of an APP14 segment's payload, at offset 11, if it is an Adobe mark.
///
/// An Adobe mark has at least twelve bytes and begins with `Adobe`.
pub fn adobe_transform(payload: &[u8]) -> Option<u8>
    ensures { result ≡ transform_of payload.now }
{
    if payload.len() >= 12 && payload.starts_with(b"Adobe") {
        Some(payload[11])
    } else {
        None
    }
}

/// Returns the kind, by the number of components and the marks.
pub fn kind_from(is_single: bool, is_jfif: bool, transform: Option<u8>) -> Kind
    ensures { result ≡ kind_by is_single is_jfif transform }
{
    if is_single {
        Kind::Grey
    } else if transform == Some(0) && !is_jfif {
        Kind::Rgb
    } else {
        Kind::Ycc
    }
}
