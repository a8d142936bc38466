//! What a file's header says of its image.

ghost use Rattle.std.specs.Prelude.{◌≡◌, ◌*◌, IfNone, IfSome};
ghost use Rattle.jr_head.specs.HeadValue.{kind_number};
ghost use Rattle.jr_head.specs.Geometry.{components_of, horizontal_max, horizontal_of, mcus_across, mcus_down, mcus_of, vertical_max, vertical_of};
ghost use Rattle.jr_segments.specs.Refusal.{number_of};
ghost use Rattle.jr_scan.specs.ScanValue.{intervals_of};
ghost use Rattle.jri_memory.specs.Calls.{ReportsNoHeader, ReportsNoSize, detail_number, of_three, picture_size};

use crate::frame_size::FrameSize;
use crate::report::detail;
use crate::space::bytes_of_picture;
use jr_head::{Head, Kind};
use jr_segments::Refusal;

/// A file's header in numbers, or a refusal's two numbers and the size in a frame header; the rest is 0.
#[repr(C)]
#[derive(Clone, Copy, PartialEq, Eq)]
pub struct Header {
    /// The image's width in pixels.
    pub width: u32,
    /// The image's height in lines.
    pub height: u32,
    /// 0 for grey, 1 for RGB, 2 for YCbCr, which is decoded to RGB.
    pub kind: u32,
    /// Number of components, 1 or 3, and of bytes of a pixel; of a refused file any number.
    pub components: u32,
    /// Number of restart intervals of the scan, and of bytes of its marks.
    pub intervals: u32,
    /// The number of the refusal, from 1 to 19; 0 if there is none.
    pub refusal: u32,
    /// Size of the pixels in bytes.
    pub pixels: u64,
    /// The refusal's detail: the offset of a missing marker, or a marker's code.
    pub detail: u64,
    /// The offset of the scan's first byte, after its header.
    pub scan_at: u64,
    /// Number of MCUs of a restart interval; 0 if there are no restart markers.
    pub restart: u32,
    /// The width of an MCU in pixels.
    pub mcu_width: u32,
    /// The height of an MCU in lines.
    pub mcu_height: u32,
    /// Number of MCUs that cover the image's width.
    pub mcus_across: u32,
    /// Number of rows of MCUs that cover the image's height.
    pub mcus_down: u32,
    /// Number of MCUs of the image.
    pub mcus: u32,
    /// The horizontal sampling factor of each component; 0 of one that the image does not have.
    pub horizontal: [u32; 3],
    /// The vertical sampling factor of each component; 0 of one that the image does not have.
    pub vertical: [u32; 3],
}

/// Returns the number of a kind.
fn number_of_kind(kind: Kind) -> u32
    ensures { result ≡ kind_number kind }
{
    match kind {
        Kind::Grey => 0,
        Kind::Rgb => 1,
        Kind::Ycc => 2,
    }
}

/// Returns the horizontal sampling factor of component c, counted from 0, or 0 if the image does not have it.
fn horizontal_or_0(head: &Head, c: u32) -> u32
    ensures { result ≡ horizontal_of head.now c }
{
    if c < head.components() {
        head.horizontal(c)
    } else {
        0
    }
}

/// Returns the vertical sampling factor of component c, counted from 0, or 0 if the image does not have it.
fn vertical_or_0(head: &Head, c: u32) -> u32
    ensures { result ≡ vertical_of head.now c }
{
    if c < head.components() {
        head.vertical(c)
    } else {
        0
    }
}

impl Header {
    /// Returns the header whose numbers are all 0.
    pub const fn empty() -> Header
        ensures no_header { ReportsNoHeader result }
        ensures no_size { ReportsNoSize result }
        ensures no_fault { result.refusal ≡ 0 }
        ensures no_detail { result.detail ≡ 0 }
    {
        Header {
            width: 0,
            height: 0,
            kind: 0,
            components: 0,
            intervals: 0,
            refusal: 0,
            pixels: 0,
            detail: 0,
            scan_at: 0,
            restart: 0,
            mcu_width: 0,
            mcu_height: 0,
            mcus_across: 0,
            mcus_down: 0,
            mcus: 0,
            horizontal: [0; 3],
            vertical: [0; 3],
        }
    }

    /// Returns a refusal, without a size.
    fn unsized_refusal(refusal: Refusal) -> Header
        ensures no_header { ReportsNoHeader result }
        ensures no_size { ReportsNoSize result }
        ensures number { result.refusal ≡ number_of refusal }
        ensures detail { result.detail ≡ detail_number refusal }
    {
        Header {
            refusal: u32::from(refusal.number()),
            detail: detail(refusal),
            ..Header::empty()
        }
    }

    /// Returns a refusal, and the size in the file's frame header.
    pub(crate) fn refused(refusal: Refusal, size: Option<FrameSize>) -> Header
        ensures no_header { ReportsNoHeader result }
        ensures size { IfSome size (λ s. (result.width ≡ s.width) × (result.height ≡ s.height) × (result.components ≡ s.components)) }
        ensures no_size { IfNone size (ReportsNoSize result) }
        ensures number { result.refusal ≡ number_of refusal }
        ensures detail { result.detail ≡ detail_number refusal }
    {
        match size {
            Some(size) => Header {
                width: size.width,
                height: size.height,
                components: size.components,
                ..Header::unsized_refusal(refusal)
            },
            None => Header::unsized_refusal(refusal),
        }
    }

    /// Returns what a header says.
    pub(crate) fn of(head: &Head) -> Header
        ensures width { result.width ≡ head.now.width }
        ensures height { result.height ≡ head.now.height }
        ensures kind { result.kind ≡ kind_number head.now.kind }
        ensures components { result.components ≡ components_of head.now }
        ensures intervals { result.intervals ≡ intervals_of head.now }
        ensures pixels { result.pixels ≡ picture_size head.now }
        ensures scan_at { result.scan_at ≡ head.now.scan_at }
        ensures restart { result.restart ≡ head.now.restart }
        ensures mcu_width { result.mcu_width ≡ 8 * horizontal_max head.now }
        ensures mcu_height { result.mcu_height ≡ 8 * vertical_max head.now }
        ensures across { result.mcus_across ≡ mcus_across head.now }
        ensures down { result.mcus_down ≡ mcus_down head.now }
        ensures mcus { result.mcus ≡ mcus_of head.now }
        ensures horizontal { result.horizontal ≡ of_three (horizontal_of head.now) }
        ensures vertical { result.vertical ≡ of_three (vertical_of head.now) }
        ensures no_fault { result.refusal ≡ 0 }
        ensures no_detail { result.detail ≡ 0 }
    {
        let horizontal = [
            horizontal_or_0(head, 0),
            horizontal_or_0(head, 1),
            horizontal_or_0(head, 2),
        ];
        let vertical = [
            vertical_or_0(head, 0),
            vertical_or_0(head, 1),
            vertical_or_0(head, 2),
        ];
        Header {
            width: head.width(),
            height: head.height(),
            kind: number_of_kind(head.kind()),
            components: head.components(),
            intervals: head.intervals(),
            pixels: bytes_of_picture(head) as u64,
            scan_at: head.scan_at(),
            restart: u32::from(head.restart()),
            mcu_width: 8 * head.horizontal_max(),
            mcu_height: 8 * head.vertical_max(),
            mcus_across: head.mcus_across(),
            mcus_down: head.mcus_down(),
            mcus: head.mcus(),
            horizontal,
            vertical,
            ..Header::empty()
        }
    }
}
