//! Calls of the library that the program `cases` does not make: a file with its markers in step, a file from copies, lines on a
//! canvas, and the build's name.

use jr_cut::Break;
use jri_memory::status::{DAMAGED, OK, SOUND};
use jri_memory::{
    ChoiceEntry, DecodeReport, MendReport, ResyncReport, build_text, check_marks, decode_file,
    lay_out, mend_files, resynchronise_file,
};
use std::test::Fail;
use test_files::files::{TEN, file, front};

/// Ten intervals of one MCU, of which the third is lost with its marker.
const LOST: &str =
    "GW 63 FF D0 63 FF D2 63 FF D3 63 FF D4 63 FF D5 63 FF D6 63 FF D7 63 FF D0 63 E";

/// The same with its markers in step.
const IN_STEP: &str =
    "GW 63 FF D0 63 FF D1 FF D2 63 FF D3 63 FF D4 63 FF D5 63 FF D6 63 FF D7 63 FF D0 63 E";

/// Copies of `TEN`, in which the second interval is damaged, and the first and the third.
const ONE: &str =
    "GW 63 FF D0 E0 FF D1 63 FF D2 63 FF D3 63 FF D4 63 FF D5 63 FF D6 63 FF D7 63 FF D0 63 E";

const OTHER: &str =
    "GW E0 FF D0 63 FF D1 E0 FF D2 63 FF D3 63 FF D4 63 FF D5 63 FF D6 63 FF D7 63 FF D0 63 E";

/// The number of bytes of `TEN`.
const SIZE: usize = 176;

/// The content of a buffer before a call.
const BYTE: u8 = 7;

#[test]
fn resynchronises(rt: HostRuntime) -> Result<(), Fail> {
    let lost = file(rt.alloc(), LOST)?;
    let in_step = file(rt.alloc(), IN_STEP)?;
    let unwritten = Break {
        at: 7,
        code: 7,
        due: 7,
        skipped: 7,
    };
    let mut out = [BYTE; SIZE];
    let mut breaks = [unwritten];
    let mut report = ResyncReport {
        ended: 7,
        found: 7,
        due: 7,
        refusal: 7,
        size: 7,
        breaks: 7,
        at: 7,
        detail: 7,
    };
    let answer = resynchronise_file(rt.alloc(), &lost, &mut out, &mut breaks, &mut report);
    let is_in_step = answer == OK
        && (report.size, report.breaks) == (175, 1)
        && front(&out, 175) == in_step.as_slice()
        && out[175] == BYTE;
    let [
        Break {
            at,
            code,
            due,
            skipped,
        },
    ] = breaks;
    assert!(rt; is_in_step && (at, code, due, skipped) == (150, 0xD2, 1, 1));
    Ok(())
}

/// Returns whether the third of ten intervals is grey, and the others are lighter.
fn has_third_lost(pixels: &[u8; 640]) -> bool {
    for k in 0..640 {
        let expected = if k % 80 / 8 == 2 { 128 } else { 136 };
        if pixels[k] != expected {
            return false;
        }
    }
    true
}

#[test]
fn decodes_resynchronised(rt: HostRuntime) -> Result<(), Fail> {
    let lost = file(rt.alloc(), LOST)?;
    let mut pixels = [BYTE; 640];
    let (mut marks, mut checked) = ([BYTE; 10], [BYTE; 10]);
    let mut report = DecodeReport::empty();
    let answer = decode_file(rt.alloc(), &lost, 1, &mut pixels, &mut marks, &mut report);
    let is_decoded = answer == DAMAGED
        && (report.sound, report.damaged, report.ended) == (9, 1, 1)
        && marks == [1, 1, 2, 1, 1, 1, 1, 1, 1, 1]
        && has_third_lost(&pixels);
    let answer = check_marks(rt.alloc(), &lost, 1, &mut checked, &mut report);
    assert!(rt; is_decoded && answer == DAMAGED && report.damaged == 1 && checked == marks);
    Ok(())
}

#[test]
fn mends(rt: HostRuntime) -> Result<(), Fail> {
    let whole = file(rt.alloc(), TEN)?;
    let words = format!(in rt.alloc(); "{ONE} {OTHER}")?;
    let files = file(rt.alloc(), words.as_str())?;
    let mut out = [BYTE; SIZE];
    let unwritten = ChoiceEntry {
        copy: 7,
        mark: 7,
        decodable: 7,
        differs: 7,
    };
    let mut choices = [unwritten; 3];
    let mut report = MendReport {
        intervals: 7,
        damaged: 7,
        copy: 7,
        refusal: 7,
        size: 7,
        detail: 7,
    };
    let sizes = [SIZE, SIZE];
    let answer = mend_files(
        rt.alloc(),
        &files,
        &sizes,
        &mut out,
        &mut choices,
        &mut report,
    );
    let is_mended = answer == SOUND
        && (report.intervals, report.damaged, report.size) == (10, 0, 176)
        && (choices[0].copy, choices[1].copy, choices[2].copy) == (0, 1, 0)
        && out.as_slice() == whole.as_slice();
    assert!(rt; is_mended);
    Ok(())
}

const LAID_OUT: [u8; 29] = [
    3, 2, 1, 255, 6, 5, 4, 255, 9, 8, 7, 255, 12, 11, 10, 255, 15, 14, 13, 255, 18, 17, 16, 255,
    21, 20, 19, 255, BYTE,
];

/// Lays a line of seven pixels out as blue, green, red and 255: a vector stores the first ones.
#[test]
fn lays_out(rt: HostRuntime) {
    let line = [
        1, 2, 3, 4, 5, 6, 7, 8, 9, 10, 11, 12, 13, 14, 15, 16, 17, 18, 19, 20, 21,
    ];
    let mut canvas = [BYTE; 29];
    let mut text = [BYTE; 4];
    let is_laid_out = lay_out(&line, 7, 3, &mut canvas, 29, 4) == OK && canvas == LAID_OUT;
    assert!(rt; is_laid_out && build_text(&mut text) == 4 && &text == b"jri ");
}
