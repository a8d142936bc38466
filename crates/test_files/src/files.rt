//! Files in a short notation.
//!
//! Words are separated by spaces. These stand for parts of files; two other hexadecimal digits are a byte:
//!
//! | word | bytes |
//! |---|---|
//! | `S`, `E` | the markers SOI and EOI |
//! | `Q` | table 0 of quantisers, each 16 |
//! | `F:0008:0010`, `F` | a baseline frame of one component, 8 lines and 16 columns, or 8 and 8; `F1:0008:0010` for SOF1 |
//! | `F3:0009:0011:22`, `F3` | of three components, the first with these sampling factors, or 8 by 8 with all factors 1 |
//! | `D:00:03:05` | DC table 0 with the codes 00, 01 and 10 of these symbols; `D` alone is `D:00:03:05` |
//! | `A` | AC table 0 with the code 0 for the end of a block |
//! | `A2:00:01` | AC table 0 with the codes 0 and 10 of these symbols |
//! | `K` | the luminance DC table of T.81, Annex K |
//! | `I:0002` | a restart interval of two MCUs; `I` alone is `I:0001` |
//! | `C`, `C3` | the header of a scan of one component, or of three |
//! | `J`, `T`, `T1` | a JFIF mark, and Adobe marks with transform 0 and 1 |
//! | `64*10` | 64 times the byte 10 |
//! | `M:0005:000C:0006` | the intervals of 12 MCUs of 6 data units, at most 5 MCUs each, with restart markers between them |
//! | `cut:146` | of the bytes before it the first 146 |
//! | `at:140:FF` | the byte 140 before it becomes FF |

use crate::draft::Draft;
use crate::error::NotationError;
use std::alloc::Global;

/// Files up to their scans' data.
const GROUPS: [(&str, &str); 4] = [
    ("G", "S Q F:0008:0008 D A C"),
    ("GI", "S Q F:0008:0010 D A I C"),
    ("G1", "S Q F:0001:0001 D A C"),
    ("GW", "S Q F:0008:0050 D A I C"),
];

const PARTS: [(&str, &str); 14] = [
    ("S", "FF D8"),
    ("E", "FF D9"),
    ("Q", "FF DB 00 43 00 64*10"),
    ("F", "FF C0 00 0B 08 00 08 00 08 01 01 11 00"),
    (
        "F3",
        "FF C0 00 11 08 00 08 00 08 03 01 11 00 02 11 00 03 11 00",
    ),
    ("D", "FF C4 00 16 00 00 03 14*00 00 03 05"),
    ("A", "FF C4 00 14 10 01 15*00 00"),
    ("I", "FF DD 00 04 00 01"),
    ("C", "FF DA 00 08 01 01 00 00 3F 00"),
    ("C3", "FF DA 00 0C 03 01 00 02 00 03 00 00 3F 00"),
    ("J", "FF E0 00 10 4A 46 49 46 00 01 02 00 00 01 00 01 00 00"),
    ("T", "FF EE 00 0E 41 64 6F 62 65 00 64 00 00 00 00 00"),
    ("T1", "FF EE 00 0E 41 64 6F 62 65 00 64 00 00 00 00 01"),
    (
        "K",
        "FF C4 00 1F 00 00 01 05 01 01 01 01 01 01 7*00 00 01 02 03 04 05 06 07 08 09 0A 0B",
    ),
];

/// A file of ten intervals that have a decoding.
pub const TEN: &str =
    "GW 63 FF D0 63 FF D1 63 FF D2 63 FF D3 63 FF D4 63 FF D5 63 FF D6 63 FF D7 63 FF D0 63 E";

/// A file of ten intervals, of which five have a decoding: those with E0 have bits that no code begins, that with 63 63
/// has ten bits left over after its data unit, and one has no bytes.
pub const MIXED: &str =
    "GW 63 FF D0 E0 FF D1 63 FF D2 63 63 FF D3 E0 FF D4 63 FF D5 FF D6 63 FF D7 E0 FF D0 63 E";

/// Two intervals of three components.
pub const COLOURED: &str = "S Q F3:0009:0011:22 D:00:03:06 A I C3 00 01 48 FF D0 60 00 07 E";

/// One interval of 1056 MCUs: twelve, each 8 lighter than the one before, then twelve, each 8 darker, and so on.
pub const LONG: &str = "S Q F:0108:0100 D A C 44*618618618618618618596596596596596596 E";

/// Two such intervals.
pub const TWO_LONG: &str =
    "S Q F:0210:0100 D A FF DD 00 04 04 20 C 44*618618618618618618596596596596596596 \
    FF D0 44*618618618618618618596596596596596596 E";

/// One interval of three components, 1080 MCUs of six data units.
pub const LONG_COLOURED: &str = "S Q F3:01E0:0240:22 D:00:03:06 A \
    C3 108*6000C06000C06000C06000C06000C05800B05800B05800B05800B05800B0 E";

/// Parts with arguments, each of which is a bar.
const FORMS: [(&str, &str); 6] = [
    ("F", "FF C0 00 0B 08 | | 01 01 11 00"),
    ("F1", "FF C1 00 0B 08 | | 01 01 11 00"),
    ("F3", "FF C0 00 11 08 | | 03 01 | 00 02 11 00 03 11 00"),
    ("D", "FF C4 00 16 00 00 03 14*00 | | |"),
    ("A2", "FF C4 00 15 10 01 01 14*00 | |"),
    ("I", "FF DD 00 04 |"),
];

/// Twenty-two data units of twelve bits: eleven, each lighter than the last, then eleven, each darker. In none are
/// all columns the same, or all lines. They use the tables `D` and `A2:00:01`.
const UNITS: [u8; 33] = [
    0x64, 0x87, 0x5A, 0x6D, 0xA7, 0xDA, 0x6C, 0xA6, 0xC8, 0x74, 0x87, 0x58, 0x65, 0x87, 0x5A, 0x74,
    0xA5, 0xCA, 0x4C, 0xA5, 0x58, 0x45, 0x85, 0x58, 0x44, 0x84, 0xCA, 0x4C, 0xA5, 0xDA, 0x4D, 0xA4,
    0xD8,
];

/// Returns the text next to a name in a table.
fn text_of<'a>(table: &[(&'a str, &'a str)], word: &str) -> Option<&'a str> {
    for (name, text) in table {
        if *name == word {
            return Some(*text);
        }
    }
    None
}

/// Appends digits, and for each bar among them the next argument.
fn write_form(draft: &mut Draft, digits: &str, arguments: &str) {
    let mut values = arguments.split(':');
    for word in digits.split_whitespace() {
        if word == "|" {
            draft.write_hex(values.next().unwrap_or(""));
        } else {
            draft.write_digits(word);
        }
    }
}

/// Writes the given number of data units; those of each interval begin with other ones.
fn store_units(draft: &mut Draft, number: u32, units: u32) {
    let first = number.wrapping_mul(3);
    for k in 0..units.wrapping_mul(3).div_ceil(2) {
        draft.push(UNITS[first.wrapping_add(k) as usize % UNITS.len()]);
    }
}

/// Appends the intervals of a scan, as `0005:000C:0006`: the maximum number of MCUs of each, the number of all MCUs,
/// and the number of data units of each. Each interval has whole bytes.
fn write_scan(draft: &mut Draft, arguments: &str) {
    let Some((each, rest)) = arguments.split_once(':') else {
        return draft.reject();
    };
    let Some((mcus, units)) = rest.split_once(':') else {
        return draft.reject();
    };
    let each = draft.number(each, 16);
    let mut left = draft.number(mcus, 16);
    let units = draft.number(units, 16);
    for number in 0..left.div_ceil(each.max(1)) {
        if number > 0 {
            draft.append(&[0xFF, 0xD0 + (number.wrapping_sub(1) % 8) as u8]);
        }
        store_units(draft, number, each.min(left).wrapping_mul(units));
        left = left.saturating_sub(each);
    }
}

/// Changes the byte at an offset, as `140:FF`.
fn change(draft: &mut Draft, arguments: &str) {
    let Some((at, value)) = arguments.split_once(':') else {
        return draft.reject();
    };
    let at = draft.number(at, 10);
    let value = draft.number(value, 16);
    draft.change(at, (value % 256) as u8);
}

/// Appends a part with arguments, or changes the bytes before it.
fn write_named(draft: &mut Draft, name: &str, arguments: &str) {
    match name {
        "cut" => {
            let length = draft.number(arguments, 10);
            draft.truncate(length);
        }
        "at" => change(draft, arguments),
        "M" => write_scan(draft, arguments),
        _ => match text_of(&FORMS, name) {
            Some(digits) => write_form(draft, digits, arguments),
            None => draft.reject(),
        },
    }
}

/// Appends a part, or digits.
fn write_part(draft: &mut Draft, word: &str) {
    match word.split_once(':') {
        Some((name, arguments)) => write_named(draft, name, arguments),
        None => match text_of(&PARTS, word) {
            Some(digits) => write_form(draft, digits, ""),
            None => draft.write_digits(word),
        },
    }
}

/// Appends the bytes of a text; groups of parts are not among its words.
fn write_parts(draft: &mut Draft, words: &str) {
    for word in words.split_whitespace() {
        write_part(draft, word);
    }
}

/// Returns the bytes of a file in the notation above.
pub fn file(alloc: Global, words: &str) -> Result<Vec<u8>, NotationError> {
    let mut draft = Draft::new(alloc);
    for word in words.split_whitespace() {
        match text_of(&GROUPS, word) {
            Some(parts) => write_parts(&mut draft, parts),
            None => write_part(&mut draft, word),
        }
    }
    draft.finish()
}

/// Returns the first bytes of a file, at most `length`.
pub fn front(bytes: &[u8], length: usize) -> &[u8] {
    &bytes[..length.min(bytes.len())]
}

/// The bytes of a file, one of them changed.
pub fn with_byte(
    alloc: Global,
    bytes: &[u8],
    at: usize,
    value: u8,
) -> Result<Vec<u8>, NotationError> {
    let mut bytes = bytes.to_vec(alloc)?;
    let byte = bytes.get_mut(at).ok_or(NotationError::Malformed)?;
    *byte = value;
    Ok(bytes)
}
