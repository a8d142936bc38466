//! A parser written from the definitions, bit by bit and byte by byte, to compare with the reader.

use crate::plain::{PlainBits, PlainTable};
use jr_scan::{Block, FrontBlocks, Scan, ScanEnd};
use std::alloc::Global;
use std::test::Fail;
use test_files::files::file;
use test_files::scans::scan_of;

/// A file up to its scan's data, its code tables, the components of an MCU's data units, and the number of MCUs of an interval.
#[derive(Clone, Copy)]
struct Picture {
    words: &'static str,
    dc: PlainTable,
    ac: PlainTable,
    order: &'static [usize],
    mcus: u32,
}

/// The reading of an interval: its next bit, and the last DC coefficient of each component.
#[derive(Clone, Copy)]
struct Reading<'a> {
    bits: PlainBits<'a>,
    last: [i32; 3],
}

impl Reading<'_> {
    /// Reads a DC coefficient, which is coded as its difference from the last one.
    fn first(&mut self, dc: &PlainTable, component: usize) -> i32 {
        let size = self.bits.word(dc);
        let difference = self.bits.value(size);
        let first = self.last[component % 3].saturating_add(difference);
        self.last[component % 3] = first;
        self.bits.has_failed |= size > 11 || !(-32768..=32767).contains(&first);
        first
    }

    /// Reads the other coefficients of a block. Each but the last is coded with the zeros before it.
    fn others(&mut self, ac: &PlainTable, z: &mut Block) {
        let mut place = 1usize;
        for _ in 1..64u8 {
            let symbol = if place == 64 { 0 } else { self.bits.word(ac) };
            if symbol == 0 {
                return;
            }
            let (run, size) = (symbol / 16, symbol % 16);
            place = place.wrapping_add(usize::from(run));
            if place > 63 || size > 10 || size == 0 && run < 15 {
                self.bits.has_failed = true;
                return;
            }
            z[place] = self.bits.value(size);
            place = place.wrapping_add(1);
        }
    }

    /// Reads the blocks of an MCU, and returns whether they are the first ones of `blocks`, unless there is no such MCU.
    fn is_mcu(&mut self, picture: &Picture, blocks: &[Block]) -> bool {
        let mut is_same = true;
        for (k, component) in picture.order.iter().enumerate() {
            let mut z = [0; 64];
            z[0] = self.first(&picture.dc, *component);
            self.others(&picture.ac, &mut z);
            is_same = is_same && blocks.get(k) == Some(&z);
        }
        is_same || self.bits.has_failed
    }
}

/// Returns whether data are read so: the blocks of the first whole MCUs, and whether these are all and fewer than eight bits are left.
fn is_front(picture: &Picture, bytes: &[u8], read: &FrontBlocks) -> bool {
    let bits = PlainBits {
        bytes,
        at: 0,
        has_failed: false,
    };
    let mut reading = Reading { bits, last: [0; 3] };
    let mut blocks = read.blocks();
    let mut whole = 0u32;
    for _ in 0..picture.mcus {
        if !reading.is_mcu(picture, blocks) {
            return false;
        }
        if reading.bits.has_failed {
            break;
        }
        whole = whole.wrapping_add(1);
        blocks = blocks.get(picture.order.len()..).unwrap_or(&[]);
    }
    let left = bytes.len().wrapping_mul(8).wrapping_sub(reading.bits.at);
    let is_sound = !reading.bits.has_failed && left < 8;
    read.mcus() == whole && blocks.is_empty() && read.is_sound() == is_sound
}

/// The bytes of a scan that are left, and the code of the marker that has ended it, 0 if none has.
#[derive(Clone, Copy)]
struct Rest<'a> {
    bytes: &'a [u8],
    end: u8,
}

impl Rest<'_> {
    /// Takes the data of the next segment, after which the marker of this code is due. Returns `false` if there is no memory for them.
    fn take_segment(&mut self, due: Option<u8>, data: &mut Vec<u8>) -> bool {
        let bytes = self.bytes;
        let mut has_fill = false;
        self.bytes = &[];
        data.clear();
        for k in 0..bytes.len() {
            let byte = bytes[k];
            if byte == 0xFF {
                has_fill = true;
                continue;
            }
            if has_fill && byte > 0 {
                if due == Some(byte) {
                    self.bytes = &bytes[k + 1..];
                } else {
                    self.end = byte;
                }
                return true;
            }
            if data.push(if has_fill { 0xFF } else { byte }).is_err() {
                return false;
            }
            has_fill = false;
        }
        true
    }
}

/// Returns the code of the marker that ends a scan, 0 if none does; `None` for an extra restart marker.
fn code(ended: ScanEnd) -> Option<u8> {
    match ended {
        ScanEnd::EndOfFile => Some(0),
        ScanEnd::EndOfImage => Some(0xD9),
        ScanEnd::OtherMarker(code, _) => Some(code),
        ScanEnd::OutOfStep { found, .. } => Some(0xD0 + found % 8),
        ScanEnd::ExtraRestart(_) => None,
    }
}

/// Returns whether an interval has these data, and is read as the definitions say.
fn is_interval(alloc: Global, picture: &Picture, scan: &Scan, number: u32, data: &[u8]) -> bool {
    if number >= scan.intervals() {
        return false;
    }
    let Ok(interval) = scan.interval(number) else {
        return false;
    };
    let Ok(read) = interval.read_front(alloc) else {
        return false;
    };
    interval.bytes() == data && is_front(picture, data, &read)
}

/// Returns whether the scan of these bytes is cut as the definitions say, and its intervals are read so.
fn is_scan(alloc: Global, picture: &Picture, scan: &Scan, bytes: &[u8]) -> bool {
    let mut rest = Rest { bytes, end: 0 };
    let mut data = Vec::new(alloc);
    for number in 0..scan.intervals() {
        let is_last = number.wrapping_add(1) == scan.intervals();
        let due = if is_last {
            None
        } else {
            Some(0xD0 + (number % 8) as u8)
        };
        if !rest.take_segment(due, &mut data) || !is_interval(alloc, picture, scan, number, &data) {
            return false;
        }
    }
    code(scan.ended()).is_none_or(|code| code == rest.end)
}

/// A series of numbers that look random.
#[derive(Clone, Copy)]
struct Random {
    state: u64,
}

impl Random {
    /// Returns the next number, of 31 bits.
    fn next(&mut self) -> u64 {
        self.state = self
            .state
            .wrapping_mul(6364136223846793005)
            .wrapping_add(1442695040888963407);
        self.state >> 33
    }

    /// Returns a byte that often is FF, a restart marker or small.
    fn byte(&mut self) -> u8 {
        let number = self.next();
        let v = (number & 0xFF) as u8;
        match (number >> 8) % 8 {
            0 => 0xFF,
            1 => 0xD0 + v % 4,
            2 => 0,
            3 => v % 16,
            _ => v,
        }
    }

    /// Appends at most eleven such bytes. Returns `false` if there is no memory for them.
    fn append_bytes(&mut self, bytes: &mut Vec<u8>) -> bool {
        for _ in 0..(self.next() >> 7) % 12 {
            if bytes.push(self.byte()).is_err() {
                return false;
            }
        }
        true
    }
}

/// Checks thousands of scans of random bytes after an image's header.
fn check_picture(alloc: Global, picture: &Picture) -> Result<(), Fail> {
    let mut bytes = file(alloc, picture.words)?;
    let length = bytes.len();
    let mut random = Random { state: 7 };
    for _ in 0..4000u32 {
        bytes.truncate(length);
        let is_whole = random.append_bytes(&mut bytes);
        let scan = scan_of(alloc, bytes.as_slice())?;
        let data = bytes.get(length..).unwrap_or(&[]);
        if !is_whole || !is_scan(alloc, picture, &scan, data) {
            return Err(Fail::from(picture.words));
        }
    }
    Ok(())
}

/// One component, and two MCUs in an interval; and three components.
static PICTURES: [Picture; 2] = [
    Picture {
        words: "S Q F:0008:0030 D:00:03:0B FF C4 00 17 10 01 01 01 01 12*00 00 F0 12 A1 I:0002 C",
        dc: PlainTable {
            counts: &[0, 3],
            symbols: &[0, 3, 11],
        },
        ac: PlainTable {
            counts: &[1, 1, 1, 1],
            symbols: &[0x00, 0xF0, 0x12, 0xA1],
        },
        order: &[0],
        mcus: 2,
    },
    Picture {
        words: "S Q F3:0008:0020:21 FF C4 00 17 00 00 02 01 01 12*00 00 02 0C 01 \
                FF C4 00 17 10 01 01 01 01 12*00 00 F0 12 A1 I C3",
        dc: PlainTable {
            counts: &[0, 2, 1, 1],
            symbols: &[0, 2, 12, 1],
        },
        ac: PlainTable {
            counts: &[1, 1, 1, 1],
            symbols: &[0x00, 0xF0, 0x12, 0xA1],
        },
        order: &[0, 0, 1, 2],
        mcus: 1,
    },
];

#[test]
fn reads_as_the_definitions_say(rt: HostRuntime) -> Result<(), Fail> {
    for picture in &PICTURES {
        check_picture(rt.alloc(), picture)?;
    }
    Ok(())
}
