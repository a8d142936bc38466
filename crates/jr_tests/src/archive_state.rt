//! State files: their lines, damaged ones, and what a run with one reads, reports and records.

use crate::archive::{NO_LIST, request_of};
use jri_archive::{
    CheckEnd, CheckSource, Directory, FileRecord, NoProgress, RecordedState, Stamp, State,
    StateError, check_all, parse_record, read_state, record_line,
};
use jri_machine::{Entry, EntryKind, ReadError};
use std::alloc::Global;
use std::io::{Result as IoResult, Write};
use std::sync::atomic::{AtomicU64, Ordering};
use std::sync::{Mutex, Wait};
use std::test::Fail;
use std::thread::Threads;
use test_files::files::{TEN, file};

/// The SHA-256 of `abc` (FIPS 180-4).
const ABC: [u8; 32] = [
    0xBA, 0x78, 0x16, 0xBF, 0x8F, 0x01, 0xCF, 0xEA, 0x41, 0x41, 0x40, 0xDE, 0x5D, 0xAE, 0x22, 0x23,
    0xB0, 0x03, 0x61, 0xA3, 0x96, 0x17, 0x7A, 0x9C, 0xB4, 0x10, 0xFF, 0x61, 0xF2, 0x00, 0x15, 0xAD,
];

/// Returns a record of such a size, time and state.
fn record_of(size: u64, (seconds, nanos): (i64, u32), state: RecordedState) -> FileRecord {
    FileRecord {
        hash: ABC,
        stamp: Stamp {
            size,
            seconds,
            nanos,
        },
        state,
    }
}

/// The lines of two records without their ends; the check values are those of another program.
const LINE: &str =
    "ba7816bf8f01cfea414140de5dae2223b00361a396177a9cb410ff61f20015ad 3 1700000000.000000005 damaged \"a\\u0022\\u005c\\udcff\" 2281606d";

const NAMELESS: &str =
    "ba7816bf8f01cfea414140de5dae2223b00361a396177a9cb410ff61f20015ad 18446744073709551615 -1.999999999 unsupported \"\" 973afed2";

/// Returns whether a line without its end has this name and this record.
fn is_record(alloc: Global, line: &[u8], name: &[u8], record: &FileRecord) -> bool {
    match parse_record(alloc, line) {
        Ok(Some((found, of))) => {
            of.stamp == record.stamp
                && of.state == record.state
                && of.hash == record.hash
                && found.as_slice() == name
        }
        _ => false,
    }
}

/// Returns whether a record has a line which, without its end, is `line`, if that is one, and has the record.
fn goes_round(alloc: Global, line: &str, name: &[u8], record: &FileRecord) -> bool {
    let Ok(whole) = record_line(alloc, name, record) else {
        return false;
    };
    let Some(found) = whole.as_str().strip_suffix('\n') else {
        return false;
    };
    (line.is_empty() || found == line) && is_record(alloc, found.as_bytes(), name, record)
}

#[test]
fn lines_are_as_documented(rt: HostRuntime) {
    let damaged = record_of(3, (1_700_000_000, 5), RecordedState::Damaged);
    let unsupported = record_of(u64::MAX, (-1, 999_999_999), RecordedState::Unsupported);
    let is_line = goes_round(rt.alloc(), LINE, b"a\"\\\xFF", &damaged)
        && goes_round(rt.alloc(), NAMELESS, b"", &unsupported);
    assert!(rt; is_line);
}

const STATES: [RecordedState; 4] = [
    RecordedState::Sound,
    RecordedState::Damaged,
    RecordedState::Refused,
    RecordedState::Unsupported,
];

const TIMES: [(i64, u32); 5] = [
    (0, 0),
    (-1, 1),
    (1, 999_999_999),
    (i64::MAX, 0),
    (i64::MIN, 10),
];

/// Returns whether records of a size and a time come back in each state.
fn come_back(alloc: Global, size: u64, time: (i64, u32)) -> bool {
    for state in STATES {
        if !goes_round(alloc, "", b"a b", &record_of(size, time, state)) {
            return false;
        }
    }
    true
}

#[test]
fn records_come_back(rt: HostRuntime) -> Result<(), Fail> {
    for time in TIMES {
        for size in [0, 1, u64::MAX] {
            if !come_back(rt.alloc(), size, time) {
                return Err(Fail::from("a record"));
            }
        }
    }
    Ok(())
}

#[test]
fn names_of_each_byte_come_back(rt: HostRuntime) -> Result<(), Fail> {
    let record = record_of(1, (2, 3), RecordedState::Sound);
    for byte in 0..=u8::MAX {
        if !goes_round(rt.alloc(), "", &[byte], &record)
            || !goes_round(rt.alloc(), "", &[b'"', byte, b'\\', byte, b' '], &record)
        {
            return Err(Fail::from(byte));
        }
    }
    let name = "\u{E4}\u{20AC}\\u00e4".as_bytes();
    assert!(rt; goes_round(rt.alloc(), "", name, &record));
    Ok(())
}

/// Returns whether the beginning of a line and a line with a changed byte are no lines.
fn are_none(alloc: Global, line: &mut [u8], at: usize) -> bool {
    if at >= line.len() || !matches!(parse_record(alloc, &line[..at]), Ok(None)) {
        return false;
    }
    let byte = line[at];
    for change in [1, 0x20, 0x80] {
        line[at] = byte ^ change;
        if !matches!(parse_record(alloc, &line[..]), Ok(None)) {
            return false;
        }
    }
    line[at] = byte;
    true
}

#[test]
fn damaged_lines_are_none(rt: HostRuntime) -> Result<(), Fail> {
    let mut line = LINE.as_bytes().to_vec(rt.alloc())?;
    for at in 0..LINE.len() {
        if !are_none(rt.alloc(), line.as_mut_slice(), at) {
            return Err(Fail::from(at));
        }
    }
    Ok(())
}

/// The first line of a state file.
const FRONT: &str = "jri_check state 1\n";

/// State files, a beginning and further lines, and what they lack, or the number of their damaged line. A whole line without its end
/// is a record.
const LACKING: [(&str, &str, Result<&[u8], u64>); 14] = [
    ("", "", Ok(b"jri_check state 1\n")),
    ("jri_check st", "", Ok(b"ate 1\n")),
    (FRONT, "", Ok(b"")),
    (FRONT, NAMELESS, Ok(b"\n")),
    ("jri_check state 1\nba78 cut\n", NAMELESS, Ok(b"\n")),
    (FRONT, "ba78", Ok(b" cut\n")),
    (FRONT, "ba78 cut\n", Ok(b"")),
    (FRONT, "ba78 cu", Ok(b" cut\n")),
    ("jri_check state 2\n", "", Err(1)),
    ("\u{FF}\u{D8}", "", Err(1)),
    ("jri_check state 1\r\n", "", Err(1)),
    (FRONT, "ba78\n", Err(2)),
    (FRONT, "\n", Err(2)),
    (FRONT, "ba78 cut\n\ncut", Err(3)),
];

/// Returns whether a state file lacks that, or is damaged there.
fn lacks(alloc: Global, bytes: &[u8], expected: Result<&[u8], u64>) -> bool {
    match read_state(alloc, bytes) {
        Ok((_, missing)) => expected == Ok(missing),
        Err(StateError::Damaged(line)) => expected == Err(line),
        Err(_) => false,
    }
}

#[test]
fn damaged_state_files_are_refused(rt: HostRuntime) -> Result<(), Fail> {
    for (front, lines, expected) in LACKING {
        let bytes = format!(in rt.alloc(); "{front}{lines}")?;
        if !lacks(rt.alloc(), bytes.as_bytes(), expected) {
            return Err(Fail::from(lines));
        }
    }
    Ok(())
}

/// Appends the line of a record of such a size. Returns `false` if there is no memory for it.
fn append_record(alloc: Global, bytes: &mut Vec<u8>, name: &[u8], size: u64) -> bool {
    match record_line(alloc, name, &record_of(size, (0, 0), RecordedState::Sound)) {
        Ok(line) => bytes.extend_from_slice(line.as_bytes()).is_ok(),
        Err(_) => false,
    }
}

/// The last record of a name counts.
#[test]
fn last_records_count(rt: HostRuntime) -> Result<(), Fail> {
    let mut bytes = FRONT.as_bytes().to_vec(rt.alloc())?;
    for (name, size) in [(b"a", 1), (b"b", 2), (b"a", 3)] {
        if !append_record(rt.alloc(), &mut bytes, name, size) {
            return Err(Fail::from("out of memory"));
        }
    }
    let Ok((records, _)) = read_state(rt.alloc(), bytes.as_slice()) else {
        return Err(Fail::from("a damaged file"));
    };
    for (name, size) in [(b"a", 3), (b"b", 2), (b"c", 0)] {
        if records.find(name).map_or(0, |record| record.stamp.size) != size {
            return Err(Fail::from(size));
        }
    }
    Ok(())
}

/// A run with the state file that the run before it left, and what comes of it.
#[derive(Clone, Copy)]
struct Step {
    words: &'static str,
    /// The bytes of `two`, in a notation, and its time.
    two: (&'static str, i64),
    /// The status, the number of reads, and whether the state file is unchanged.
    outcome: (u8, u64, bool),
    lines: &'static str,
}

/// Files of which each has a time, and how often one was read. `busy` is written while it is read, and `gone` is missing. The
/// directory `in` has a second name of `two`, which is missing if it has no bytes.
#[derive(Drop)]
struct Dated<'a> {
    reads: &'a AtomicU64,
    step: Step,
}

impl<'a> Directory for Dated<'a> {
    fn read(&self, alloc: Global, name: &str) -> Result<Vec<u8>, ReadError> {
        self.reads.fetch_add(1, Ordering::SeqCst);
        let words = match name {
            "two" | "in/two.jpg" => self.step.two.0,
            "ten" | "busy" | "-" => TEN,
            "progressive" => "S FF C2",
            _ => return Err(ReadError::NotFound),
        };
        match file(alloc, words) {
            Ok(bytes) => Ok(bytes),
            Err(_) => Err(ReadError::Memory),
        }
    }

    fn stamp(&self, name: &str) -> Option<Stamp> {
        let seconds = match name {
            "two" => self.step.two.1,
            "in/two.jpg" if !self.step.two.0.is_empty() => self.step.two.1,
            "ten" | "progressive" => 7,
            "busy" => (self.reads.load(Ordering::SeqCst) % 100) as i64,
            _ => return None,
        };
        Some(Stamp {
            size: 1,
            seconds,
            nanos: 0,
        })
    }

    fn entries(&self, alloc: Global, name: &str) -> Result<Option<Vec<Entry>>, ReadError> {
        if name != "in" {
            return Ok(None);
        }
        let mut entries = Vec::new(alloc);
        if !self.step.two.0.is_empty() {
            let Ok(name) = b"in/two.jpg".as_slice().to_vec(alloc) else {
                return Err(ReadError::Memory);
            };
            let kind = EntryKind::File;
            if entries.push(Entry { name, kind }).is_err() {
                return Err(ReadError::Memory);
            }
        }
        Ok(Some(entries))
    }
}

/// A state file, which takes bytes up to its room.
#[derive(Drop)]
struct Log<'a, R> {
    rt: &'a R,
    bytes: &'a Mutex<Vec<u8>>,
    space: usize,
}

impl<'a, R: Wait> Write for Log<'a, R> {
    fn write(&mut self, bytes: &[u8]) -> IoResult<usize> {
        let mut all = self.bytes.lock(self.rt);
        let count = self.space.saturating_sub(all.len()).min(bytes.len());
        all.extend_from_slice(&bytes[..count])?;
        Ok(count)
    }

    fn flush(&mut self) -> IoResult<()> {
        Ok(())
    }
}

/// Makes the run of a step, and returns whether what comes of it is what the step says, and the run ended so.
fn is_run<R: Threads + Wait + Sync + AllocGlobal>(
    rt: &R,
    bytes: &Mutex<Vec<u8>>,
    space: usize,
    step: &Step,
    end: CheckEnd,
) -> Result<bool, Fail> {
    let alloc: Global = rt.alloc();
    let asked = request_of(alloc, step.words)?;
    let before = bytes.lock(rt).as_slice().to_vec(alloc)?;
    let log = Log { rt, bytes, space };
    let Ok(state) = State::open(alloc, before.as_slice(), log, asked.is_verifying) else {
        return Err(Fail::from("a damaged state file"));
    };
    let (reads, is_strict) = (AtomicU64::new(0), asked.is_strict);
    let directory = Dated {
        reads: &reads,
        step: *step,
    };
    let state = Some(state);
    let out = Vec::new(alloc);
    let source = CheckSource { directory, state };
    let (report, lines) = check_all(rt, alloc, source, asked, NO_LIST, out, NoProgress);
    let is_kept = bytes.lock(rt).as_slice() == before.as_slice();
    let (status, read, unchanged) = step.outcome;
    Ok(
        report.end == end
            && report.status(is_strict) == status
            && reads.load(Ordering::SeqCst) == read
            && is_kept == unchanged
            && lines.as_slice() == step.lines.as_bytes(),
    )
}

/// Two intervals of one MCU, both sound, and the second without its bits.
const TWO: &str = "GI 63 FF D0 63 E";

const CUT: &str = "GI 63 FF D0 E";

const FIVE: &str = "-j 3 --state s two ten progressive gone busy";

const VERIFY: &str = "-j 3 --verify --counts --state s two ten";

/// A first run, which records a file.
const FIRST: Step = Step {
    words: "--state s two",
    two: (TWO, 7),
    outcome: (0, 1, false),
    lines: "two: sound, 2 intervals\n",
};

/// Unchanged files are not read, but for one that is written meanwhile.
static UNCHANGED: [Step; 2] = [
    Step {
        words: FIVE,
        two: (TWO, 7),
        outcome: (3, 5, false),
        lines: "two: sound, 2 intervals\nten: sound, 10 intervals\n\
                progressive: unsupported 5: progressive JPEG (SOF2) is not supported\n\
                gone: cannot be read: no such file\nbusy: sound, 10 intervals\n",
    },
    Step {
        words: FIVE,
        two: (TWO, 7),
        outcome: (3, 2, true),
        lines: "two: unchanged, sound\nten: unchanged, sound\nprogressive: unchanged, unsupported\n\
                gone: cannot be read: no such file\nbusy: sound, 10 intervals\n",
    },
];

/// A file of another time is a new version, and is recorded again.
static NEW_VERSION: [Step; 3] = [
    FIRST,
    Step {
        words: "--state s two",
        two: (CUT, 8),
        outcome: (1, 1, false),
        lines: "two: damaged, 1 of 2 intervals, lines 0 to 7\n",
    },
    Step {
        words: "--state s two",
        two: (CUT, 8),
        outcome: (1, 0, true),
        lines: "two: unchanged, damaged\n",
    },
];

const CHANGED: Step = Step {
    words: VERIFY,
    two: (CUT, 7),
    outcome: (1, 2, true),
    lines: "two: changed, damaged, 1 of 2 intervals, lines 0 to 7\nten: sound, 10 intervals\n\
            1 sound, 1 changed\n",
};

/// Each verification reports changed bytes, since the record stays.
static VERIFICATIONS: [Step; 4] = [
    Step {
        words: "--state s two ten",
        two: (TWO, 7),
        outcome: (0, 2, false),
        lines: "two: sound, 2 intervals\nten: sound, 10 intervals\n",
    },
    Step {
        words: VERIFY,
        two: (TWO, 7),
        outcome: (0, 2, true),
        lines: "two: sound, 2 intervals\nten: sound, 10 intervals\n2 sound\n",
    },
    CHANGED,
    CHANGED,
];

/// A verification reports a file of other bytes and another time, and not one of another time alone.
static NEW_BYTES: [Step; 5] = [
    FIRST,
    Step {
        words: "--verify --counts --state s two",
        two: (CUT, 8),
        outcome: (1, 1, false),
        lines: "two: new version, damaged, 1 of 2 intervals, lines 0 to 7\n\
                0 sound, 1 damaged, 1 new version\n",
    },
    Step {
        words: "--verify --strict -q --counts --state s two two",
        two: (TWO, 9),
        outcome: (6, 2, false),
        lines: "two: new version, sound, 2 intervals\ntwo: new version, sound, 2 intervals\n\
                2 sound, 2 new versions\n",
    },
    Step {
        words: "--verify --strict -q --counts --state s two",
        two: (TWO, 10),
        outcome: (0, 1, false),
        lines: "1 sound\n",
    },
    Step {
        words: "--verify --strict --json --counts --state s two",
        two: (CUT, 11),
        outcome: (1, 1, false),
        lines: "{\"file\":\"two\",\"new_version\":true,\"is\":\"damaged\",\"damaged\":1,\"first_line\":0,\"last_line\":7,\"intervals\":2,\"width\":16,\"height\":8,\"bytes\":151}\n\
                {\"sound\":0,\"damaged\":1,\"refused\":0,\"unsupported\":0,\"unread\":0,\"out_of_memory\":0,\"new_versions\":1}\n",
    },
];

/// The words of a run over a directory, and of one that verifies it.
const SEARCH: &str = "-r --state s in";

const SEARCH_AGAIN: &str = "-r -q --verify --state s ten in";

/// A verification reports a record below a directory that it searches if the file is gone.
static MISSING: [Step; 5] = [
    Step {
        words: SEARCH,
        two: (TWO, 7),
        outcome: (0, 1, false),
        lines: "in/two.jpg: sound, 2 intervals\n",
    },
    Step {
        words: SEARCH,
        two: ("", 0),
        outcome: (0, 0, true),
        lines: "",
    },
    Step {
        words: SEARCH_AGAIN,
        two: ("", 0),
        outcome: (0, 1, false),
        lines: "in/two.jpg: missing\n",
    },
    Step {
        words: "-r --verify --strict --state s ten",
        two: ("", 0),
        outcome: (0, 1, true),
        lines: "ten: sound, 10 intervals\n",
    },
    Step {
        words: "-r --json --counts --verify --strict --state s in",
        two: ("", 0),
        outcome: (6, 0, true),
        lines: "{\"file\":\"in/two.jpg\",\"is\":\"missing\"}\n\
                {\"sound\":0,\"damaged\":0,\"refused\":0,\"unsupported\":0,\"unread\":0,\"out_of_memory\":0,\"missing\":1}\n",
    },
];

/// The objects of files that are unchanged, changed and refused.
static OBJECTS: [Step; 3] = [
    FIRST,
    Step {
        words: "--json --state s two",
        two: (TWO, 7),
        outcome: (0, 0, true),
        lines: "{\"file\":\"two\",\"is\":\"unchanged\",\"was\":\"sound\"}\n",
    },
    Step {
        words: "--json --counts --verify --state s two",
        two: ("S FF C2", 7),
        outcome: (1, 1, true),
        lines: "{\"file\":\"two\",\"is\":\"changed\",\"now\":\"unsupported\",\"refusal\":5,\"detail\":194,\"why\":\"progressive JPEG (SOF2) is not supported\"}\n\
                {\"sound\":0,\"damaged\":0,\"refused\":0,\"unsupported\":0,\"unread\":0,\"out_of_memory\":0,\"changed\":1}\n",
    },
];

#[test]
fn files_are_read_and_recorded(rt: HostRuntime) -> Result<(), Fail> {
    let sequences: [&[Step]; 6] = [
        &UNCHANGED,
        &NEW_VERSION,
        &VERIFICATIONS,
        &NEW_BYTES,
        &MISSING,
        &OBJECTS,
    ];
    for steps in sequences {
        let bytes = Mutex::new(Vec::new(rt.alloc()));
        for step in steps {
            if !is_run(&rt, &bytes, 10_000, step, CheckEnd::AllReported)? {
                return Err(Fail::from(step.lines));
            }
        }
    }
    Ok(())
}

/// A run ends if a record cannot be written.
#[test]
fn full_state_files_end_runs(rt: HostRuntime) -> Result<(), Fail> {
    let step = Step {
        words: "-j 1 two two",
        outcome: (4, 1, false),
        ..FIRST
    };
    let bytes = Mutex::new(Vec::new(rt.alloc()));
    assert!(rt; is_run(&rt, &bytes, FRONT.len() + 10, &step, CheckEnd::Unrecorded)?);
    Ok(())
}
