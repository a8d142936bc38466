//! The record of a file in a state file.

ghost use Rattle.std.specs.Prelude.{◌≡◌, IfSome};
ghost use Rattle.jri_archive.specs.Records.{file_state};

use crate::counts::FileState;

/// The size and time of a file, by which a change is seen without reading it.
#[derive(Clone, Copy, PartialEq, Eq)]
pub struct Stamp {
    /// The size of the file in bytes.
    pub size: u64,
    /// The time at which it was last modified, in seconds since 1970.
    pub seconds: i64,
    /// The nanoseconds of that time, 0 to 999,999,999.
    pub nanos: u32,
}

/// The recorded verdict of a file.
#[derive(Clone, Copy, PartialEq, Eq)]
pub enum RecordedState {
    Sound,
    Damaged,
    Refused,
    Unsupported,
}

/// The record of a file.
#[derive(Clone, Copy)]
pub struct FileRecord {
    /// The SHA-256 of its bytes.
    pub hash: [u8; 32],
    pub stamp: Stamp,
    pub state: RecordedState,
}

impl RecordedState {
    /// Returns the state of the file.
    pub fn file_state(self) -> FileState
        ensures { result ≡ file_state self }
    {
        match self {
            RecordedState::Sound => FileState::Sound,
            RecordedState::Damaged => FileState::Damaged,
            RecordedState::Refused => FileState::Refused,
            RecordedState::Unsupported => FileState::Unsupported,
        }
    }

    /// Returns the recorded verdict of a file in this state; `None` if it is not recorded.
    pub(crate) fn of(state: FileState) -> Option<RecordedState>
        ensures { IfSome result (λ s. file_state s ≡ state) }
    {
        match state {
            FileState::Sound => Some(RecordedState::Sound),
            FileState::Damaged => Some(RecordedState::Damaged),
            FileState::Refused => Some(RecordedState::Refused),
            FileState::Unsupported => Some(RecordedState::Unsupported),
            _ => None,
        }
    }

    /// Returns its text.
    pub fn text(self) -> &'static str {
        match self {
            RecordedState::Sound => "sound",
            RecordedState::Damaged => "damaged",
            RecordedState::Refused => "refused",
            RecordedState::Unsupported => "unsupported",
        }
    }

    /// Returns the verdict of this text.
    pub(crate) fn of_text(text: &str) -> Option<RecordedState> {
        match text {
            "sound" => Some(RecordedState::Sound),
            "damaged" => Some(RecordedState::Damaged),
            "refused" => Some(RecordedState::Refused),
            "unsupported" => Some(RecordedState::Unsupported),
            _ => None,
        }
    }
}
