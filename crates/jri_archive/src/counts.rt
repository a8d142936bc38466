//! The number of files in each state, and the exit status.

ghost use Rattle.std.specs.Prelude.{◌≡◌, not};
ghost use Rattle.jri_archive.specs.Status.{counts_with, files_in, findings_with, findings_in, check_status};
ghost use Rattle.jri_archive.specs.Reporting.{is_open};

/// The state of a file.
#[derive(Clone, Copy, PartialEq, Eq)]
pub enum FileState {
    /// No interval of its scan is damaged.
    Sound,
    /// Some are.
    Damaged,
    /// Its header is refused, and it is damaged or not a JPEG file.
    Refused,
    /// Its header is refused, and it may be a valid JPEG file.
    Unsupported,
    /// It cannot be read.
    Unread,
    /// Memory ran out; nothing is known of it.
    OutOfMemory,
    /// An entry of a directory that may be a file of any kind. No count has it.
    Skipped,
    /// Its bytes are not those of its record, though its size and time are.
    Changed,
}

/// The number of files in each state.
#[derive(Clone, Copy)]
pub struct FileCounts {
    pub sound: u64,
    pub damaged: u64,
    pub refused: u64,
    pub unsupported: u64,
    pub unread: u64,
    pub out_of_memory: u64,
    pub changed: u64,
}

impl FileCounts {
    /// Returns the counts of no file.
    pub fn none() -> FileCounts
        ensures { files_in result ≡ 0 }
    {
        FileCounts {
            sound: 0,
            damaged: 0,
            refused: 0,
            unsupported: 0,
            unread: 0,
            out_of_memory: 0,
            changed: 0,
        }
    }

    /// Returns these counts with one more file.
    pub fn with(self, state: FileState) -> FileCounts
        ensures { result ≡ counts_with self state }
    {
        let mut counts = self;
        match state {
            FileState::Sound => counts.sound = counts.sound.saturating_add(1),
            FileState::Damaged => counts.damaged = counts.damaged.saturating_add(1),
            FileState::Refused => counts.refused = counts.refused.saturating_add(1),
            FileState::Unsupported => counts.unsupported = counts.unsupported.saturating_add(1),
            FileState::Unread => counts.unread = counts.unread.saturating_add(1),
            FileState::OutOfMemory => {
                counts.out_of_memory = counts.out_of_memory.saturating_add(1);
            }
            FileState::Changed => counts.changed = counts.changed.saturating_add(1),
            FileState::Skipped => {}
        }
        counts
    }
}

/// What is found besides the states of files.
#[derive(Clone, Copy)]
pub enum Finding {
    /// A file has other bytes than its record, and another size or time.
    NewVersion,
    /// The file of a record is gone.
    Missing,
    /// A file has a value that no 8-bit image has.
    Doubtful,
}

/// The number of files of which each is found.
#[derive(Clone, Copy)]
pub struct Findings {
    pub new_versions: u64,
    pub missing: u64,
    pub doubtful: u64,
}

impl Findings {
    /// Returns the findings of no file.
    pub fn none() -> Findings
        ensures { findings_in result ≡ 0 }
    {
        Findings {
            new_versions: 0,
            missing: 0,
            doubtful: 0,
        }
    }

    /// Returns these findings with one more.
    pub fn with(self, finding: Finding) -> Findings
        ensures { result ≡ findings_with self finding }
    {
        let mut findings = self;
        match finding {
            Finding::NewVersion => findings.new_versions = findings.new_versions.saturating_add(1),
            Finding::Missing => findings.missing = findings.missing.saturating_add(1),
            Finding::Doubtful => findings.doubtful = findings.doubtful.saturating_add(1),
        }
        findings
    }
}

/// Why no further file is reported.
#[derive(Clone, Copy, PartialEq, Eq)]
pub enum CheckEnd {
    /// Each file has its line.
    AllReported,
    /// Further names could not be read.
    NamesUnread,
    /// No name of the list ends in a NUL byte.
    NamesUnended,
    /// The lines could not be written to their end.
    Unwritten,
    /// Memory ran out for a name or a line.
    Memory,
    /// A record could not be written to the state file.
    Unrecorded,
}

impl CheckEnd {
    /// Returns whether no further line is written.
    pub(crate) fn is_last(self) -> bool
        ensures { result ≡ not (is_open self) }
    {
        matches!(
            self,
            CheckEnd::Unwritten | CheckEnd::Memory | CheckEnd::Unrecorded
        )
    }
}

/// What all files came to.
#[derive(Clone, Copy)]
pub struct CheckReport {
    /// The counts of those whose lines are written.
    pub counts: FileCounts,
    pub findings: Findings,
    pub end: CheckEnd,
}

impl CheckReport {
    /// Returns the exit status, the first that applies: 4 if memory, the output or the state file failed, 3 if a
    /// file, or a name, could not be read, 1 if a file is damaged, refused or changed, 6 if there are findings and
    /// `is_strict` is set, 5 if a file is unsupported, 0 if each file is sound.
    pub fn status(&self, is_strict: bool) -> u8
        ensures { result ≡ check_status self.now is_strict }
    {
        let counts = &self.counts;
        if self.end.is_last() || counts.out_of_memory > 0 {
            return 4;
        }
        if self.end != CheckEnd::AllReported || counts.unread > 0 {
            return 3;
        }
        if counts.damaged > 0 || counts.refused > 0 || counts.changed > 0 {
            return 1;
        }
        let found = &self.findings;
        if is_strict && (found.new_versions > 0 || found.missing > 0 || found.doubtful > 0) {
            return 6;
        }
        if counts.unsupported > 0 {
            return 5;
        }
        0
    }
}
