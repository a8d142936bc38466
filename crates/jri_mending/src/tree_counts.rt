//! What comes of the names in several directories, and how many there are of each.

ghost use Rattle.std.specs.Prelude.{◌≤◌};

use std::alloc::AllocError;

/// What comes of a name.
#[derive(Clone, Copy, PartialEq, Eq)]
pub(crate) enum NameState {
    /// The mended file is sound.
    Mended,
    /// An interval of the mended file is damaged in all copies.
    Damaged,
    /// The copies are equal.
    Equal,
    /// The directory of the mended files has the name.
    There,
    /// The name is neither UTF-8 nor that of a JPEG file.
    Skipped,
    /// A copy has another header than the first.
    OtherHead,
    /// A copy cannot be read, or is refused.
    Unread,
    /// Memory ran out, or the mended file is not written.
    Failed,
}

impl NameState {
    /// Returns the state of a name whose copies have an error of this exit status.
    pub(crate) fn of_error(status: u8) -> NameState {
        match status {
            2 => NameState::OtherHead,
            3 => NameState::Unread,
            _ => NameState::Failed,
        }
    }
}

/// The number of names of each state, without those that are skipped.
#[derive(Clone, Copy)]
pub(crate) struct NameCounts {
    mended: u64,
    damaged: u64,
    equal: u64,
    there: u64,
    other_head: u64,
    unread: u64,
    failed: u64,
}

impl NameCounts {
    /// No name.
    pub(crate) const NONE: NameCounts = NameCounts {
        mended: 0,
        damaged: 0,
        equal: 0,
        there: 0,
        other_head: 0,
        unread: 0,
        failed: 0,
    };

    /// Counts a name.
    pub(crate) fn count(&mut self, state: NameState) {
        let counter = match state {
            NameState::Mended => &mut self.mended,
            NameState::Damaged => &mut self.damaged,
            NameState::Equal => &mut self.equal,
            NameState::There => &mut self.there,
            NameState::OtherHead => &mut self.other_head,
            NameState::Unread => &mut self.unread,
            NameState::Failed => &mut self.failed,
            NameState::Skipped => return,
        };
        *counter = counter.saturating_add(1);
    }

    /// Returns the greatest exit status of the names.
    pub(crate) fn status(&self) -> u8
        ensures { result ≤ 4 }
    {
        if self.failed > 0 {
            4
        } else if self.unread > 0 {
            3
        } else if self.other_head > 0 {
            2
        } else if self.damaged > 0 {
            1
        } else {
            0
        }
    }

    /// Returns the numbers in the order of a line, with what follows each in text and its name in an object.
    fn rows(&self) -> [(u64, &'static str, &'static str); 7] {
        [
            (self.mended, " mended", "mended"),
            (self.damaged, " damaged in all copies", "damaged"),
            (self.equal, " equal", "equal"),
            (self.there, " already there", "there"),
            (self.other_head, " with different headers", "other_header"),
            (self.unread, " refused or not read", "unread"),
            (self.failed, " not written", "unwritten"),
        ]
    }

    /// Appends the line of the counts. As text it has those that are not 0, and the first.
    pub(crate) fn append_to(&self, line: &mut String, is_json: bool) -> Result<(), AllocError> {
        for (number, (count, text, key)) in self.rows().into_iter().enumerate() {
            if is_json {
                let before = if number == 0 { "{" } else { "," };
                write!(line, "{before}\"{key}\":{count}")?;
            } else if number == 0 || count > 0 {
                let before = if number == 0 { "" } else { ", " };
                write!(line, "{before}{count}{text}")?;
            }
        }
        line.push_str(if is_json { "}\n" } else { "\n" })
    }
}
