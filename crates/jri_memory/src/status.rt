//! The statuses of the calls.

/// Done, by a call that does not judge the restart intervals.
pub const OK: u32 = 0;

/// Done, and no interval is damaged.
pub const SOUND: u32 = 0;

/// Memory was refused.
pub const NO_MEMORY: u32 = 1;

/// The file is refused.
pub const REFUSED: u32 = 2;

/// Some intervals are damaged.
pub const DAMAGED: u32 = 3;

/// A buffer is too small.
pub const BUFFER_TOO_SMALL: u32 = 4;

/// The image has no such lines.
pub const NO_LINES: u32 = 5;

/// There is no such layout, or a line is longer than the stride.
pub const NO_LAYOUT: u32 = 6;

/// The bytes so far end before the header does.
pub const NEED_MORE: u32 = 7;

/// The file that would be written is longer than a file may be.
pub const TOO_LONG: u32 = 8;

/// There are no copies, or more than there may be, or they have more bytes than are there.
pub const NO_COPIES: u32 = 9;

/// A copy has another header than the first.
pub const OTHER_HEADER: u32 = 10;

/// The position is before the first byte of the window, or after its end.
pub const NOT_IN_WINDOW: u32 = 11;
