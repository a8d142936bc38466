//! What programs need of the machine on which they run: arguments and the answer to wrong ones, standard streams, files and
//! directories, the JPEG files among them in order, and names in lines, as text and as JSON strings from which they come back.
#![tactic(auto)]

mod command_line;
mod devices;
mod ended;
mod entries;
mod escaping;
mod labels;
mod laws;
mod listing;
mod machine;
mod noted;
mod reading;
mod retried;
mod source;
mod unasked;
mod walking;

pub use command_line::{arguments, byte_arguments};
pub use devices::{Destination, Devices, Existing, Part};
pub use ended::Ended;
pub use entries::{Entry, EntryKind, ReadError};
pub use escaping::{begin_line, write_string};
pub use labels::{BREAK, Label, Row, in_form, plural, write_row};
pub use laws::names_come_back;
pub use listing::{entries_in, unread};
pub use machine::{Machine, hold_streams};
pub use noted::Noted;
pub use reading::{STREAM, read_bytes, read_stream};
pub use retried::Retried;
pub use source::Source;
pub use unasked::{Unasked, answer, refusal, unreported, wrong};
pub use walking::{DirectoryWalk, NamedFile, is_jpeg};
