//! Tests through the crates' public calls, for what the program `cases` does not show: devices, copies of code tables,
//! long headers, scans compared with a plain reader, desks, archives, lines of an arriving file, boards.
#![tactic(auto)]

#[cfg(test)]
mod archive;
#[cfg(test)]
mod archive_state;
#[cfg(test)]
mod arrival;
#[cfg(test)]
mod base;
#[cfg(test)]
mod code;
#[cfg(test)]
mod desk;
#[cfg(test)]
mod head;
#[cfg(test)]
mod plain;
#[cfg(test)]
mod progress;
#[cfg(test)]
mod scan;
#[cfg(test)]
mod wall;
