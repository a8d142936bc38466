//! The version of the programs and of libjri.

/// The version of `jri`, `jri_check` and libjri, what they are built of, and the toolchain that has proved and compiled
/// them. The build tools write the toolchain's name over `an unnamed toolchain`, padded with spaces at its end, and
/// `tools/install` writes `commit` and the commit's name, which are as long, over the words on the working tree.
pub const VERSION: &str =
    "0.1.0 (built in a working tree, and of no named commit) by an unnamed toolchain";
