//! A row of the table.

use test_files::error::NotationError;

/// A row's fields, as the table has them.
#[derive(Clone, Copy)]
pub(crate) struct Row<'a> {
    pub name: &'a str,
    /// The file, in the notation of files.
    pub file: &'a str,
    /// The number of intervals that are decoded, if not all are.
    pub first: Option<u32>,
    /// The least and the greatest length to which the file is cut, if it is.
    pub cut: Option<(usize, usize)>,
    /// The width, the height and the number of components in the frame header of a refused file; 0 if it has none.
    pub size: (u32, u32, u32),
    /// Whether the stored run of `jri_check` has the file; such a file is also cut and changed at each byte.
    pub is_stored: bool,
    /// The lines of the report, separated by `/`.
    pub report: &'a str,
    pub status: u8,
    /// The image, in the notation of images; empty if the file is refused.
    pub picture: &'a str,
    /// The lines of a check with a map, separated by `/`; nothing if its one line follows from the report.
    pub damaged: &'a str,
}

/// Returns the part of a text of this number, between separators; nothing if the text has fewer.
pub(crate) fn part(text: &str, separator: char, number: usize) -> &str {
    text.split(separator).nth(number).unwrap_or("")
}

/// Returns the lengths of the option `cut`, as `2..145`.
fn lengths_of(digits: &str) -> Result<(usize, usize), NotationError> {
    let (least, most) = digits.split_once("..").ok_or(NotationError::Malformed)?;
    Ok((least.parse::<usize>()?, most.parse::<usize>()?))
}

/// Returns the width, the height and the number of components of the option `size`, as `24,16,1`.
fn size_of(digits: &str) -> Result<(u32, u32, u32), NotationError> {
    let (width, others) = digits.split_once(',').ok_or(NotationError::Malformed)?;
    let (height, components) = others.split_once(',').ok_or(NotationError::Malformed)?;
    Ok((
        width.parse::<u32>()?,
        height.parse::<u32>()?,
        components.parse::<u32>()?,
    ))
}

/// Changes a row as an option says.
fn set(row: &mut Row<'_>, word: &str) -> Result<(), NotationError> {
    match word.split_once('=') {
        None if word == "stored" => row.is_stored = true,
        Some(("first", digits)) => row.first = Some(digits.parse::<u32>()?),
        Some(("cut", digits)) => row.cut = Some(lengths_of(digits)?),
        Some(("size", digits)) => row.size = size_of(digits)?,
        _ => return Err(NotationError::Malformed),
    }
    Ok(())
}

/// Returns the field of this number, without the spaces around it; nothing if the line has fewer.
pub(crate) fn field(line: &str, number: usize) -> &str {
    part(line, '|', number).trim()
}

/// Returns the row that a line of the table has.
pub(crate) fn row_of(line: &str) -> Result<Row<'_>, NotationError> {
    if line.split('|').count() != 7 {
        return Err(NotationError::Malformed);
    }
    let mut row = Row {
        name: field(line, 0),
        file: field(line, 1),
        first: None,
        cut: None,
        size: (0, 0, 0),
        is_stored: false,
        report: field(line, 3),
        status: field(line, 4).parse::<u8>()?,
        picture: field(line, 5),
        damaged: field(line, 6),
    };
    for word in field(line, 2).split_whitespace() {
        set(&mut row, word)?;
    }
    Ok(row)
}
