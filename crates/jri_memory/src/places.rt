//! From the bytes of a file, or some of them, to rows of MCUs of its image starting at a position.

ghost use Rattle.std.specs.Prelude.{◌≡◌, ◌≢◌, ℕ, Err, length, true, false, IfOk, IfErr, OnOk, IfSome, IfNone, ◌⊎◌};
ghost use Rattle.jr_segments.specs.declared.refusal.Refusal.TheVariants.{Memory};
ghost use Rattle.jr_head.specs.Heads.{HeadOf};
ghost use Rattle.jr_arrival.specs.Parts.{part_of};
ghost use Rattle.jr_arrival.specs.Settled.{WantsMore};
ghost use Rattle.jri_memory.specs.Rows.{ReturnsRows, HasRowAt, IsInPart, IsPartialFault, IsWhy, LiesInside, SkipsRows};

use crate::file_head::head_of;
use crate::rows_report::RowsReport;
use jr_arrival::{FileBytes, RowPlace, decode_rows, is_position, rows_with_space, skip_rows};
use jr_head::Head;
use jr_segments::Refusal;
use std::alloc::Global;

/// Why a position is not moved.
#[derive(Clone, Copy)]
pub(crate) enum PlaceError {
    /// The file is refused, or memory is.
    Refused(Refusal),
    /// The image has no row of MCUs there, or none was asked for.
    NoRows,
    /// The pixels are too small for the next row's lines.
    BufferTooSmall,
    /// The position is not in the window.
    NotInWindow,
}

/// The bytes from which rows are read: those that have the header, and some of the file's.
#[derive(Clone, Copy)]
pub(crate) struct RowSource<'a> {
    pub header: &'a [u8],
    pub window: FileBytes<'a>,
}

/// Returns whether an image has a row of MCUs at a position, and some are asked for.
fn has_row_at(head: &Head, place: &RowPlace, rows: u32) -> bool
    ensures there { result ≡ true → HasRowAt head.now place.now rows }
    ensures not_there { result ≡ false → HasRowAt head.now place.now rows → ⊥ }
{
    0 < rows && place.row < head.mcus_down() && is_position(head, place)
}

/// Returns whether a position of an image is at a byte of a window, or after its last one.
fn is_in_window(head: &Head, place: &RowPlace, window: FileBytes<'_>) -> bool
    ensures there { result ≡ true → IsInPart (part_of window.entry) head.now place.now }
    ensures not_there { result ≡ false → IsInPart (part_of window.entry) head.now place.now → ⊥ }
{
    let at = place.at.max(head.scan_at());
    window.from <= at && at - window.from <= window.bytes.len() as u64
}

/// Returns the header of the image, or `None` if more bytes may come and are wanted for it.
fn head_from(alloc: Global, source: RowSource<'_>) -> Result<Option<Head>, Refusal>
    ensures head { IfOk result (λ o. IfSome o (HeadOf source.entry.header.now)) }
    ensures wanted { IfOk result (λ o. IfNone o (WantsMore source.entry.header.now)) }
    ensures more { IfOk result (λ o. IfNone o (source.entry.window.are_all ≡ false)) }
    ensures refusal { IfErr result (λ f. f ≢ Memory → IsPartialFault source.entry.header.now source.entry.window.are_all f) }
{
    let first = FileBytes {
        from: 0,
        bytes: source.header,
        are_all: source.window.are_all,
    };
    head_of(alloc, first)
}

/// Decodes the next rows of MCUs starting at a position of an image into the start of `pixels`, and moves it past them.
fn decode_there(
    alloc: Global,
    head: &Head,
    source: RowSource<'_>,
    place: &mut RowPlace,
    rows: u32,
    pixels: &mut [u8],
) -> Result<RowsReport, PlaceError>
    requires { HeadOf source.header.now head.now }
    ensures given { IfOk result (λ r. ReturnsRows source.entry.header.now (part_of source.entry.window) rows place.old place.new pixels.old pixels.new r) }
    ensures why { IfErr result (IsWhy source.entry.header.now (part_of source.entry.window) place.old rows (length pixels.old)) }
    ensures inside { result ≢ Err PlaceError.NotInWindow }
    ensures place { IfErr result (λ _. place.new ≡ place.old) }
    ensures pixels { IfErr result (λ _. pixels.new ≡ pixels.old) }
{
    if !has_row_at(head, place, rows) {
        return Err(PlaceError::NoRows);
    }
    if rows_with_space(head, place.row, pixels.len()) == 0 {
        return Err(PlaceError::BufferTooSmall);
    }
    let Ok(next) = decode_rows(alloc, head, source.window, place, rows, pixels) else {
        return Err(PlaceError::Refused(Refusal::Memory));
    };
    let report = RowsReport::of(head, place.row, next.row);
    *place = next;
    Ok(report)
}

/// Decodes the next rows of MCUs starting at a position of a file, once its header is there.
pub(crate) fn decode_from(
    alloc: Global,
    source: RowSource<'_>,
    place: &mut RowPlace,
    rows: u32,
    pixels: &mut [u8],
) -> Result<RowsReport, PlaceError>
    ensures given { IfOk result (λ r. ReturnsRows source.entry.header.now (part_of source.entry.window) rows place.old place.new pixels.old pixels.new r) }
    ensures why { IfErr result (IsWhy source.entry.header.now (part_of source.entry.window) place.old rows (length pixels.old)) }
    ensures inside { result ≢ Err PlaceError.NotInWindow }
    ensures place { IfErr result (λ _. place.new ≡ place.old) }
    ensures pixels { IfErr result (λ _. pixels.new ≡ pixels.old) }
{
    match head_from(alloc, source) {
        Ok(Some(head)) => decode_there(alloc, &head, source, place, rows, pixels),
        Ok(None) => Ok(RowsReport::empty()),
        Err(refusal) => Err(PlaceError::Refused(refusal)),
    }
}

/// Decodes the next rows of MCUs starting at a position of a file, once its header is there and the window has the
/// position.
pub(crate) fn decode_in_window(
    alloc: Global,
    source: RowSource<'_>,
    place: &mut RowPlace,
    rows: u32,
    pixels: &mut [u8],
) -> Result<RowsReport, PlaceError>
    ensures given { IfOk result (λ r. ReturnsRows source.entry.header.now (part_of source.entry.window) rows place.old place.new pixels.old pixels.new r) }
    ensures why { IfErr result (IsWhy source.entry.header.now (part_of source.entry.window) place.old rows (length pixels.old)) }
    ensures inside { OnOk result (WantsMore source.entry.header.now ⊎ LiesInside source.entry.header.now (part_of source.entry.window) place.old rows) }
    ensures space { result ≡ Err PlaceError.BufferTooSmall → LiesInside source.entry.header.now (part_of source.entry.window) place.old rows }
    ensures place { IfErr result (λ _. place.new ≡ place.old) }
    ensures pixels { IfErr result (λ _. pixels.new ≡ pixels.old) }
{
    match head_from(alloc, source) {
        Ok(Some(head)) => {
            if !has_row_at(&head, place, rows) {
                return Err(PlaceError::NoRows);
            }
            if !is_in_window(&head, place, source.window) {
                return Err(PlaceError::NotInWindow);
            }
            decode_there(alloc, &head, source, place, rows, pixels)
        }
        Ok(None) => Ok(RowsReport::empty()),
        Err(refusal) => Err(PlaceError::Refused(refusal)),
    }
}

/// Skips the next rows of MCUs starting at a position of an image, and moves it past them.
fn skip_there(
    alloc: Global,
    head: &Head,
    source: RowSource<'_>,
    place: &mut RowPlace,
    rows: u32,
) -> Result<RowsReport, PlaceError>
    requires { HeadOf source.header.now head.now }
    ensures skipped { IfOk result (λ r. SkipsRows source.entry.header.now (part_of source.entry.window) rows place.old place.new r) }
    ensures why { IfErr result (λ e. (space : ℕ) → IsWhy source.entry.header.now (part_of source.entry.window) place.old rows space e) }
    ensures other { result ≢ Err PlaceError.BufferTooSmall }
    ensures inside { result ≢ Err PlaceError.NotInWindow }
    ensures place { IfErr result (λ _. place.new ≡ place.old) }
{
    if !has_row_at(head, place, rows) {
        return Err(PlaceError::NoRows);
    }
    let Ok(next) = skip_rows(alloc, head, source.window, place, rows) else {
        return Err(PlaceError::Refused(Refusal::Memory));
    };
    let report = RowsReport::of(head, place.row, next.row);
    *place = next;
    Ok(report)
}

/// Skips the next rows of MCUs starting at a position of a file, once its header is there.
pub(crate) fn skip_from(
    alloc: Global,
    source: RowSource<'_>,
    place: &mut RowPlace,
    rows: u32,
) -> Result<RowsReport, PlaceError>
    ensures skipped { IfOk result (λ r. SkipsRows source.entry.header.now (part_of source.entry.window) rows place.old place.new r) }
    ensures why { IfErr result (λ e. (space : ℕ) → IsWhy source.entry.header.now (part_of source.entry.window) place.old rows space e) }
    ensures other { result ≢ Err PlaceError.BufferTooSmall }
    ensures inside { result ≢ Err PlaceError.NotInWindow }
    ensures place { IfErr result (λ _. place.new ≡ place.old) }
{
    match head_from(alloc, source) {
        Ok(Some(head)) => skip_there(alloc, &head, source, place, rows),
        Ok(None) => Ok(RowsReport::empty()),
        Err(refusal) => Err(PlaceError::Refused(refusal)),
    }
}

/// Skips the next rows of MCUs starting at a position of a file, once its header is there and the window has the
/// position.
pub(crate) fn skip_in_window(
    alloc: Global,
    source: RowSource<'_>,
    place: &mut RowPlace,
    rows: u32,
) -> Result<RowsReport, PlaceError>
    ensures skipped { IfOk result (λ r. SkipsRows source.entry.header.now (part_of source.entry.window) rows place.old place.new r) }
    ensures why { IfErr result (λ e. (space : ℕ) → IsWhy source.entry.header.now (part_of source.entry.window) place.old rows space e) }
    ensures other { result ≢ Err PlaceError.BufferTooSmall }
    ensures inside { OnOk result (WantsMore source.entry.header.now ⊎ LiesInside source.entry.header.now (part_of source.entry.window) place.old rows) }
    ensures place { IfErr result (λ _. place.new ≡ place.old) }
{
    match head_from(alloc, source) {
        Ok(Some(head)) => {
            if !has_row_at(&head, place, rows) {
                return Err(PlaceError::NoRows);
            }
            if !is_in_window(&head, place, source.window) {
                return Err(PlaceError::NotInWindow);
            }
            skip_there(alloc, &head, source, place, rows)
        }
        Ok(None) => Ok(RowsReport::empty()),
        Err(refusal) => Err(PlaceError::Refused(refusal)),
    }
}
