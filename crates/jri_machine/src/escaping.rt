//! Names in lines: as text, and as JSON strings.

ghost use Rattle.std.specs.Prelude.{◌≡◌, ℕ, ◌<◌, ◌≤◌, ◌++◌, ◌∷◌, List, [], length, take, slice_index, IfOk, false};
ghost use Rattle.std.specs.String.{string_bytes};
ghost use Rattle.jri_machine.specs.Escapes.{IsEscaped, IsPlainByte, digit_of, spelt};
ghost use Rattle.jri_machine.specs.Escapes.NamePart.{Number};

use jr_base::Printable;
use std::alloc::AllocError;

/// What escapes a character of a JSON string.
const BACKSLASH: u8 = b'\\';

/// Returns whether a byte of text is escaped in a JSON string, or may move the cursor of a terminal.
fn is_special(byte: u8) -> bool
    ensures { result ≡ false → IsPlainByte byte }
{
    byte < b' ' || byte == b'"' || byte == BACKSLASH || byte == 0x7F
}

/// Returns the number of bytes at the start that are not special.
fn plain_count(bytes: &[u8]) -> usize
    ensures within { result ≤ length bytes.now }
    ensures plain { (k : ℕ) → k < result → IsPlainByte (slice_index bytes.now k) }
{
    let mut count = 0;
    for byte in bytes {
        if is_special(*byte) {
            return count;
        }
        count += 1;
    }
    count
}

/// Returns the text that bytes begin with.
fn text_of(bytes: &[u8]) -> &str
    ensures within { length result.now ≤ length bytes.now }
    ensures text { result.now ≡ take (length result.now) bytes.now }
{
    let end = match str::from_utf8(bytes) {
        Ok(text) => return text,
        Err(error) => error.valid_up_to(),
    };
    match str::from_utf8(&bytes[..end]) {
        Ok(text) => text,
        Err(_) => "",
    }
}

/// Returns a hexadecimal digit.
fn digit(number: u8) -> u8
    requires { number < 16 }
    ensures { result ≡ digit_of number }
{
    if number < 10 {
        b'0' + number
    } else {
        b'a' - 10 + number
    }
}

/// Appends a byte by its number: `\u00` and two digits, or `\udc` and two digits if it is not ASCII, as Python writes bytes
/// that are not UTF-8.
fn write_number(line: &mut String, byte: u8) -> Result<(), AllocError>
    ensures { IfOk result (λ _. string_bytes line.new ≡ string_bytes line.old ++ spelt (Number byte)) }
{
    let bytes = [
        BACKSLASH,
        b'u',
        if byte < 0x80 { b'0' } else { b'd' },
        if byte < 0x80 { b'0' } else { b'c' },
        digit(byte / 16),
        digit(byte % 16),
    ];
    // They are ASCII.
    match str::from_utf8(&bytes) {
        Ok(text) => line.push_str(text),
        Err(_) => Err(AllocError),
    }
}

/// Appends the text of a JSON string from which a name comes back: its text, with controls, quotation marks, backslashes, and
/// bytes that are not UTF-8 by their numbers.
fn write_escaped(line: &mut String, name: &[u8]) -> Result<(), AllocError>
    ensures { IfOk result (λ _. (text : List ℕ) × (string_bytes line.new ≡ string_bytes line.old ++ text) × IsEscaped text name.now) }
{
    let mut at: usize = 0;
    'bytes: while at < name.len() {
        let rest = &name[at..];
        let text = text_of(&rest[..plain_count(rest)]);
        line.push_str(text)?;
        at += text.len();
        if at < name.len() {
            write_number(line, name[at])?;
            at += 1;
        }
    }
    Ok(())
}

/// Appends a name as a JSON string.
pub fn write_string(line: &mut String, name: &[u8]) -> Result<(), AllocError>
    ensures { IfOk result (λ _. (text : List ℕ) × (string_bytes line.new ≡ string_bytes line.old ++ (34 ∷ (text ++ 34 ∷ []))) × IsEscaped text name.now) }
{
    line.push_str("\"")?;
    write_escaped(line, name)?;
    line.push_str("\"")
}

/// Appends a file's name, in which bytes that are not UTF-8 are also written as `?`.
fn write_name(line: &mut String, name: &[u8]) -> Result<(), AllocError> {
    let mut rest = name;
    for _ in 0..=name.len() {
        let text = text_of(rest);
        write!(line, "{}", Printable(text))?;
        if text.len() == rest.len() {
            break;
        }
        line.push('?')?;
        rest = &rest[text.len() + 1..];
    }
    Ok(())
}

/// Begins the line of a file: its name and a colon, or the first member of an object.
pub fn begin_line(line: &mut String, name: &[u8], is_json: bool) -> Result<(), AllocError> {
    if is_json {
        line.push_str("{\"file\":")?;
        return write_string(line, name);
    }
    write_name(line, name)?;
    line.push_str(": ")
}
