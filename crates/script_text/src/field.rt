ghost use Rattle.std.specs.Prelude.{◌≡◌, IfOk, MatchOption, true};
ghost use Rattle.std.specs.Char.{is_ascii_digit, is_control};
ghost use Rattle.std.specs.List.{list_all, list_any};
ghost use Rattle.std.specs.Str.{chars};
ghost use Rattle.sand_base.specs.InRange.{IsTextInRange};
ghost use Rattle.sand_base.specs.Shape.{is_spatial};
ghost use Rattle.sand_base.specs.declared.kind.Kind.TheVariants as kind;
ghost use Rattle.script_text.specs.Field.{ReadsField, is_shape_byte};
ghost use Rattle.script_text.specs.Token.{is_digits, is_number};

use crate::cursor::{Cursor, int};
use crate::lexer::{text_of, unread};
use crate::stuck::Stuck;
use sand_base::{Kind, Label, NoMemory, Value};
use std::alloc::Global;
use std::str;

// Whether all bytes are digits.
fn all_digits(bytes: &[u8]) -> bool
    ensures { result ≡ list_all is_ascii_digit bytes.now }
{
    bytes.iter().all(|b| b.is_ascii_digit())
}

// Whether the bytes are digits, one or more.
fn is_digits(bytes: &[u8]) -> bool
    ensures { result ≡ is_digits bytes.now }
{
    !bytes.is_empty() && all_digits(bytes)
}

// Whether the bytes are digits, which a minus may begin.
fn is_number(bytes: &[u8]) -> bool
    ensures { result ≡ is_number bytes.now }
{
    match bytes {
        [b'-', digits @ ..] => is_digits(digits),
        _ => is_digits(bytes),
    }
}

// The int that the field is.
fn int_field(field: &[u8]) -> Option<Value>
    ensures { ReadsField kind.Int field.now result }
{
    if !is_number(field) {
        return None;
    }
    let Some(number) = int(text_of(field)) else {
        return None;
    };
    Some(Value::Int(number))
}

// Whether the text has a control character.
fn has_control(text: &str) -> bool
    ensures { result ≡ list_any is_control (chars text.now) }
{
    text.chars().any(|c| c.is_control())
}

// The bytes as a text in range.
fn plain_text(bytes: &[u8]) -> Option<&str>
    ensures { MatchOption result (¬ (IsTextInRange bytes.now)) (λ text. (text.now ≡ bytes.now) × IsTextInRange bytes.now) }
{
    if bytes.len() > 255 {
        return None;
    }
    let Ok(text) = str::from_utf8(bytes) else {
        return None;
    };
    if has_control(text) {
        return None;
    }
    Some(text)
}

// The text that the field is.
fn text_field(alloc: Global, field: &[u8]) -> Result<Option<Value>, NoMemory>
    ensures { IfOk result (ReadsField kind.Text field.now) }
{
    let Some(text) = plain_text(field) else {
        return Ok(None);
    };
    let label = Label::new(alloc, text)?;
    Ok(Some(Value::Text(label)))
}

// Whether no tab is among the bytes.
fn has_no_tab(bytes: &[u8]) -> bool
    ensures { result ≡ list_all is_shape_byte bytes.now }
{
    bytes.iter().all(|b| *b != b'\t')
}

// The shape that the field writes in range, if it is of the kind.
fn shape_field(alloc: Global, field: &[u8], kind: Kind) -> Result<Option<Value>, NoMemory>
    requires { is_spatial kind ≡ true }
    ensures { IfOk result (ReadsField kind field.now) }
{
    if !has_no_tab(field) {
        return Ok(None);
    }
    if !unread(field).is_empty() {
        return Ok(None);
    }
    let mut cursor = Cursor::over(field);
    let shape = match cursor.whole_shape(alloc) {
        Ok(shape) => shape,
        Err(Stuck::Memory) => return Err(NoMemory {}),
        Err(Stuck::Here) => return Ok(None),
    };
    if !cursor.is_in_range() {
        return Ok(None);
    }
    if shape.kind() != kind {
        return Ok(None);
    }
    Ok(Some(Value::Shape(shape)))
}

/// Reads a field of a data file as a value of the kind. None exactly where it isn't one: an int is digits, which a minus
/// may begin, in 64 bits; a text is the field itself, well-formed, of at most 255 bytes and without control characters;
/// a shape is written as in a script, with spaces allowed and tabs not.
pub fn read_field(alloc: Global, field: &[u8], kind: Kind) -> Result<Option<Value>, NoMemory>
    ensures { IfOk result (ReadsField kind field.now) }
{
    match kind {
        Kind::Int => Ok(int_field(field)),
        Kind::Text => text_field(alloc, field),
        _ => shape_field(alloc, field, kind),
    }
}
