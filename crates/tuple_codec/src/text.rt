// A text at the front of some bytes.
ghost use Rattle.std.specs.Prelude.{◌≡◌, ◌≤◌, length, IfOk, MatchOption};
ghost use Rattle.std.specs.Char.{is_control};
ghost use Rattle.std.specs.List.{list_any};
ghost use Rattle.std.specs.Str.{chars};
ghost use Rattle.sand_base.specs.InRange.{IsTextInRange};
ghost use Rattle.tuple_codec.specs.Encoding.{text_bytes};
ghost use Rattle.tuple_codec.specs.Front.{Takes};

use crate::reader::Reader;
use sand_base::{Label, NoMemory};
use std::alloc::Global;
use std::str;

// Whether the text has a control character.
fn has_control(text: &str) -> bool
    ensures { result ≡ list_any is_control (chars text.now) }
{
    text.chars().any(|c| c.is_control())
}

// The bytes as a text, or None where they are no UTF-8 or have a control character.
fn plain_text(bytes: &[u8]) -> Option<&str>
    requires { length bytes.now ≤ 255 }
    ensures { MatchOption result (¬ (IsTextInRange bytes.now)) (λ text. (text.now ≡ bytes.now) × IsTextInRange bytes.now) }
{
    let Ok(text) = str::from_utf8(bytes) else {
        return None;
    };
    if has_control(text) {
        return None;
    }
    Some(text)
}

// A text of 0 to 255 bytes.
pub(crate) fn read_text(alloc: Global, reader: &mut Reader) -> Result<Option<Label>, NoMemory>
    ensures { IfOk result (λ found. Takes IsTextInRange text_bytes reader.old.left.now found reader.new.left.now) }
{
    let Some(count) = reader.byte() else {
        return Ok(None);
    };
    let Some(bytes) = reader.piece(usize::from(count)) else {
        return Ok(None);
    };
    let Some(text) = plain_text(bytes) else {
        return Ok(None);
    };
    Ok(Some(Label::new(alloc, text)?))
}
