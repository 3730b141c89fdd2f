ghost use Rattle.std.specs.Prelude.{◌≡◌, ◌+◌, ◌^◌, ◌<◌, ◌≤◌, ℕ, List, [], ◌∷◌, ◌++◌, length, map, IfOk, IfSome, IfNone};
ghost use Rattle.std.specs.Int.{w16, w32, to_be_bytes};
ghost use Rattle.std.specs.List.{AllByRecursion, flat_map};
ghost use Rattle.script_text.specs.Name.{IsName};
ghost use Rattle.sand_journal.specs.ChangeBody.{IsEncodingShort, framed_row};
ghost use Rattle.sand_journal.specs.RowsBody.{AreFramedRows, AreCountedRows, IsRowsBody};

use crate::read_name::split_name;
use crate::{Encodings, LONGEST_ENCODING};
use sand_base::{Label, NoMemory};
use std::alloc::Global;
use std::str;

// The size at the front, in two bytes, and what follows it.
fn split_size(bytes: &[u8]) -> Option<(u16, &[u8])>
    ensures found { IfSome result (λ split. (split.0 < 2 ^ 16) × (bytes.now ≡ to_be_bytes w16 split.0 ++ split.1.now)) }
    ensures none { IfNone result ((size : ℕ) (rest : List ℕ) → bytes.now ≡ to_be_bytes w16 size ++ rest → ⊥) }
{
    match bytes {
        [high, low, rest @ ..] => Some((u16::from_be_bytes([*high, *low]), rest)),
        _ => None,
    }
}

// The count at the front, in four bytes, and what follows it.
fn split_count(bytes: &[u8]) -> Option<(u32, &[u8])>
    ensures found { IfSome result (λ split. (split.0 < 2 ^ 32) × (bytes.now ≡ to_be_bytes w32 split.0 ++ split.1.now)) }
    ensures none { IfNone result ((count : ℕ) (rest : List ℕ) → bytes.now ≡ to_be_bytes w32 count ++ rest → ⊥) }
{
    match bytes {
        [a, b, c, d, rest @ ..] => Some((u32::from_be_bytes([*a, *b, *c, *d]), rest)),
        _ => None,
    }
}

// The row at the front, in its frame, and what follows it.
fn split_row(bytes: &[u8]) -> Option<(&[u8], &[u8])>
    ensures found { IfSome result (λ split. IsEncodingShort split.0.now × (bytes.now ≡ framed_row split.0.now ++ split.1.now)) }
    ensures none { IfNone result ((row rest : List ℕ) → IsEncodingShort row → bytes.now ≡ framed_row row ++ rest → ⊥) }
{
    let Some((size, after)) = split_size(bytes) else {
        return None;
    };
    let size = usize::from(size);
    if size > LONGEST_ENCODING || size > after.len() {
        return None;
    }
    Some(after.split_at(size))
}

// The rows that the bytes are, so many of them, each in its frame.
fn split_rows(alloc: Global, bytes: &[u8], count: u32) -> Result<Option<Vec<Vec<u8>>>, NoMemory>
    ensures { IfOk result (AreFramedRows bytes.now count) }
{
    let mut rows = Vec::new(alloc);
    let mut rest = bytes;
    'rows: while rows.len() < count as usize {
        let Some((row, after)) = split_row(rest) else {
            return Ok(None);
        };
        rows.push(row.to_vec(alloc)?)?;
        rest = after;
    }
    if !rest.is_empty() {
        return Ok(None);
    }
    Ok(Some(rows))
}

// The rows that the bytes are, behind their count.
fn read_counted(alloc: Global, bytes: &[u8]) -> Result<Option<Vec<Vec<u8>>>, NoMemory>
    ensures { IfOk result (AreCountedRows bytes.now) }
{
    match split_count(bytes) {
        Some((count, rest)) => split_rows(alloc, rest, count),
        None => Ok(None),
    }
}

/// The relation and the rows whose body these bytes end, None where they end that of no rows.
pub(crate) fn read_rows(alloc: Global, bytes: &[u8]) -> Result<Option<(Label, Encodings)>, NoMemory>
    requires { length bytes.now + 1 < 2 ^ 32 }
    ensures { IfOk result (IsRowsBody bytes.now) }
{
    let Some((name, rest)) = split_name(bytes) else {
        return Ok(None);
    };
    let Some(rows) = read_counted(alloc, rest)? else {
        return Ok(None);
    };
    let relation = Label::new(alloc, name)?;
    Ok(Some((relation, Encodings::new(rows))))
}
