ghost use Rattle.std.specs.Prelude.{◌≡◌, ◌+◌, ◌^◌, ◌<◌, ℕ, List, ◌∷◌, length, IfOk, IfSome, IfNone};
ghost use Rattle.sand_journal.specs.ChangeBody.{IsChangeOf};
ghost use Rattle.sand_journal.specs.Images.{IsShort};

use crate::Change;
use crate::read_line::read_line;
use crate::read_name::split_byte;
use crate::read_rows::read_rows;
use crate::write_change::{LINE_BODY, ROWS_BODY};
use sand_base::NoMemory;
use std::alloc::Global;

// What follows the first byte, where it is this one.
fn behind(bytes: &[u8], first: u8) -> Option<&[u8]>
    ensures found { IfSome result (λ rest. bytes.now ≡ first ∷ rest.now) }
    ensures none { IfNone result ((rest : List ℕ) → bytes.now ≡ first ∷ rest → ⊥) }
{
    match split_byte(bytes) {
        Some((byte, rest)) => (byte == first).then_some(rest),
        None => None,
    }
}

// The change of rows whose body these bytes end, None where they end that of no rows.
fn read_rows_change(alloc: Global, bytes: &[u8]) -> Result<Option<Change>, NoMemory>
    requires { length bytes.now + 1 < 2 ^ 32 }
    ensures { IfOk result (IsChangeOf (2 ∷ bytes.now)) }
{
    match read_rows(alloc, bytes)? {
        Some((relation, rows)) => Ok(Some(Change::Rows { relation, rows })),
        None => Ok(None),
    }
}

// The change of rows whose body this is, None where it is that of none.
fn read_other(alloc: Global, body: &[u8]) -> Result<Option<Change>, NoMemory>
    requires short { IsShort body.now }
    requires other { (text : List ℕ) → body.now ≡ 1 ∷ text → ⊥ }
    ensures { IfOk result (IsChangeOf body.now) }
{
    match behind(body, ROWS_BODY) {
        Some(rest) => read_rows_change(alloc, rest),
        None => Ok(None),
    }
}

/// The change whose body this is, None where it is that of none.
pub(crate) fn read_change(alloc: Global, body: &[u8]) -> Result<Option<Change>, NoMemory>
    requires { IsShort body.now }
    ensures { IfOk result (IsChangeOf body.now) }
{
    match behind(body, LINE_BODY) {
        Some(text) => read_line(alloc, text),
        None => read_other(alloc, body),
    }
}
