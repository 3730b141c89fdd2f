// Rows that are short: all of the line has room in the buffer, and is one write.
ghost use Rattle.std.specs.Prelude.{◌≡◌, ◌<◌, ◌≤◌, ◌^◌, ◌∷◌, [], IsTrue, length, Some, OnOk, OnErr};
ghost use Rattle.sand_base.specs.Faults.{HasCause};
ghost use Rattle.sand_model.specs.Cursor.{Row};
ghost use Rattle.sand_model.specs.OutputText.{IsText};
ghost use Rattle.output_text.specs.Short.{IsShortRow};
ghost use Rattle.output_text.specs.Writing.{Writes, WritesPrefix};
ghost use Rattle.output_text.specs.declared.short_rows.TheConstants.{MOST_IDS};

use crate::pending::Pending;
use exact_frac::Frac;
use sand_base::{Failed, Sink, Value};

/// How many ids a short row has at most.
pub const MOST_IDS: usize = 3;

/// Whether a row is short: its gap is a whole number of 64 bits, its ids are few, and no values were fetched.
#[inline]
pub fn is_short(gap: &Frac, ids: &[u32], values: &[Value]) -> bool
    ensures { IsTrue result → IsShortRow gap.now.num gap.now.den ids.now values.now }
{
    gap.den() == 1 && gap.num() < 1 << 64 && ids.len() <= MOST_IDS && values.is_empty()
}

/// Writes the line of a short row.
pub fn write_short_row<K: Sink>(out: &mut K, gap: Frac, ids: &[u32]) -> Result<(), Failed>
    requires { IsShortRow gap.num gap.den ids.now [] }
    ensures written { OnOk result (Writes (IsText (Row (record { gap = Some gap; ids = ids.now; values = [] }) ∷ [])) (K.took out.old) (K.took out.new)) }
    ensures prefix { OnErr result (WritesPrefix (IsText (Row (record { gap = Some gap; ids = ids.now; values = [] }) ∷ [])) (K.took out.old) (K.took out.new)) }
    ensures cause { HasCause (K.faults out.old) (K.faults out.new) result }
{
    let mut pending = Pending::new();
    pending.append_number(gap.num() as u64);
    pending.append_tabbed(ids);
    pending.end_short(out)?;
    Ok(())
}
