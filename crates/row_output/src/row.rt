ghost use Rattle.std.specs.Prelude.{◌≡◌, [], ◌∷◌, OnOk, OnErr};
ghost use Rattle.sand_base.specs.Faults.{HasCause};
ghost use Rattle.sand_model.specs.Cursor.{Row};
ghost use Rattle.sand_model.specs.OutputText.{IsText};
ghost use Rattle.output_text.specs.Writing.{Writes, WritesPrefix};
ghost use Rattle.plan_iterator.specs.Rows.{row_of};

use output_text::{LineRef, write_line};
use plan_iterator::Answer;
use sand_base::{Failed, Sink};

/// Writes the line of a row.
pub fn print_row<K: Sink>(out: &mut K, row: &Answer) -> Result<(), Failed>
    ensures written { OnOk result (Writes (IsText (Row (row_of row.now) ∷ [])) (K.took out.old) (K.took out.new)) }
    ensures prefix { OnErr result (WritesPrefix (IsText (Row (row_of row.now) ∷ [])) (K.took out.old) (K.took out.new)) }
    ensures cause { HasCause (K.faults out.old) (K.faults out.new) result }
{
    let line = LineRef::Row {
        gap: row.gap,
        ids: row.ids.as_slice(),
        values: row.values.values(),
    };
    write_line(out, &line)?;
    Ok(())
}
