ghost use Rattle.std.specs.Prelude.{◌≡◌};
ghost use Rattle.page_pool.specs.Disk.{PageMap};
ghost use Rattle.sand_base.specs.declared.value.Value.{Value};
ghost use Rattle.sand_model.specs.Database.{Database};
ghost use Rattle.statements.specs.declared.column.Column.{Column};
ghost use Rattle.plan_names.specs.Equals.{equals, above};
ghost use Rattle.plan_names.specs.Indexed.{IsLookUp};
ghost use Rattle.plan_names.specs.declared.look_up.LookUp.{LookUp};

/// Ids begin at 1, so a look-up that begins above 0 comes to all rows with an equal value.
pub fn all_rows_are_above_0()
    ensures { (d : Database) (column : Column) (l : LookUp) (pages : PageMap) (v : Value) → IsLookUp d column l pages → above 0 (equals d column v) ≡ equals d column v }
{}
