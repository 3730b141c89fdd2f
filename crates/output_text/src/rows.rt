// The text of a row.
ghost use Rattle.std.specs.Prelude.{◌≡◌, ◌∷◌, ◌++◌, [], map, Option, OnOk, OnErr};
ghost use Rattle.std.specs.Fmt.{decimal};
ghost use Rattle.exact_frac.specs.Printed.{IsPrinted};
ghost use Rattle.sand_base.specs.Faults.{HasCause};
ghost use Rattle.sand_model.specs.OutputText.{PrintsRow, tabbed, value_text};
ghost use Rattle.output_text.specs.Forming.{BreaksSome, Forms, FormsSome};
ghost use Rattle.output_text.specs.Joined.{led};
ghost use Rattle.output_text.specs.Writing.{AddsPrefix};

use crate::pending::Pending;
use exact_frac::Frac;
use sand_base::{Failed, Sink, Value};

impl Pending {
    // A value behind a tab.
    fn put_next_value<K: Sink>(&mut self, out: &mut K, value: &Value) -> Result<(), Failed>
        ensures formed { OnOk result (Forms (K.took out.old) (K.took out.new) self.old self.new (9 ∷ value_text value.now)) }
        ensures prefix { OnErr result (AddsPrefix (K.took out.old) (K.took out.new) (self.old ++ 9 ∷ value_text value.now)) }
        ensures cause { HasCause (K.faults out.old) (K.faults out.new) result }
    {
        self.put(out, b"\t")?;
        self.put_value(out, value)?;
        Ok(())
    }

    // Values, each behind a tab.
    fn put_more_values<K: Sink>(&mut self, out: &mut K, values: &[Value]) -> Result<(), Failed>
        ensures formed { OnOk result (Forms (K.took out.old) (K.took out.new) self.old self.new (led (9 ∷ []) (map value_text values.now))) }
        ensures prefix { OnErr result (AddsPrefix (K.took out.old) (K.took out.new) (self.old ++ led (9 ∷ []) (map value_text values.now))) }
        ensures cause { HasCause (K.faults out.old) (K.faults out.new) result }
    {
        'values: for value in values {
            self.put_next_value(out, value)?;
        }
        Ok(())
    }

    // Values with a tab between each two.
    fn put_values<K: Sink>(&mut self, out: &mut K, values: &[Value]) -> Result<(), Failed>
        ensures formed { OnOk result (Forms (K.took out.old) (K.took out.new) self.old self.new (tabbed (map value_text values.now))) }
        ensures prefix { OnErr result (AddsPrefix (K.took out.old) (K.took out.new) (self.old ++ tabbed (map value_text values.now))) }
        ensures cause { HasCause (K.faults out.old) (K.faults out.new) result }
    {
        let [first, more @ ..] = values else {
            return Ok(());
        };
        self.put_value(out, first)?;
        self.put_more_values(out, more)?;
        Ok(())
    }

    // Ids and values, each behind a tab.
    fn put_more_places<K: Sink>(
        &mut self,
        out: &mut K,
        ids: &[u32],
        values: &[Value],
    ) -> Result<(), Failed>
        ensures formed { OnOk result (Forms (K.took out.old) (K.took out.new) self.old self.new (led (9 ∷ []) (map decimal ids.now ++ map value_text values.now))) }
        ensures prefix { OnErr result (AddsPrefix (K.took out.old) (K.took out.new) (self.old ++ led (9 ∷ []) (map decimal ids.now ++ map value_text values.now))) }
        ensures cause { HasCause (K.faults out.old) (K.faults out.new) result }
    {
        self.put_numbers(out, b"\t", ids)?;
        self.put_more_values(out, values)?;
        Ok(())
    }

    // Ids and values with a tab between each two.
    fn put_places<K: Sink>(
        &mut self,
        out: &mut K,
        ids: &[u32],
        values: &[Value],
    ) -> Result<(), Failed>
        ensures formed { OnOk result (Forms (K.took out.old) (K.took out.new) self.old self.new (tabbed (map decimal ids.now ++ map value_text values.now))) }
        ensures prefix { OnErr result (AddsPrefix (K.took out.old) (K.took out.new) (self.old ++ tabbed (map decimal ids.now ++ map value_text values.now))) }
        ensures cause { HasCause (K.faults out.old) (K.faults out.new) result }
    {
        let [id, more @ ..] = ids else {
            self.put_values(out, values)?;
            return Ok(());
        };
        self.put_number(out, b"", u64::from(*id))?;
        self.put_more_places(out, more, values)?;
        Ok(())
    }

    // A gap: one that is a whole number of 64 bits goes without a text of its own.
    fn put_gap<K: Sink>(&mut self, out: &mut K, gap: Frac) -> Result<(), Failed>
        ensures formed { OnOk result (FormsSome (IsPrinted gap.num gap.den) (K.took out.old) (K.took out.new) self.old self.new) }
        ensures prefix { OnErr result (BreaksSome (IsPrinted gap.num gap.den) (K.took out.old) (K.took out.new) self.old) }
        ensures cause { HasCause (K.faults out.old) (K.faults out.new) result }
    {
        if gap.den() == 1 && gap.num() <= u128::from(u64::MAX) {
            self.put_number(out, b"", gap.num() as u64)?;
            return Ok(());
        }
        let text = gap.text();
        self.put(out, text.as_bytes())?;
        Ok(())
    }

    // A row whose gap is there.
    fn put_measured<K: Sink>(
        &mut self,
        out: &mut K,
        gap: Frac,
        ids: &[u32],
        values: &[Value],
    ) -> Result<(), Failed>
        ensures formed { OnOk result (FormsSome (PrintsRow (record { gap = Some gap; ids = ids.now; values = values.now })) (K.took out.old) (K.took out.new) self.old self.new) }
        ensures prefix { OnErr result (BreaksSome (PrintsRow (record { gap = Some gap; ids = ids.now; values = values.now })) (K.took out.old) (K.took out.new) self.old) }
        ensures cause { HasCause (K.faults out.old) (K.faults out.new) result }
    {
        self.put_gap(out, gap)?;
        self.put_more_places(out, ids, values)?;
        Ok(())
    }

    /// A row: its gap where it has one, its ids and its values, with a tab between each two.
    pub fn put_row<K: Sink>(
        &mut self,
        out: &mut K,
        gap: Option<Frac>,
        ids: &[u32],
        values: &[Value],
    ) -> Result<(), Failed>
        ensures formed { OnOk result (FormsSome (PrintsRow (record { gap = gap; ids = ids.now; values = values.now })) (K.took out.old) (K.took out.new) self.old self.new) }
        ensures prefix { OnErr result (BreaksSome (PrintsRow (record { gap = gap; ids = ids.now; values = values.now })) (K.took out.old) (K.took out.new) self.old) }
        ensures cause { HasCause (K.faults out.old) (K.faults out.new) result }
    {
        match gap {
            Some(gap) => {
                self.put_measured(out, gap, ids, values)?;
                Ok(())
            }
            None => {
                self.put_places(out, ids, values)?;
                Ok(())
            }
        }
    }
}
