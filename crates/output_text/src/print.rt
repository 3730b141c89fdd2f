// The text of a line.
ghost use Rattle.std.specs.Prelude.{◌≡◌, ◌∷◌, ◌++◌, [], codes, OnOk, OnErr};
ghost use Rattle.std.specs.Fmt.{decimal};
ghost use Rattle.sand_base.specs.Faults.{HasCause};
ghost use Rattle.sand_base.specs.Refusal.{refusal_word};
ghost use Rattle.sand_model.specs.OutputText.{IsText, PrintsLine, detail, ids_text, leaf_text, refused_text, stats_text};
ghost use Rattle.z_code.specs.Block.{IsBlock};
ghost use Rattle.output_text.specs.Forming.{BreaksSome, Forms, FormsSome};
ghost use Rattle.output_text.specs.Joined.{led};
ghost use Rattle.output_text.specs.Line.{IsPrintable, line_of};
ghost use Rattle.output_text.specs.Writing.{AddsPrefix, Writes, WritesPrefix};

use crate::LineRef;
use crate::pending::{MOST_DIGITS, Pending};
use crate::short_rows::{is_short, write_short_row};
use sand_base::{Failed, Refusal, Sink};
use z_code::Block;

impl Pending {
    // The counts and the rows of a cursor: words of 32 bytes in all, and four numbers.
    fn put_stats<K: Sink>(
        &mut self,
        out: &mut K,
        blocks: u64,
        pairs: u64,
        geometries: u64,
        rows: u64,
    ) -> Result<(), Failed>
        ensures formed { OnOk result (Forms (K.took out.old) (K.took out.new) self.old self.new (stats_text (record { blocks = blocks; pairs = pairs; geometries = geometries }) rows)) }
        ensures prefix { OnErr result (AddsPrefix (K.took out.old) (K.took out.new) (self.old ++ stats_text (record { blocks = blocks; pairs = pairs; geometries = geometries }) rows)) }
        ensures cause { HasCause (K.faults out.old) (K.faults out.new) result }
    {
        self.reserve(out, 32 + 4 * MOST_DIGITS)?;
        self.append(b"blocks ");
        self.append_number(blocks);
        self.append(b" pairs ");
        self.append_number(pairs);
        self.append(b" geometries ");
        self.append_number(geometries);
        self.append(b" rows ");
        self.append_number(rows);
        Ok(())
    }

    // The ids of a leaf.
    fn put_leaf_ids<K: Sink>(&mut self, out: &mut K, ids: &[u32]) -> Result<(), Failed>
        ensures formed { OnOk result (Forms (K.took out.old) (K.took out.new) self.old self.new (ids_text ids.now)) }
        ensures prefix { OnErr result (AddsPrefix (K.took out.old) (K.took out.new) (self.old ++ ids_text ids.now)) }
        ensures cause { HasCause (K.faults out.old) (K.faults out.new) result }
    {
        let [first, more @ ..] = ids else {
            self.put(out, b"-")?;
            return Ok(());
        };
        self.put_number(out, b"", u64::from(*first))?;
        self.put_numbers(out, b" ", more)?;
        Ok(())
    }

    // Three numbers, each with a tab behind it.
    fn put_head<K: Sink>(&mut self, out: &mut K, level: u8, x: u32, y: u32) -> Result<(), Failed>
        ensures formed { OnOk result (Forms (K.took out.old) (K.took out.new) self.old self.new (decimal level ++ 9 ∷ decimal x ++ 9 ∷ decimal y ++ 9 ∷ [])) }
        ensures prefix { OnErr result (AddsPrefix (K.took out.old) (K.took out.new) (self.old ++ (decimal level ++ 9 ∷ decimal x ++ 9 ∷ decimal y ++ 9 ∷ []))) }
        ensures cause { HasCause (K.faults out.old) (K.faults out.new) result }
    {
        self.reserve(out, 3 * (MOST_DIGITS + 1))?;
        self.append_number(u64::from(level));
        self.push(b'\t');
        self.append_number(u64::from(x));
        self.push(b'\t');
        self.append_number(u64::from(y));
        self.push(b'\t');
        Ok(())
    }

    // A leaf: its level, the low corner of its square, and its ids.
    fn put_leaf<K: Sink>(&mut self, out: &mut K, block: Block, ids: &[u32]) -> Result<(), Failed>
        requires { IsBlock block }
        ensures formed { OnOk result (Forms (K.took out.old) (K.took out.new) self.old self.new (leaf_text block ids.now)) }
        ensures prefix { OnErr result (AddsPrefix (K.took out.old) (K.took out.new) (self.old ++ leaf_text block ids.now)) }
        ensures cause { HasCause (K.faults out.old) (K.faults out.new) result }
    {
        let corner = block.rect().low;
        self.put_head(out, block.level, corner.x, corner.y)?;
        self.put_leaf_ids(out, ids)?;
        Ok(())
    }

    // A word behind a space.
    fn put_next_word<K: Sink>(&mut self, out: &mut K, word: &str) -> Result<(), Failed>
        ensures formed { OnOk result (Forms (K.took out.old) (K.took out.new) self.old self.new (32 ∷ word.now)) }
        ensures prefix { OnErr result (AddsPrefix (K.took out.old) (K.took out.new) (self.old ++ 32 ∷ word.now)) }
        ensures cause { HasCause (K.faults out.old) (K.faults out.new) result }
    {
        self.put(out, b" ")?;
        self.put(out, word.as_bytes())?;
        Ok(())
    }

    // What stands behind the word of a refusal.
    fn put_detail<K: Sink>(&mut self, out: &mut K, why: Refusal) -> Result<(), Failed>
        ensures formed { OnOk result (Forms (K.took out.old) (K.took out.new) self.old self.new (led (codes " ") (detail why))) }
        ensures prefix { OnErr result (AddsPrefix (K.took out.old) (K.took out.new) (self.old ++ led (codes " ") (detail why))) }
        ensures cause { HasCause (K.faults out.old) (K.faults out.new) result }
    {
        match why {
            Refusal::Syntax { column } => {
                self.put_number(out, b" ", u64::from(column))?;
                Ok(())
            }
            Refusal::Damaged { page, .. } => {
                self.put_number(out, b" ", page)?;
                Ok(())
            }
            Refusal::BadRecord { row, column } => {
                self.put_numbers(out, b" ", &[row, column])?;
                Ok(())
            }
            _ => Ok(()),
        }
    }

    // A refusal: its number, its word, and what stands behind them.
    fn put_refusal<K: Sink>(&mut self, out: &mut K, why: Refusal) -> Result<(), Failed>
        ensures formed { OnOk result (Forms (K.took out.old) (K.took out.new) self.old self.new (refused_text why)) }
        ensures prefix { OnErr result (AddsPrefix (K.took out.old) (K.took out.new) (self.old ++ refused_text why)) }
        ensures cause { HasCause (K.faults out.old) (K.faults out.new) result }
    {
        self.put_number(out, b"refused ", u64::from(why.number()))?;
        self.put_next_word(out, why.word())?;
        self.put_detail(out, why)?;
        Ok(())
    }

    // A line without its line feed.
    fn put_line<K: Sink>(&mut self, out: &mut K, line: &LineRef) -> Result<(), Failed>
        requires { IsPrintable line.now }
        ensures formed { OnOk result (FormsSome (PrintsLine (line_of line.now)) (K.took out.old) (K.took out.new) self.old self.new) }
        ensures prefix { OnErr result (BreaksSome (PrintsLine (line_of line.now)) (K.took out.old) (K.took out.new) self.old) }
        ensures cause { HasCause (K.faults out.old) (K.faults out.new) result }
    {
        match line {
            LineRef::Accepted => {
                self.put(out, b"ok")?;
                Ok(())
            }
            LineRef::Id(id) => {
                self.put_number(out, b"id ", u64::from(*id))?;
                Ok(())
            }
            LineRef::Loaded(rows) => {
                self.put_number(out, b"loaded ", u64::from(*rows))?;
                Ok(())
            }
            LineRef::Row { gap, ids, values } => {
                self.put_row(out, *gap, ids, values)?;
                Ok(())
            }
            LineRef::End => {
                self.put(out, b"end")?;
                Ok(())
            }
            LineRef::Stats {
                blocks,
                pairs,
                geometries,
                rows,
            } => {
                self.put_stats(out, *blocks, *pairs, *geometries, *rows)?;
                Ok(())
            }
            LineRef::Leaf { block, ids } => {
                self.put_leaf(out, *block, ids)?;
                Ok(())
            }
            LineRef::Refused(why) => {
                self.put_refusal(out, *why)?;
                Ok(())
            }
        }
    }
}

// Writes a line with its line feed, part by part.
#[inline(never)]
fn write_parts<K: Sink>(out: &mut K, line: &LineRef) -> Result<(), Failed>
    requires { IsPrintable line.now }
    ensures written { OnOk result (Writes (IsText (line_of line.now ∷ [])) (K.took out.old) (K.took out.new)) }
    ensures prefix { OnErr result (WritesPrefix (IsText (line_of line.now ∷ [])) (K.took out.old) (K.took out.new)) }
    ensures cause { HasCause (K.faults out.old) (K.faults out.new) result }
{
    let mut pending = Pending::new();
    pending.put_line(out, line)?;
    pending.end(out)?;
    Ok(())
}

/// Writes a line with its line feed. It takes no memory. A failed write is not tried again: after `Failed` the sink
/// took a prefix of the line.
#[inline]
pub fn write_line<K: Sink>(out: &mut K, line: &LineRef) -> Result<(), Failed>
    requires { IsPrintable line.now }
    ensures written { OnOk result (Writes (IsText (line_of line.now ∷ [])) (K.took out.old) (K.took out.new)) }
    ensures prefix { OnErr result (WritesPrefix (IsText (line_of line.now ∷ [])) (K.took out.old) (K.took out.new)) }
    ensures cause { HasCause (K.faults out.old) (K.faults out.new) result }
{
    match line {
        LineRef::Row {
            gap: Some(gap),
            ids,
            values,
        } if is_short(gap, ids, values) => {
            write_short_row(out, *gap, ids)?;
            Ok(())
        }
        _ => {
            write_parts(out, line)?;
            Ok(())
        }
    }
}
