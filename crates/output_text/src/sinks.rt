ghost use Rattle.std.specs.Prelude.{OnOk, OnErr};
ghost use Rattle.sand_base.specs.Faults.{HasCause};
ghost use Rattle.sand_base.specs.Streams.{Adds};
ghost use Rattle.output_text.specs.Writing.{AddsPrefix};

use sand_base::{Failed, Sink};

// Writes all the bytes, piece by piece.
fn write_pieces<K: Sink>(out: &mut K, text: &[u8]) -> Result<(), Failed>
    ensures written { OnOk result (Adds (K.took out.old) (K.took out.new) text.now) }
    ensures prefix { OnErr result (AddsPrefix (K.took out.old) (K.took out.new) text.now) }
    ensures cause { HasCause (K.faults out.old) (K.faults out.new) result }
{
    let mut at = 0;
    'pieces: while at < text.len() {
        at += out.write(&text[at..])?;
    }
    Ok(())
}

/// Writes all the bytes. A failed write is not tried again: after `Failed` the sink took a prefix of them.
pub fn write_all<K: Sink>(out: &mut K, text: &[u8]) -> Result<(), Failed>
    ensures written { OnOk result (Adds (K.took out.old) (K.took out.new) text.now) }
    ensures prefix { OnErr result (AddsPrefix (K.took out.old) (K.took out.new) text.now) }
    ensures cause { HasCause (K.faults out.old) (K.faults out.new) result }
{
    if text.is_empty() {
        return Ok(());
    }
    // One write takes all of them as a rule.
    let count = out.write(text)?;
    if count < text.len() {
        write_pieces(out, &text[count..])?;
    }
    Ok(())
}
