//! Writing records, in the form that the options ask for.

ghost use Rattle.std.specs.Prelude.{◌≡◌, ◌≤◌, ◌∷◌, [], Err, IfOk, OnOk, OnErr};
ghost use Rattle.stk_base.specs.Causes.{Rose};
ghost use Rattle.stk_base.specs.Streams.{Appended, AppendedPrefix};
ghost use Rattle.stk_records.specs.Form.{written_line, written_records, written_summary};

use crate::{Counts, Line, Options, add_json_line, add_line};
use std::alloc::Global;
use stk_base::{Failed, NoMemory, Sink, write_all};

/// Why the writing of records ends early.
#[derive(Clone, Copy, Debug, PartialEq, Eq)]
pub enum Stop {
    /// The output can't be written.
    WriteFault,
    /// Memory ran out.
    NoMemory,
}

impl From<Failed> for Stop {
    ghost use Rattle.stk_records.specs.declared.writing.Stop.TheVariants as stops;

    ghost from_gives = { λ _ e. e ≡ stops.WriteFault };

    fn from(_: Failed) -> Self {
        Stop::WriteFault
    }
}

impl From<NoMemory> for Stop {
    ghost use Rattle.stk_records.specs.declared.writing.Stop.TheVariants as stops;

    ghost from_gives = { λ _ e. e ≡ stops.NoMemory };

    fn from(_: NoMemory) -> Self {
        Stop::NoMemory
    }
}

// A line as JSON, or as a text.
fn written_line(alloc: Global, json: bool, line: &Line) -> Result<Vec<u8>, NoMemory>
    ensures { IfOk result (λ text. text.items ≡ written_line json line.now) }
{
    let mut text = Vec::new(alloc);
    if json {
        add_json_line(alloc, &mut text, line)?;
    } else {
        add_line(&mut text, line)?;
    }
    Ok(text)
}

// Writes a line.
fn write_line<K: Sink>(alloc: Global, json: bool, line: &Line, out: &mut K) -> Result<(), Stop>
    ensures all { OnOk result (Appended (K.taken out.old) (K.taken out.new) (written_line json line.now)) }
    ensures prefix { OnErr result (AppendedPrefix (K.taken out.old) (K.taken out.new) (written_line json line.now)) }
    ensures later { K.faults out.old ≤ K.faults out.new }
    ensures fault { result ≡ Err Stop.WriteFault → Rose (K.faults out.old) (K.faults out.new) }
{
    let text = written_line(alloc, json, line)?;
    write_all(out, text.as_slice())?;
    Ok(())
}

/// Writes the record of a line to a sink, in the form that the options ask for; nothing where they ask for a generated
/// text. `WriteFault` comes only where the sink counted a fault. Where the writing stops, the sink took some prefix of
/// the record. It isn't flushed.
pub fn write_record<K: Sink>(
    alloc: Global,
    options: Options,
    line: &Line,
    out: &mut K,
) -> Result<(), Stop>
    ensures all { OnOk result (Appended (K.taken out.old) (K.taken out.new) (written_records options (line.now ∷ []))) }
    ensures prefix { OnErr result (AppendedPrefix (K.taken out.old) (K.taken out.new) (written_records options (line.now ∷ []))) }
    ensures later { K.faults out.old ≤ K.faults out.new }
    ensures fault { result ≡ Err Stop.WriteFault → Rose (K.faults out.old) (K.faults out.new) }
{
    if options.generate.is_some() {
        return Ok(());
    }
    write_line(alloc, options.json, line, out)
}

/// Writes the summary of these counts to a sink, in the form and with the kinds of conditions taken out that the
/// options name. The refusals are those of `write_record`. It isn't flushed.
pub fn write_summary<K: Sink>(
    alloc: Global,
    options: Options,
    counts: Counts,
    out: &mut K,
) -> Result<(), Stop>
    ensures all { OnOk result (Appended (K.taken out.old) (K.taken out.new) (written_summary options.json options.without counts)) }
    ensures prefix { OnErr result (AppendedPrefix (K.taken out.old) (K.taken out.new) (written_summary options.json options.without counts)) }
    ensures later { K.faults out.old ≤ K.faults out.new }
    ensures fault { result ≡ Err Stop.WriteFault → Rose (K.faults out.old) (K.faults out.new) }
{
    let line = Line::Summary {
        counts,
        without: options.without,
    };
    write_line(alloc, options.json, &line, out)
}
