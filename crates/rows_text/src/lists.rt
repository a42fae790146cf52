// The send list of each rate, for both constraint lengths.
ghost use Rattle.std.specs.Prelude.{◌≡◌, Some, OnOk};
ghost use Rattle.std.specs.List.{flat_map};
ghost use Rattle.std.specs.Io.KnownBytes.{Appends};
ghost use Rattle.plan.specs.Plans.{plan_scheme};
ghost use Rattle.rows.specs.Rows.{row_entry};
ghost use Rattle.rows.specs.declared.row.Entry.{Entry};
ghost use Rattle.rows_text.specs.Lists.{listed_entry, scheme_line, list_line, lists_text};

use plan::Plan;
use rows::{Rate, Row};
use std::alloc::Global;
use std::io::Write;
use std::{fmt, io};

// The entries of a send list: one line's loop, too little to share.
#[derive(Clone, Copy)]
struct EntriesText<'a>(&'a [u8]);

impl fmt::Display for EntriesText<'_> {
    ghost output = { λ text. Some (flat_map listed_entry text.0.now) };

    fn fmt<W: fmt::Write>(&self, f: &mut fmt::Formatter<W>) -> fmt::Result {
        for entry in self.0 {
            write!(f, " {entry}")?;
        }
        Ok(())
    }
}

// The rate, the constraint length and the period, and then the list.
#[derive(Clone, Copy)]
struct ListText<'a> {
    rate: Rate,
    plan: &'a Plan,
}

impl fmt::Display for ListText<'_> {
    ghost output = { λ text. Some (scheme_line text.rate (plan_scheme text.plan.now)) };

    fn fmt<W: fmt::Write>(&self, f: &mut fmt::Formatter<W>) -> fmt::Result {
        let rate = self.rate;
        let parts = self.plan.parts();
        let constraint = parts.constraint;
        let period = parts.period;
        let entries = EntriesText(parts.send_list.as_slice());
        write!(f, "{rate} with {constraint}: {period},{entries}\n")
    }
}

// The list of a row. Every row that is asked for is the standard's, so only memory can be wanting.
fn write_list<W: Write>(heap: Global, output: &mut W, row: Row, constraint: usize) -> io::Result<()>
    ensures { OnOk result ((e : Entry) × (row_entry row ≡ Some e) × Appends (W.contents output.old) (W.contents output.new) (list_line e.rate constraint)) }
{
    let (Some(entry), Ok(plan)) = (row.entry(), row.plan(heap, constraint)) else {
        return Err(io::Error::from(io::ErrorKind::OutOfMemory));
    };
    let list = ListText {
        rate: entry.rate,
        plan: &plan,
    };
    write!(output, "{list}")
}

// A bandwidth and a waveform for each rate. The heap is for the plans.
pub fn write_lists<W: Write>(heap: Global, output: &mut W) -> io::Result<()>
    ensures { OnOk result (Appends (W.contents output.old) (W.contents output.new) lists_text) }
{
    for (bandwidth, waveform) in [
        (21, 12),
        (3, 11),
        (18, 12),
        (21, 11),
        (3, 5),
        (3, 4),
        (3, 13),
        (9, 3),
        (3, 3),
        (3, 2),
        (15, 2),
        (3, 1),
        (15, 1),
        (21, 1),
    ] {
        let row = Row {
            bandwidth,
            waveform,
            interleaver: 0,
        };
        write_list(heap, output, row, 7)?;
        write_list(heap, output, row, 9)?;
    }
    Ok(())
}
