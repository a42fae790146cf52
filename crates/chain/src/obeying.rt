// What each order does with the files and the streams.
ghost use Rattle.std.specs.Prelude.{ℕ, List, Option, OnOk, IfOk};
ghost use Rattle.std.specs.Io.KnownBytes.{Appends};
ghost use Rattle.comparison.specs.Report.{report};
ghost use Rattle.comparison.specs.declared.comparison.Comparison.{Comparison as Counts};
ghost use Rattle.laboratory.specs.Listing.{plan_text};
ghost use Rattle.orders.specs.declared.order.Order.TheVariants.{Send as SendOrder, Receive as ReceiveOrder};
ghost use Rattle.plan.specs.Plans.{plan_scheme};
ghost use Rattle.plan.specs.Scheme.{Scheme};
ghost use Rattle.receiver.specs.Receivers.{view};
ghost use Rattle.scrambler.specs.Meanings.{table_meaning};
ghost use Rattle.chain.specs.Obeying.{Chosen, Scrambles, Settled, Sent, OnAir, Answered, Received, Counted, Obeyed};
ghost use Rattle.chain.specs.Copies.{CopyIs};

use crate::stop::Stop;
use laboratory::{count, register_table, send_drawn, send_text, table_of, write_plan, write_rows};
use orders::{Choice, Drawing, Order, ScoreKind, Settings};
use plan::Plan;
use reception::{Reception, WrittenKind};
use score::{CountFirst, Total, Worst};
use scrambler::Table;
use std::alloc::Global;
use std::fs;
use std::fs::File;
use std::io::{BufReader, BufWriter, Read, Write, sink};

// Where the blocks that are drawn go, if no other file is named.
const DRAWN: &'static str = "sent.txt";

// Writes to the output, and says on the side how far it is. Only orders to send and to receive read the input.
pub(crate) fn obey<'a, R: Read + Drop, W: Write, P: Write>(
    rt: &HostRuntime,
    order: Order<'a>,
    input: R,
    output: &mut W,
    progress: &mut P,
) -> Result<(), Stop<'a>>
    ensures { OnOk result (Obeyed order.entry (R.remaining input) (W.contents output.old) (W.contents output.new) (P.contents progress.old) (P.contents progress.new)) }
{
    match order {
        Order::Rows => {
            drop(input);
            write_rows(output)?
        }
        Order::Plan(choice) => {
            drop(input);
            show_plan(rt.alloc(), choice, output)?
        }
        Order::Send { choice, settings } => send(rt, choice, settings, input, output)?,
        Order::Receive { choice, settings } => {
            receive(rt, choice, settings, input, output, progress)?
        }
        Order::Count { sent, shown } => {
            drop(input);
            count_files(rt, sent, shown, output)?
        }
    }
    Ok(())
}

fn show_plan<'a, W: Write>(heap: Global, choice: Choice, output: &mut W) -> Result<(), Stop<'a>>
    ensures { OnOk result ((s : Scheme) × Chosen choice s × Appends (W.contents output.old) (W.contents output.new) (plan_text choice.row s)) }
{
    let plan = choice.row.plan(heap, choice.constraint)?;
    Ok(write_plan(output, choice.row, &plan)?)
}

// A file that is read.
fn opened<'a>(rt: &HostRuntime, name: &'a str) -> Result<File, Stop<'a>> {
    fs::open(rt, name).map_err(|error| Stop::File { name, error })
}

// The scrambler of the settings: that of a file, or the register.
fn settled<'a>(rt: &HostRuntime, plan: &Plan, settings: Settings<'a>) -> Result<Table, Stop<'a>>
    ensures { IfOk result (λ t. Settled (plan_scheme plan.now) settings.entry.table (table_meaning t)) }
{
    match settings.table {
        Some(name) => scrambler(rt.alloc(), plan, Some(opened(rt, name)?)),
        None => scrambler(rt.alloc(), plan, None::<File>),
    }
}

// The scrambler that a text says, or the register where there is none.
fn scrambler<'a, R: Read + Drop>(
    heap: Global,
    plan: &Plan,
    text: Option<R>,
) -> Result<Table, Stop<'a>>
    ensures { IfOk result (λ t. Scrambles R.remaining (plan_scheme plan.now) text t) }
{
    match text {
        Some(text) => Ok(table_of(heap, plan, text)?),
        None => Ok(register_table(heap, plan)?),
    }
}

// The file that the sent blocks are written to: the one that is named, and another one only for blocks that are drawn.
fn copy_name<'a>(drawing: Option<Drawing>, copy: Option<&'a str>) -> Option<&'a str>
    ensures { CopyIs drawing copy.entry result }
{
    match (drawing, copy) {
        (Some(_), None) => Some(DRAWN),
        (_, copy) => copy,
    }
}

// Sends the blocks of the settings, and writes them to the copy where one is made.
fn send<'a, R: Read + Drop, W: Write>(
    rt: &HostRuntime,
    choice: Choice,
    settings: Settings<'a>,
    input: R,
    output: &mut W,
) -> Result<(), Stop<'a>>
    ensures { (y : Option (List ℕ)) → (z : Option (List ℕ)) → OnOk result (Obeyed (SendOrder choice settings.entry) (R.remaining input) (W.contents output.old) (W.contents output.new) y z) }
{
    let plan = choice.row.plan(rt.alloc(), choice.constraint)?;
    let table = settled(rt, &plan, settings)?;
    let input = BufReader::new(rt.alloc(), input)?;
    match copy_name(settings.drawing, settings.copy) {
        Some(name) => {
            let file = fs::create(rt, name).map_err(|error| Stop::File { name, error })?;
            let mut copy = BufWriter::new(rt.alloc(), file)?;
            send_all(
                rt.alloc(),
                &plan,
                table,
                settings.drawing,
                input,
                output,
                &mut copy,
            )?;
            Ok(copy.flush()?)
        }
        None => send_all(
            rt.alloc(),
            &plan,
            table,
            settings.drawing,
            input,
            output,
            &mut sink(),
        ),
    }
}

// Sends blocks: drawn ones, or those of the input.
fn send_all<'a, R: Read + Drop, W: Write, C: Write>(
    heap: Global,
    plan: &Plan,
    table: Table,
    drawing: Option<Drawing>,
    input: R,
    output: &mut W,
    copy: &mut C,
) -> Result<(), Stop<'a>>
    ensures air { OnOk result (OnAir (plan_scheme plan.now) (table_meaning table) drawing (R.remaining input) (W.contents output.old) (W.contents output.new)) }
    ensures sent { OnOk result (Sent (plan_scheme plan.now) (table_meaning table) drawing (R.remaining input) (W.contents output.old) (W.contents output.new) (C.contents copy.old) (C.contents copy.new)) }
{
    match drawing {
        Some(drawing) => Ok(send_drawn(
            heap,
            plan,
            table,
            drawing.blocks,
            drawing.seed,
            output,
            copy,
        )?),
        None => Ok(send_text(heap, plan, table, input, output, copy)?),
    }
}

fn receive<'a, R: Read + Drop, W: Write, P: Write>(
    rt: &HostRuntime,
    choice: Choice,
    settings: Settings<'a>,
    input: R,
    output: &mut W,
    progress: &mut P,
) -> Result<(), Stop<'a>>
    ensures { OnOk result (Obeyed (ReceiveOrder choice settings.entry) (R.remaining input) (W.contents output.old) (W.contents output.new) (P.contents progress.old) (P.contents progress.new)) }
{
    let plan = choice.row.plan(rt.alloc(), choice.constraint)?;
    let table = settled(rt, &plan, settings)?;
    receive_scored(
        rt.alloc(),
        plan,
        table,
        settings.score,
        input,
        output,
        progress,
    )
}

// Answers the lines of the input by the kind of score of this name.
fn receive_scored<'a, R: Read + Drop, W: Write, P: Write>(
    heap: Global,
    plan: Plan,
    table: Table,
    score: ScoreKind,
    input: R,
    output: &mut W,
    progress: &mut P,
) -> Result<(), Stop<'a>>
    ensures { OnOk result (Received score (view plan (table_meaning table)) (R.remaining input) (W.contents output.old) (W.contents output.new) (P.contents progress.old) (P.contents progress.new)) }
{
    match score {
        ScoreKind::Total => receive_by(heap, plan, table, Total, input, output, progress),
        ScoreKind::Worst => receive_by(heap, plan, table, Worst, input, output, progress),
        ScoreKind::CountFirst => {
            receive_by(heap, plan, table, CountFirst, input, output, progress)
        }
    }
}

// Answers the lines of the input by a kind of score.
fn receive_by<'a, K: WrittenKind + Drop, R: Read + Drop, W: Write, P: Write>(
    heap: Global,
    plan: Plan,
    table: Table,
    kind: K,
    input: R,
    output: &mut W,
    progress: &mut P,
) -> Result<(), Stop<'a>>
    ensures { OnOk result (Answered (K.Kind.scale kind) K.written (view plan (table_meaning table)) (R.remaining input) (W.contents output.old) (W.contents output.new) (P.contents progress.old) (P.contents progress.new)) }
{
    let mut reception = Reception::new(heap, plan, table, kind)?;
    Ok(reception::receive(heap, &mut reception, input, output, progress)?)
}

// Writes what is counted of two files.
fn count_files<'a, W: Write>(
    rt: &HostRuntime,
    sent: &'a str,
    shown: &'a str,
    output: &mut W,
) -> Result<(), Stop<'a>>
    ensures { OnOk result ((c : Counts) × Appends (W.contents output.old) (W.contents output.new) (report c)) }
{
    let sent = BufReader::new(rt.alloc(), opened(rt, sent)?)?;
    let shown = BufReader::new(rt.alloc(), opened(rt, shown)?)?;
    show_count(rt.alloc(), sent, shown, output)
}

// Writes what is counted of two texts.
fn show_count<'a, R: Read + Drop, S: Read + Drop, W: Write>(
    heap: Global,
    sent: R,
    shown: S,
    output: &mut W,
) -> Result<(), Stop<'a>>
    ensures counted { OnOk result (Counted (R.remaining sent) (S.remaining shown) (W.contents output.old) (W.contents output.new)) }
    ensures some { OnOk result ((c : Counts) × Appends (W.contents output.old) (W.contents output.new) (report c)) }
{
    let comparison = count(heap, sent, shown)?;
    Ok(write!(output, "{comparison}")?)
}

#[cfg(test)]
mod tests {
    use super::*;
    use rows::Row;
    use std::test::Fail;

    // The shortest row.
    const CHOICE: Choice = Choice {
        row: Row {
            bandwidth: 3,
            waveform: 1,
            interleaver: 0,
        },
        constraint: 7,
    };

    // The plan of that row, and a table of the register's values.
    fn made(heap: Global) -> Result<(Plan, Table), Fail> {
        let Ok(plan) = CHOICE.row.plan(heap, CHOICE.constraint) else {
            return Err(Fail::new("no plan"));
        };
        match register_table(heap, &plan) {
            Ok(table) => Ok((plan, table)),
            Err(_) => Err(Fail::new("no table")),
        }
    }

    #[test]
    fn plan_is_shown(rt: HostRuntime) -> Result<(), Fail> {
        let mut said = Vec::new(rt.alloc());
        if obey(
            &rt,
            Order::Plan(CHOICE),
            b"".as_slice(),
            &mut said,
            &mut sink(),
        )
        .is_err()
        {
            return Err(Fail::new("the order is not obeyed"));
        }
        let expected =
            "bandwidth 3\nwaveform 1\ninterleaver 0\nconstraint 7\nrate 1/8\nq 1\nframe_length 48\nB 24\nN 192\nsymbols 192\nincrement 25\nperiod 1\nsend_list 0 1 0 1 0 1 0 1\n";
        assert_eq!(rt; said.as_slice(), expected.as_bytes());
        Ok(())
    }

    // A block on the air is a comment and 192 lines.
    #[test]
    fn block_is_sent(rt: HostRuntime) -> Result<(), Fail> {
        let (plan, table) = made(rt.alloc())?;
        let input = b"000000000000000000000000\n".as_slice();
        let mut said = Vec::new(rt.alloc());
        if send_all(
            rt.alloc(),
            &plan,
            table,
            None,
            input,
            &mut said,
            &mut sink(),
        )
        .is_err()
        {
            return Err(Fail::new("nothing is sent"));
        }
        assert!(rt; said.as_slice().starts_with(b"# block 1\n0 1\n"));
        let lines = said.as_slice().split(|byte| *byte == b'\n').count();
        assert_eq!(rt; lines, 194);
        Ok(())
    }

    // Blocks that are drawn are kept in a file.
    #[test]
    fn drawn_blocks_are_kept(rt: HostRuntime) {
        let drawing = Some(Drawing { blocks: 1, seed: 1 });
        assert_eq!(rt; copy_name(drawing, None), Some("sent.txt"));
        assert_eq!(rt; copy_name(drawing, Some("own.txt")), Some("own.txt"));
        assert_eq!(rt; copy_name(None, None), None);
    }

    // The first coded bit is sent at the locations 0, 50, 100 and 150: once as 0, and twice, with less, as 1.
    #[test]
    fn scores_are_of_the_kind(rt: HostRuntime) -> Result<(), Fail> {
        let heard = b"note 0 5\nnote 50 -3\nnote 100 -4".as_slice();
        for (score, shown) in [
            (ScoreKind::Total, "# score 5\n"),
            (ScoreKind::Worst, "# score 4\n"),
            (ScoreKind::CountFirst, "# score 1 5\n"),
        ] {
            let (plan, table) = made(rt.alloc())?;
            let mut said = Vec::new(rt.alloc());
            if receive_scored(
                rt.alloc(),
                plan,
                table,
                score,
                heard,
                &mut said,
                &mut sink(),
            )
            .is_err()
            {
                return Err(Fail::new("nothing is shown"));
            }
            assert!(rt; said.as_slice().starts_with(shown.as_bytes()));
        }
        Ok(())
    }

    // Two blocks that differ at one place, and one that is shown alone.
    #[test]
    fn errors_are_counted(rt: HostRuntime) -> Result<(), Fail> {
        let mut said = Vec::new(rt.alloc());
        let sent = b"011\n100\n".as_slice();
        let shown = b"010\n100\n111\n".as_slice();
        if show_count(rt.alloc(), sent, shown, &mut said).is_err() {
            return Err(Fail::new("no count"));
        }
        let expected =
            "# blocks bits bit_errors block_errors\n2 6 1 1\n# blocks shown and not sent: 1\n";
        assert_eq!(rt; said.as_slice(), expected.as_bytes());
        Ok(())
    }
}
