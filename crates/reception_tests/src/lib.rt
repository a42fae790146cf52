// Lines of a reception, answered.
#![tactic(auto)]

use plan::{ChainFault, Parts, Plan};
use reception::{Reception, WrittenKind, receive};
use samples::small_plan;
use score::Total;
use scrambler::Table;
use std::alloc::Global;
use std::io;
use std::io::BufWriter;

// What is written to these lines.
fn replies<K: WrittenKind + Drop>(
    heap: Global,
    kind: K,
    text: &str,
    output: &mut Vec<u8>,
) -> io::Result<()> {
    let Ok(mut reception) = reception_of(heap, kind) else {
        return Ok(());
    };
    receive(
        heap,
        &mut reception,
        text.as_bytes(),
        output,
        &mut io::sink(),
    )
}

// A reception of the small plan.
fn reception_of<K: WrittenKind + Drop>(
    heap: Global,
    kind: K,
) -> Result<Reception<Table, K>, ChainFault> {
    let plan = small_plan(heap, 7)?;
    let table = Table::new(3, vec![in heap; 1, 2, 3, 4]?)?;
    Reception::new(heap, plan, table, kind)
}

// A reception of blocks of so many bits, each coded bit sent once.
fn long_reception(heap: Global, bits: usize) -> Result<Reception<Table, Total>, ChainFault> {
    let parts = Parts {
        constraint: 7,
        period: 1,
        send_list: vec![in heap; 0, 1]?,
        block_length: bits,
        symbol_bits: 1,
        frame_length: 2,
        increment: 1,
    };
    let table = Table::new(3, vec![in heap; 1, 2]?)?;
    Reception::new(heap, Plan::new(parts)?, table, Total)
}

// What is said on the side where a block of so many bits is looked for twice, and at the end.
fn said_aside(heap: Global, bits: usize, progress: &mut Vec<u8>) -> io::Result<()> {
    let Ok(mut reception) = long_reception(heap, bits) else {
        return Ok(());
    };
    let text = b"look\n# a comment\nlook\n".as_slice();
    receive(heap, &mut reception, text, &mut io::sink(), progress)
}

// What is behind the buffer where this text is received by a reception of so many bits, and its looks are announced to a full writer.
fn behind_the_buffer(
    heap: Global,
    bits: usize,
    text: &str,
    output: &mut BufWriter<Vec<u8>>,
) -> io::Result<()> {
    let Ok(mut reception) = long_reception(heap, bits) else {
        return Ok(());
    };
    let mut full = [0; 0];
    receive(
        heap,
        &mut reception,
        text.as_bytes(),
        output,
        &mut full.as_mut_slice(),
    )
}

#[cfg(test)]
mod tests {
    use super::*;
    use score::{CountFirst, Worst};
    use std::test::Fail;

    const HEARD: &'static str = "# a comment\n0 6 1\n\n1\t5 1\r\n2 3 1\n4 6 1\n3 3 1\n";

    // A transmission heard exactly comes back; a place past the last is refused; the end of the input shows.
    #[test]
    fn lines_are_answered(rt: HostRuntime) -> Result<(), Fail> {
        let mut said = Vec::new(rt.alloc());
        replies(rt.alloc(), Total, HEARD, &mut said)?;
        let expected =
            "# refused 14 line 6: Is the symbol place below N / q?\n# score 0\n100000000\n";
        assert_eq!(rt; said.as_slice(), expected.as_bytes());
        Ok(())
    }

    // Each kind of score is written in its own way.
    #[test]
    fn scores_are_written(rt: HostRuntime) -> Result<(), Fail> {
        let mut said = Vec::new(rt.alloc());
        replies(rt.alloc(), Worst, "note 0 -5", &mut said)?;
        replies(
            rt.alloc(),
            CountFirst,
            "look now\nnote 12 1\nblank 0",
            &mut said,
        )?;
        let expected =
            "# score 0\n000000100\n# refused 18 line 1: Has the line one of the forms that are read, in at most 2,080 characters?\n# refused 17 line 2: Is the location below N, and the value from -32,767 to 32,767?\n# score 0 0\n000000000\n";
        assert_eq!(rt; said.as_slice(), expected.as_bytes());
        Ok(())
    }

    // Each look of a block of 10,000 bits is announced, and none of a shorter one.
    #[test]
    fn long_looks_are_announced(rt: HostRuntime) -> Result<(), Fail> {
        let mut said = Vec::new(rt.alloc());
        said_aside(rt.alloc(), 9_999, &mut said)?;
        assert!(rt; said.is_empty());
        said_aside(rt.alloc(), 10_000, &mut said)?;
        let line = "looking for the best block of 10000 bits\n";
        assert_eq!(rt; said.len(), 3 * line.len());
        assert!(rt; said.as_slice().starts_with(line.as_bytes()));
        Ok(())
    }

    // A block that was shown waits for no other line.
    #[test]
    fn a_block_is_not_held_back(rt: HostRuntime) -> Result<(), Fail> {
        let mut output = BufWriter::new(rt.alloc(), Vec::new(rt.alloc()))?;
        behind_the_buffer(rt.alloc(), 9, "", &mut output)?;
        let expected = "# score 0\n000000000\n";
        assert_eq!(rt; output.get_ref().as_slice(), expected.as_bytes());
        Ok(())
    }

    // What is written before a look does not wait for its end: here the look is not even begun, since nobody takes what is said before it.
    #[test]
    fn a_refusal_is_not_held_back(rt: HostRuntime) -> Result<(), Fail> {
        let mut output = BufWriter::new(rt.alloc(), Vec::new(rt.alloc()))?;
        let done = behind_the_buffer(rt.alloc(), 10_000, "blank 20000\nlook", &mut output);
        assert!(rt; done.is_err());
        let expected = "# refused 14 line 1: Is the symbol place below N / q?\n";
        assert_eq!(rt; output.get_ref().as_slice(), expected.as_bytes());
        Ok(())
    }
}
