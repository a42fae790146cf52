// The lines of a bandwidth's waveforms.
ghost use Rattle.std.specs.Prelude.{Some};
ghost use Rattle.std.specs.List.{flat_map};
ghost use Rattle.rows_text.specs.Columns.{waveform_rows};
ghost use Rattle.rows_text.specs.Bands.{interleaver_text, interleaver_part, waveform_line, waveform_lines};

use rows::{Entry, Row};
use std::fmt;

// What stands in a line for an interleaver: nothing where there is no row.
#[derive(Clone, Copy)]
struct InterleaverText(Option<Entry>);

impl fmt::Display for InterleaverText {
    ghost output = { λ text. Some (interleaver_part text.0) };

    fn fmt<W: fmt::Write>(&self, f: &mut fmt::Formatter<W>) -> fmt::Result {
        let Some(
            Entry {
                frames,
                sent_length,
                block_length,
                increment,
                ..
            },
        ) = self.0
        else {
            return Ok(());
        };
        write!(f, ", {frames} {sent_length} {block_length} {increment}")
    }
}

// The interleavers of a waveform.
#[derive(Clone, Copy)]
struct InterleaversText {
    bandwidth: usize,
    waveform: usize,
}

impl fmt::Display for InterleaversText {
    ghost output = { λ text. Some (flat_map interleaver_text (waveform_rows text.bandwidth text.waveform)) };

    fn fmt<W: fmt::Write>(&self, f: &mut fmt::Formatter<W>) -> fmt::Result {
        for interleaver in 0..4 {
            let row = Row {
                bandwidth: self.bandwidth,
                waveform: self.waveform,
                interleaver,
            };
            let text = InterleaverText(row.entry());
            write!(f, "{text}")?;
        }
        Ok(())
    }
}

// A waveform's line: the rate, the bits of a symbol and the symbols of a frame; then each interleaver.
#[derive(Clone, Copy)]
struct WaveformText {
    bandwidth: usize,
    waveform: usize,
}

impl fmt::Display for WaveformText {
    ghost output = { λ text. Some (waveform_line text.waveform (waveform_rows text.bandwidth text.waveform)) };

    fn fmt<W: fmt::Write>(&self, f: &mut fmt::Formatter<W>) -> fmt::Result {
        let WaveformText {
            bandwidth,
            waveform,
        } = *self;
        let row = Row {
            bandwidth,
            waveform,
            interleaver: 0,
        };
        let Some(
            Entry {
                rate,
                symbol_bits,
                frame_length,
                ..
            },
        ) = row.entry()
        else {
            return write!(f, "{waveform} -\n");
        };
        let interleavers = InterleaversText {
            bandwidth,
            waveform,
        };
        write!(
            f,
            "{waveform} {rate} {symbol_bits} {frame_length}{interleavers}\n"
        )
    }
}

// The lines of all waveforms.
#[derive(Clone, Copy)]
pub(crate) struct WaveformsText {
    pub(crate) bandwidth: usize,
}

impl fmt::Display for WaveformsText {
    ghost output = { λ text. Some (waveform_lines text.bandwidth) };

    fn fmt<W: fmt::Write>(&self, f: &mut fmt::Formatter<W>) -> fmt::Result {
        for waveform in 1..14 {
            let text = WaveformText {
                bandwidth: self.bandwidth,
                waveform,
            };
            write!(f, "{text}")?;
        }
        Ok(())
    }
}
