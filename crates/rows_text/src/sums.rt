// What the columns of a bandwidth's table add up to.
ghost use Rattle.std.specs.Prelude.{◌≡◌, List, [], ◌∷◌, ◌++◌};
ghost use Rattle.rows.specs.declared.row.Entry.{Entry};
ghost use Rattle.rows_text.specs.Columns.{waveform_rows, band_rows, sums, stopped};

use rows::{Entry, Row};

// The sums of the columns, each stopped at the greatest number.
#[derive(Clone, Copy)]
pub(crate) struct Sums {
    pub(crate) rows: usize,
    pub(crate) frames: usize,
    pub(crate) sent: usize,
    pub(crate) block: usize,
    pub(crate) increment: usize,
}

impl Sums {
    // A row more.
    fn add(&mut self, entry: Entry)
        ensures { (before : List Entry) → self.old ≡ stopped (sums before) → self.new ≡ stopped (sums (before ++ entry ∷ [])) }
    {
        self.rows = self.rows.saturating_add(1);
        self.frames = self.frames.saturating_add(entry.frames);
        self.sent = self.sent.saturating_add(entry.sent_length);
        self.block = self.block.saturating_add(entry.block_length);
        self.increment = self.increment.saturating_add(entry.increment);
    }

    // The rows of a waveform more.
    fn add_waveform(&mut self, bandwidth: usize, waveform: usize)
        ensures { (before : List Entry) → self.old ≡ stopped (sums before) → self.new ≡ stopped (sums (before ++ waveform_rows bandwidth waveform)) }
    {
        for interleaver in 0..4 {
            let row = Row {
                bandwidth,
                waveform,
                interleaver,
            };
            if let Some(entry) = row.entry() {
                self.add(entry);
            }
        }
    }

    // Those of a bandwidth.
    pub(crate) fn of(bandwidth: usize) -> Sums
        ensures { result ≡ sums (band_rows bandwidth) }
    {
        let mut sums = Sums {
            rows: 0,
            frames: 0,
            sent: 0,
            block: 0,
            increment: 0,
        };
        for waveform in 1..14 {
            sums.add_waveform(bandwidth, waveform);
        }
        sums
    }
}
