// The table's answer to a row.
ghost use Rattle.std.specs.Prelude.{◌≡◌, ◌*◌, ◌<◌, ◌≤◌, IfSome, ◌==◌, position};
ghost use Rattle.rows.specs.Rows.{symbol_bits, row_setting, depth_at, entry_of, row_entry};
ghost use Rattle.rows.specs.Schemes.{Consistent};
ghost use Rattle.rows.specs.Table.{bandwidths};

use crate::interleaver::Interleaver;
use crate::rate::Rate;
use crate::row::{Entry, Row};
use crate::table::{Depth, Setting, printed};

// The bandwidths in kHz, in the table's order: a list of its own, as the table is printed a bandwidth at a time.
static BANDWIDTHS: [usize; 12] = [3, 6, 9, 12, 15, 18, 21, 24, 30, 36, 42, 48];

// The place of a bandwidth in the table.
fn band(bandwidth: usize) -> Option<usize>
    ensures value { result ≡ position (λ b. b == bandwidth) bandwidths }
    ensures within { IfSome result (λ i. i < 12) }
{
    BANDWIDTHS.iter().position(|b| *b == bandwidth)
}

// The bits of a symbol for the waveforms 1 to 13, at every bandwidth: a list of its own.
static SYMBOL_BITS: [usize; 13] = [1, 1, 1, 1, 1, 2, 3, 4, 5, 6, 6, 8, 2];

// By index: a test could only fail where the table has no setting, and it has been asked for one before.
fn symbol_bits(waveform: usize) -> usize
    requires { (1 ≤ waveform) × (waveform ≤ 13) }
    ensures { result ≡ symbol_bits waveform }
{
    SYMBOL_BITS[waveform - 1]
}

// What the table has for the bandwidth and the waveform. Waveform 0 is of another kind.
fn setting(row: Row) -> Option<Setting>
    ensures { result ≡ row_setting row }
{
    match row.waveform {
        1..=13 => printed(band(row.bandwidth)?, row.waveform - 1),
        _ => None,
    }
}

// The interleaver of this number.
fn depth(setting: Setting, interleaver: usize) -> Option<Depth>
    ensures { result ≡ depth_at setting interleaver }
{
    match Interleaver::try_from(interleaver).ok()? {
        Interleaver::UltraShort => Some(setting.1),
        Interleaver::Short => Some(setting.2),
        Interleaver::Medium => Some(setting.3),
        Interleaver::Long => Some(setting.4),
    }
}

// What the numbers of an interleaver say: the frames share the sent bits.
fn entry_of(rate: Rate, symbol_bits: usize, depth: Depth) -> Entry
    requires { (0 < depth.0 * symbol_bits) × (depth.0 * symbol_bits ≤ 2211840) }
    ensures { result ≡ entry_of rate symbol_bits depth }
{
    let Depth(frames, sent_length, block_length, increment) = depth;
    Entry {
        rate,
        symbol_bits,
        frames,
        frame_length: sent_length / (frames * symbol_bits),
        sent_length,
        block_length,
        increment,
    }
}

impl Row {
    // What the standard says of this row, where it has it.
    pub fn entry(self) -> Option<Entry>
        ensures value { result ≡ row_entry self }
        ensures consistent { IfSome result (λ e. Consistent e) }
    {
        let setting = setting(self)?;
        let depth = depth(setting, self.interleaver)?;
        Some(entry_of(setting.0, symbol_bits(self.waveform), depth))
    }
}
