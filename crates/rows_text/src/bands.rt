// A block of lines for each bandwidth: its waveforms, and what its columns add up to.
ghost use Rattle.std.specs.Prelude.{Some, OnOk};
ghost use Rattle.std.specs.Io.KnownBytes.{Appends};
ghost use Rattle.rows_text.specs.Bands.{band_text, bands_text, band_part};

use crate::sums::Sums;
use crate::waveforms::WaveformsText;
use std::io::Write;
use std::{fmt, io};

// A heading with the count of rows, the waveforms, and the sums.
#[derive(Clone, Copy)]
struct BandText {
    bandwidth: usize,
}

impl fmt::Display for BandText {
    ghost output = { λ text. Some (band_text text.bandwidth) };

    fn fmt<W: fmt::Write>(&self, f: &mut fmt::Formatter<W>) -> fmt::Result {
        let bandwidth = self.bandwidth;
        let Sums {
            rows,
            frames,
            sent,
            block,
            increment,
        } = Sums::of(bandwidth);
        let waveforms = WaveformsText { bandwidth };
        write!(f, "{bandwidth} kHz, {rows} rows\n{waveforms}")?;
        write!(f, "sums of {rows}: {frames} {sent} {block} {increment}\n")
    }
}

// A bandwidth, where it has a row.
fn write_band<W: Write>(output: &mut W, bandwidth: usize) -> io::Result<()>
    ensures { OnOk result (Appends (W.contents output.old) (W.contents output.new) (band_part bandwidth)) }
{
    if Sums::of(bandwidth).rows == 0 {
        return Ok(());
    }
    let band = BandText { bandwidth };
    write!(output, "{band}")
}

// Every bandwidth below 64 kHz that has a row.
pub fn write_bands<W: Write>(output: &mut W) -> io::Result<()>
    ensures { OnOk result (Appends (W.contents output.old) (W.contents output.new) bands_text) }
{
    for bandwidth in 0..64 {
        write_band(output, bandwidth)?;
    }
    Ok(())
}
