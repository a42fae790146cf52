// The lines of a block: a comment with its number, and then each place with its on-air index.
ghost use Rattle.std.specs.Prelude.{Some};
ghost use Rattle.air_text.specs.Lines.{place_line, place_lines, air_text};

use std::fmt;

// A place, and the index that is sent there.
#[derive(Clone, Copy)]
struct PlaceLine {
    place: usize,
    index: u8,
}

impl fmt::Display for PlaceLine {
    ghost output = { λ line. Some (place_line line.place line.index) };

    fn fmt<W: fmt::Write>(&self, f: &mut fmt::Formatter<W>) -> fmt::Result {
        let PlaceLine { place, index } = *self;
        write!(f, "{place} {index}\n")
    }
}

// The lines of all places.
#[derive(Clone, Copy)]
struct PlaceLines<'a>(&'a [u8]);

impl fmt::Display for PlaceLines<'_> {
    ghost output = { λ lines. Some (place_lines 0 lines.0.now) };

    fn fmt<W: fmt::Write>(&self, f: &mut fmt::Formatter<W>) -> fmt::Result {
        for (place, index) in self.0.iter().enumerate() {
            let line = PlaceLine {
                place,
                index: *index,
            };
            write!(f, "{line}")?;
        }
        Ok(())
    }
}

// A block's number, counted from 1, and its on-air indices.
#[derive(Clone, Copy)]
pub struct AirText<'a> {
    pub block: u64,
    pub indices: &'a [u8],
}

impl fmt::Display for AirText<'_> {
    ghost output = { λ text. Some (air_text text.block text.indices.now) };

    fn fmt<W: fmt::Write>(&self, f: &mut fmt::Formatter<W>) -> fmt::Result {
        let block = self.block;
        let lines = PlaceLines(self.indices);
        write!(f, "# block {block}\n{lines}")
    }
}
