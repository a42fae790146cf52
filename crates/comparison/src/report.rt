// What is counted, as text: a line of four numbers, and a comment for each thing that does not fit.
ghost use Rattle.std.specs.Prelude.{Some};
ghost use Rattle.comparison.specs.Report.{numbers, remark, report};

use crate::comparison::Comparison;
use errors::Count;
use std::fmt;

// The four numbers of a count.
#[derive(Clone, Copy)]
struct Numbers(Count);

impl fmt::Display for Numbers {
    ghost output = { λ n. Some (numbers n.0) };

    fn fmt<W: fmt::Write>(&self, f: &mut fmt::Formatter<W>) -> fmt::Result {
        let Count {
            blocks,
            bits,
            bit_errors,
            block_errors,
        } = self.0;
        write!(f, "{blocks} {bits} {bit_errors} {block_errors}\n")
    }
}

// A comment that says how many, where there are any.
#[derive(Clone, Copy)]
struct Remark {
    what: &'static str,
    how_many: usize,
}

impl fmt::Display for Remark {
    ghost output = { λ r. Some (remark r.what.now r.how_many) };

    fn fmt<W: fmt::Write>(&self, f: &mut fmt::Formatter<W>) -> fmt::Result {
        let Remark { what, how_many } = *self;
        if how_many == 0 {
            return Ok(());
        }
        write!(f, "# {what}: {how_many}\n")
    }
}

impl fmt::Display for Comparison {
    ghost output = { λ c. Some (report c) };

    fn fmt<W: fmt::Write>(&self, f: &mut fmt::Formatter<W>) -> fmt::Result {
        let numbers = Numbers(self.count);
        let unequal = Remark {
            what: "blocks of another length than was sent",
            how_many: self.unequal,
        };
        let sent = Remark {
            what: "blocks sent and not shown",
            how_many: self.sent_alone,
        };
        let shown = Remark {
            what: "blocks shown and not sent",
            how_many: self.shown_alone,
        };
        write!(
            f,
            "# blocks bits bit_errors block_errors\n{numbers}{unequal}{sent}{shown}"
        )
    }
}
