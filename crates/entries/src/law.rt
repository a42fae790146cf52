// What holds of all lines.
ghost use Rattle.entries.specs.Laws.{OneEntry, NoIdleEntry, EachHasALine};

// No line is that of two entries, nor that of an entry and a comment, and each entry has a line.
pub fn one_entry_holds()
    ensures one { OneEntry }
    ensures idle { NoIdleEntry }
    ensures some { EachHasALine }
{}
