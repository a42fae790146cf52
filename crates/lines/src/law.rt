// What holds of all lines.
ghost use Rattle.lines.specs.Laws.{OneReading};

// No line is that of two commands.
pub fn one_reading_holds()
    ensures { OneReading }
{}
