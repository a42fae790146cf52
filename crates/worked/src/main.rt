// The worked examples that the standard prints, computed by the chain: compared with the stored output.
#![tactic(auto)]

use code::{location, symbol_for};
use plan::Plan;
use rows::{Entry, Row};
use std::io;

// Where the first nine sent bits are loaded.
fn print_locations(rt: &HostRuntime, plan: &Plan) -> io::Result<()> {
    print!(rt; "load locations:")?;
    for n in 0..9 {
        let at = location(plan, n).unwrap_or(0);
        print!(rt; " {at}")?;
    }
    println!(rt; "")
}

// Which coded bits of a period are sent: one line's loop, too little to share with another program's list.
fn print_list(rt: &HostRuntime, row: Row, plan: &Plan) -> io::Result<()> {
    if let Some(Entry { rate, .. }) = row.entry() {
        print!(rt; "rate {rate}: ")?;
    }
    let period = plan.parts().period;
    print!(rt; "period {period}, sends")?;
    for entry in plan.parts().send_list.iter() {
        print!(rt; " {entry}")?;
    }
    println!(rt; "")
}

fn print_symbol(rt: &HostRuntime, number: u8, plan: &Plan) -> io::Result<()> {
    let bits = plan.parts().symbol_bits;
    let symbol = symbol_for(plan, number);
    println!(rt; "of {bits} bits: {number:0bits$b} is symbol {symbol}")
}

// Prints an example of the plan of the row at 3 kHz with the shortest interleaver, and constraint length 7.
fn print_example<F: FnOnce(Row, &Plan) -> io::Result<()>>(
    rt: &HostRuntime,
    waveform: usize,
    print: F,
) -> io::Result<()>
    requires { F.IsAlwaysCallable print }
{
    let row = Row {
        bandwidth: 3,
        waveform,
        interleaver: 0,
    };
    match row.plan(rt.alloc(), 7) {
        Ok(plan) => print(row, &plan),
        Err(_) => println!(rt; "waveform {waveform} is refused"),
    }
}

fn main(rt: HostRuntime) -> io::Result<()> {
    print_example(&rt, 1, |_, plan| print_locations(&rt, plan))?;
    for waveform in [2, 3, 5] {
        print_example(&rt, waveform, |row, plan| print_list(&rt, row, plan))?;
    }
    print_example(&rt, 8, |_, plan| print_symbol(&rt, 0b0111, plan))?;
    print_example(&rt, 10, |_, plan| print_symbol(&rt, 0b10_0011, plan))
}
