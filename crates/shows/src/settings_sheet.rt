// The settings sheet: for each setting built into locks, whether a laptop may be trusted with it, and how far its clock may be off.
use super::named_ends::{port_timing, usart_timing};
use super::tenths::Tenths;
use super::verdicts::Told;
use line::Format;
use sheet::{Clocked, Off, Way, nearest_divider};
use std::io;
use usart::{ROWS, Row};

const FOOT: &str = "
passes   every character arrives as it was sent, from the lock to the laptop or
         back, as long as both clocks are steady and the laptop's is off by no
         more than the two numbers: slow and fast, in per mille of its rate
early N  bit N of a frame can be sampled before it is on the line
late N   bit N of a frame can be sampled after it has left the line

The lock's clock is taken to be exact. The laptop's port takes the divider
nearest to the baud rate. The sheet does not stand for a line with noise, for
a clock that changes its pace within a character, or for another format or
another clock of the laptop's than those named above.";

// So many tenths of a per mille is a part of a whole, rounded down.
fn tenths(part: u32, whole: u32) -> Tenths {
    Tenths(u64::from(part) * 10_000 / u64::from(whole.max(1)))
}

// What Fit says of one way, and how far the clock of an end may be off to the slow and to the fast side.
fn print_way(rt: &impl Print, way: Way, off: Off) -> io::Result<()> {
    let Ok(verdict) = way.verdict() else {
        return print!(rt; "  {:<8} {:>5} {:>5}", "refused", "-", "-");
    };
    print!(rt; "  {}", Told(verdict))?;
    let Some(range) = way.range(off) else {
        return print!(rt; " {:>5} {:>5}", "-", "-");
    };
    let hertz = way.rate(off);
    let slow = tenths(hertz.saturating_sub(*range.start()), hertz);
    let fast = tenths(range.end().saturating_sub(hertz), hertz);
    print!(rt; " {slow:>5} {fast:>5}")
}

fn print_row(rt: &impl Print, row: Row, hertz: u32, format: Format) -> anyhow::Result<()> {
    let Row {
        clock,
        baud,
        divider,
        modulator,
    } = row;
    print!(rt; "  {clock:>7}  {baud:>6}  {divider:>5}  {modulator:02X}h")?;
    let Ok(nearest) = nearest_divider(hertz, baud) else {
        println!(rt; "  none: the laptop's port has no divider for it")?;
        return Ok(());
    };
    print!(rt; "  {nearest:>4}")?;
    let to_laptop = Way {
        from: Clocked {
            timing: usart_timing(format, u32::from(divider), u32::from(modulator))?,
            hertz: clock,
        },
        to: Clocked {
            timing: port_timing(format, u32::from(nearest))?,
            hertz,
        },
    };
    print_way(rt, to_laptop, Off::Receiver)?;
    print_way(rt, to_laptop.back(), Off::Sender)?;
    println!(rt; "")?;
    Ok(())
}

// Prints the sheet for a laptop's clock and a format.
pub fn print_sheet(rt: &impl Print, hertz: u32, name: &str, format: Format) -> anyhow::Result<()> {
    // a format that the port does not have is refused before anything is printed
    let _ = port_timing(format, 1)?;
    println!(rt; "Settings built into locks, {name}, and a laptop's port clocked at {hertz} Hz")?;
    println!(rt; "")?;
    println!(rt; "         lock's settings        port  lock to laptop         laptop to lock")?;
    println!(rt;
        "       Hz    baud    div  mod   div  verdict   slow  fast  verdict   slow  fast"
    )?;
    for row in ROWS {
        print_row(rt, row, hertz, format)?;
    }
    Ok(rt.println(FOOT)?)
}
