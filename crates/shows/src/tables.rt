// The table of the settings that are built into locks, and what each truly gives.
use super::tenths::Tenths;
use std::io;
use usart::{ROWS, Row, Settings};

// The settings that are built into locks, one row to a line.
pub fn print_table(rt: &impl Print) -> io::Result<()> {
    println!(rt; "Settings built into locks, and what each truly gives over a frame of ten bits:")?;
    println!(rt; "   clock Hz     baud  divider  modulator   true baud   off by, per mille")?;
    for row in ROWS {
        print_row(rt, row)?;
    }
    Ok(())
}

fn print_row(rt: &impl Print, row: Row) -> io::Result<()> {
    let Row {
        clock,
        baud,
        divider,
        modulator,
    } = row;
    let Ok(settings) = Settings::new(divider, modulator) else {
        return Ok(());
    };
    let clocks = u64::from(settings.clocks(10)).max(1);
    let nominal = u64::from(baud).max(1);
    let ten_bits = u64::from(clock) * 10;
    let truly = Tenths((ten_bits * 10 + clocks / 2) / clocks);
    // in ten thousandths of the nominal rate
    let share = (ten_bits * 10000 + clocks.saturating_mul(nominal) / 2)
        / clocks.saturating_mul(nominal).max(1);
    let sign = if share < 10000 { '-' } else { '+' };
    let off = Tenths(share.abs_diff(10000));
    println!(rt;
        "  {clock:>9}  {baud:>7}  {divider:>7}        {modulator:02X}h  {truly:>10}            {sign}{off}"
    )
}
