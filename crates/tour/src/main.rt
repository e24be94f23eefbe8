// Shows every part once: the settings sheet, and the others on a sample record.

#![tactic(auto)]

use lock::FORMAT;
use shows::{LAPTOP_HERTZ, SAMPLE, demo, drive, join, print_sheet, print_table};

fn main(rt: HostRuntime) -> anyhow::Result<()> {
    print_sheet(&rt, LAPTOP_HERTZ, "8N1", FORMAT)?;
    println!(rt; "")?;
    print_table(&rt)?;
    println!(rt; "")?;
    demo(&rt, SAMPLE)?;
    println!(rt; "")?;
    join(&rt, SAMPLE)?;
    println!(rt; "")?;
    Ok(drive(&rt)?)
}
