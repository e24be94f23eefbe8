// A record drawn as the lock sends it, scanned back, spoiled and scanned again.
ghost use Rattle.std.specs.Prelude.{◌≤◌, vec_len};

use super::entries::{print_flagged, print_text, readable};
use super::levels::level_name;
use super::tenths::Tenths;
use anyhow::{anyhow, ensure};
use ends::Timing;
use lock::{CLOCK_HERTZ, DIVIDER, MODULATOR, lock_timing};
use picture::{Runs, draw, hold_space, scan};
use std::alloc::Global;
use std::io;

// No character of the lock's takes more clocks.
const MOST_CLOCKS: usize = 4096 * 80;

// A record with its picture, in which each character takes as many clocks.
#[derive(Drop)]
struct Drawn<'a> {
    timing: Timing,
    record: &'a str,
    picture: Vec<u8>,
}

impl<'a> Drawn<'a> {
    fn new(alloc: Global, timing: Timing, record: &'a str) -> anyhow::Result<Drawn<'a>> {
        let characters: Vec<u16> = record.bytes().map(u16::from).collect(alloc)?;
        let mut picture = vec![in alloc; 0; MOST_CLOCKS]?;
        let clocks = draw(&timing, characters.as_slice(), picture.as_mut_slice()).map_err(
            |_| anyhow!("the record has more than 4,096 characters"),
        )?;
        picture.truncate(clocks);
        Ok(Drawn {
            timing,
            record,
            picture,
        })
    }

    // The clocks of a character.
    fn clocks(&self) -> usize
        ensures { result ≤ vec_len self.now.picture }
    {
        self.picture.len() / self.record.len().max(1)
    }

    fn scanned(&self, alloc: Global) -> anyhow::Result<Vec<(u16, u8)>> {
        let mut entries = vec![in alloc; (0, 0); self.picture.len()]?;
        let count = scan(
            &self.timing,
            self.picture.as_slice(),
            entries.as_mut_slice(),
        )
        .map_err(|_| anyhow!("the picture has a byte that is no level"))?;
        entries.truncate(count);
        Ok(entries)
    }

    // What the lock has put on the line.
    fn print(&self, rt: &impl Print) -> io::Result<()> {
        let record = self.record;
        let characters = record.len();
        let clocks = self.picture.len();
        let millis = Tenths((clocks as u64).saturating_mul(10_000) / u64::from(CLOCK_HERTZ));
        println!(rt; "Record:  {record}")?;
        println!(rt;
            "Port:    divider {DIVIDER}, modulator {MODULATOR:02X}h, 8N1, clocked at {CLOCK_HERTZ} Hz"
        )?;
        println!(rt; "Drawn:   {characters} characters, {clocks} clocks, {millis} ms on the line")?;
        println!(rt; "")
    }

    // The first character, the runs of equal levels one to a line.
    fn print_first(&self, rt: &impl Print) -> io::Result<()> {
        let Some(first) = self.record.bytes().next() else {
            return Ok(());
        };
        let shown = readable(u16::from(first));
        println!(rt; "The first character, '{shown}' ({first:02X}h), level by level:")?;
        println!(rt; "  from clock  level  clocks")?;
        for run in Runs::new(&self.picture.as_slice()[..self.clocks()]) {
            println!(rt;
                "  {:>10}  {:<5}  {:>6}",
                run.from,
                level_name(run.level()),
                run.clocks
            )?;
        }
        println!(rt; "")
    }

    // Takes the stop bit of one character away, and holds the line at space for the length of two others.
    fn spoil_two_places(&mut self, rt: &impl Print) -> io::Result<()> {
        let clocks = self.clocks();
        let characters = self.record.len();
        let one = characters / 3;
        let to = one.saturating_add(1).saturating_mul(clocks);
        let stop = self.timing.lengths[self.timing.format.first_stop()];
        let from = to.saturating_sub(stop as usize);
        hold_space(self.picture.as_mut_slice(), from, to);
        println!(rt;
            "Spoiled: clocks {from} to {to} held at space, the stop bit of character {}",
            one.saturating_add(1)
        )?;
        let two = characters / 3 * 2;
        let from = two.saturating_mul(clocks);
        let to = from.saturating_add(clocks.saturating_mul(2));
        hold_space(self.picture.as_mut_slice(), from, to);
        println!(rt;
            "         clocks {from} to {to} held at space, two characters from {}",
            two.saturating_add(1)
        )?;
        println!(rt; "")
    }
}

// The times of the lock's own port.
pub(crate) fn built_in() -> anyhow::Result<Timing> {
    lock_timing().map_err(|_| anyhow!("the lock's settings are out of range"))
}

pub fn demo(rt: &(impl Print + AllocGlobal), record: &str) -> anyhow::Result<()> {
    ensure!(!record.is_empty(), "the record is empty");
    let mut drawn = Drawn::new(rt.alloc(), built_in()?, record)?;
    drawn.print(rt)?;
    drawn.print_first(rt)?;
    let entries = drawn.scanned(rt.alloc())?;
    println!(rt; "Scanned back: {} characters", entries.len())?;
    print_text(rt, entries.as_slice())?;
    println!(rt; "")?;
    drawn.spoil_two_places(rt)?;
    let spoiled = drawn.scanned(rt.alloc())?;
    println!(rt; "Scanned: {} entries", spoiled.len())?;
    print_text(rt, spoiled.as_slice())?;
    Ok(print_flagged(rt, spoiled.as_slice())?)
}
