// A lock joined to two laptops, one of which has a clock that is off.
use super::entries::{flagged, print_text};
use super::records::built_in;
use super::verdicts::InWords;
use anyhow::anyhow;
use ends::{Kind, Timing};
use line::Refusal;
use link::Link;
use lock::{CLOCK_HERTZ, DIVIDER, FORMAT, MODULATOR};
use port::Port;
use queue::{ReceiveQueue, SendQueue};
use sheet::{Clocked, Way};
use std::alloc::{AllocError, Global};

pub const LAPTOP_HERTZ: u32 = 1_843_200;

// Ten in a hundred fast.
const LAPTOP_OFF_HERTZ: u32 = 2_027_520;

const LAPTOP_DIVIDER: u16 = 24;

// The clocks of a frame that the lock sends.
const FRAME: usize = 68;

// How many frames the last characters may take to arrive.
const IDLE: usize = 2;

fn laptop_timing() -> Result<Timing, Refusal> {
    Port::timing(FORMAT, port::Settings::new(LAPTOP_DIVIDER)?)
}

// How many clocks of the receiver fall into each of the lock's, one after the other.
#[derive(Drop)]
struct Pace {
    hertz: u32,
    // what the last receive clock came too early by, in parts of a receive clock
    owed: u32,
}

impl Pace {
    // A receive clock has as many parts as the lock's clock has periods in a second.
    fn next_clocks(&mut self) -> u64 {
        let parts = u64::from(self.owed) + u64::from(self.hertz);
        let whole = u64::from(CLOCK_HERTZ);
        // below the rate of the lock's clock, so the cast keeps it
        self.owed = (parts % whole) as u32;
        parts / whole
    }
}

// What the laptop reads of a record that the lock sends, while each clock runs at its own rate.
fn handed_over(alloc: Global, way: Way, record: &str) -> Result<Vec<(u16, u8)>, AllocError> {
    let sender = SendQueue::new(way.sender());
    let receiver = ReceiveQueue::new(way.receiver());
    let mut link = Link::join(sender, receiver);
    let mut pace = Pace {
        hertz: way.to.hertz,
        owed: 0,
    };
    let mut arrived = Vec::new(alloc);
    let mut left = record.as_bytes().iter().peekable();
    for _ in 0..record.len().saturating_add(IDLE).saturating_mul(FRAME) {
        let _ = left.next_if(|next| link.load(u16::from(**next)).is_ok());
        let _ = link.send();
        for _ in 0..pace.next_clocks() {
            link.receive();
        }
        if let Ok(entry) = link.read() {
            arrived.push(entry)?;
        }
    }
    Ok(arrived)
}

// Whether the two fit, and what arrives of a record.
fn hand_over(rt: &(impl Print + AllocGlobal), way: Way, record: &str) -> anyhow::Result<()> {
    println!(rt; "Fit:     lock to laptop: {}", InWords(way.verdict()))?;
    println!(rt;
        "Fit:     laptop to lock: {}",
        InWords(way.back().verdict())
    )?;
    let arrived = handed_over(rt.alloc(), way, record)?;
    let entries = arrived.as_slice();
    println!(rt;
        "Arrived: {} characters, {} of them with a flag",
        entries.len(),
        flagged(entries)
    )?;
    Ok(print_text(rt, entries)?)
}

pub fn join(rt: &(impl Print + AllocGlobal), record: &str) -> anyhow::Result<()> {
    let lock = Clocked {
        timing: built_in()?,
        hertz: CLOCK_HERTZ,
    };
    let laptop = Clocked {
        timing: laptop_timing().map_err(|_| anyhow!("the laptop's settings are out of range"))?,
        hertz: LAPTOP_HERTZ,
    };
    let hurried = Clocked {
        hertz: LAPTOP_OFF_HERTZ,
        ..laptop
    };
    println!(rt;
        "Lock:    divider {DIVIDER}, modulator {MODULATOR:02X}h, 8N1, clocked at {CLOCK_HERTZ} Hz"
    )?;
    println!(rt; "Laptop:  divider {LAPTOP_DIVIDER}, 8N1, clocked at {LAPTOP_HERTZ} Hz")?;
    hand_over(
        rt,
        Way {
            from: lock,
            to: laptop,
        },
        record,
    )?;
    println!(rt; "")?;
    println!(rt; "Laptop:  the same, but its clock is off: {LAPTOP_OFF_HERTZ} Hz")?;
    hand_over(
        rt,
        Way {
            from: lock,
            to: hurried,
        },
        record,
    )
}
