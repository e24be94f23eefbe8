// A capture of a line, of any length, scanned piece by piece.
use super::lines::chosen;
use super::options::Given;
use anyhow::{Context, anyhow, ensure};
use capture::{Fault, Pieces, look_through};
use ends::Timing;
use shows::{Flags, readable};
use std::fs::File;
use std::io;
use std::io::Read;
use std::rt::Files;
use words::{FoundStyle, Takes};

const TAKES: Takes<'static> = Takes {
    options: &["--format", "--divider", "--modulator", "--as"],
    others: 1,
};

const PIECE: usize = 65_536;

// So many bytes pass between two lines on the progress.
const STEP: u64 = 10_000_000;

pub(crate) const HELP: &str = "usage: bench scan [FILE] [--as text|hex|decimal] [--format 8N1]
                  [--divider U] [--modulator M]

Scans a capture of a line, a byte 0 or 1 for each clock, as a port receives it,
and writes what it finds: characters as text, with the flags of spoiled ones in
brackets, or one to a line in hexadecimal or decimal. It reads the file, or
standard input without one, in pieces, so a capture may have any length. Without
settings it takes those of the lock.";

// No method: the enum is of words.
fn print_entry(rt: &impl Print, style: FoundStyle, (character, bits): (u16, u8)) -> io::Result<()> {
    match style {
        FoundStyle::Text => print!(rt; "{}", readable(character))?,
        FoundStyle::Hex => print!(rt; "{character:02X}h")?,
        FoundStyle::Decimal => print!(rt; "{character}")?,
    }
    let flags = Flags(bits);
    match (style, bits) {
        (FoundStyle::Text, 0) => Ok(()),
        (FoundStyle::Text, _) => print!(rt; "[{flags}]"),
        (_, 0) => println!(rt; ""),
        (_, _) => println!(rt; "  {flags}"),
    }
}

// Says what is wrong with a capture, and where it stands. No Display of `Fault`: a reader's error goes on as it is, and only the others are texts.
fn complaint(fault: Fault) -> anyhow::Error {
    match fault {
        Fault::Unread(error) => error.into(),
        Fault::NotALevel(place) => anyhow!(
            "byte {place} of the capture is no level: it is neither 0 nor 1"
        ),
        Fault::TooShort => anyhow!("a piece of the capture has too many entries"),
    }
}

fn tell_progress(rt: &impl Eprint, before: u64, after: u64) -> io::Result<()> {
    if before / STEP == after / STEP {
        return Ok(());
    }
    eprintln!(rt; "bench: {} million bytes scanned", after / 1_000_000)
}

// Scans a capture piece by piece, and writes what it finds. The buffers come from the caller: made here, the check unfolds their
// 65,536 zeros and runs out of memory.
fn print_pieces<I: Read>(
    rt: &(impl Print + Eprint),
    style: FoundStyle,
    pieces: &mut Pieces,
    input: &mut I,
    buffer: &mut [u8],
    entries: &mut [(u16, u8)],
) -> anyhow::Result<()> {
    // how long the input is nobody knows, and each loop must end
    for _ in 0..u64::MAX {
        let before = pieces.before();
        let piece = pieces.next(input, buffer, entries).map_err(complaint)?;
        if piece.bytes == 0 {
            break;
        }
        for entry in entries.iter().take(piece.entries) {
            print_entry(rt, style, *entry)?;
        }
        tell_progress(rt, before, pieces.before())?;
    }
    Ok(())
}

// Answers how many bytes the capture has.
fn scan_capture<I: Read>(
    rt: &(impl Print + Eprint + AllocGlobal),
    timing: &Timing,
    style: FoundStyle,
    input: &mut I,
) -> anyhow::Result<u64> {
    let mut buffer = vec![in rt.alloc(); 0; PIECE]?;
    let mut entries = vec![in rt.alloc(); (0, 0); PIECE]?;
    let mut pieces = Pieces::new(timing);
    print_pieces(
        rt,
        style,
        &mut pieces,
        input,
        buffer.as_mut_slice(),
        entries.as_mut_slice(),
    )?;
    let bytes = pieces.before();
    if style == FoundStyle::Text && bytes > 0 {
        println!(rt; "")?;
    }
    Ok(bytes)
}

fn scan_file(
    rt: &(impl Files + Print + Eprint + AllocGlobal),
    timing: &Timing,
    style: FoundStyle,
    path: &str,
) -> anyhow::Result<()> {
    let mut first = File::open(rt, path).context(format_args!("cannot open the file '{path}'"))?;
    // the whole capture is looked through before anything is written
    let bytes = {
        let mut buffer = vec![in rt.alloc(); 0; PIECE]?;
        look_through(&mut first, buffer.as_mut_slice()).map_err(complaint)?
    };
    ensure!(bytes > 0, "empty capture '{path}'");
    let mut file = File::open(rt, path).context(format_args!("cannot reopen the file '{path}'"))?;
    // where nothing comes the second time, as from a pipe, nothing is written and nothing is wrong
    scan_capture(rt, timing, style, &mut file)?;
    Ok(())
}

pub(crate) fn command(
    rt: &(impl Files + Input + Print + Eprint + AllocGlobal),
    words: &[String],
) -> anyhow::Result<()> {
    let words = Given::new("scan", TAKES, words)?;
    let style = words.style("text, hex and decimal")?;
    let timing = chosen(&words)?;
    if let Some(name) = words.other(0) {
        return scan_file(rt, &timing, style, name);
    }
    let bytes = scan_capture(rt, &timing, style, &mut rt.reader())?;
    ensure!(bytes > 0, "the capture on standard input is empty");
    Ok(())
}
