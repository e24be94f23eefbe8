// Text drawn as a sender puts it on the line: as bytes, as runs of equal levels, or as a file for a waveform viewer.
use super::lines::chosen;
use super::options::Given;
use anyhow::{anyhow, ensure};
use ends::Timing;
use picture::{Run, Runs, draw};
use shows::level_name;
use std::io;
use std::io::Write;
use words::{PictureStyle, Takes};

const TAKES: Takes<'static> = Takes {
    options: &["--format", "--divider", "--modulator", "--as"],
    others: 1,
};

// The longest frame: thirteen bits of 65,536 clocks.
const MOST_CLOCKS: usize = 13 * 65_536;

pub(crate) const HELP: &str = "usage: bench draw TEXT [--as runs|bytes|vcd] [--format 8N1]
                  [--divider U] [--modulator M]

Draws a text as a port puts it on the line, one character after the other, and
writes the picture to standard output: the runs of equal levels one to a line,
or a byte 0 or 1 for each clock, or a VCD file that a waveform viewer opens, with
one time unit for each clock. Without settings it takes those of the lock.";

const VCD_HEAD: &str = "$comment one time unit is one clock of the port $end
$timescale 1 us $end
$scope module port $end
$var wire 1 ! line $end
$upscope $end
$enddefinitions $end";

// The style as a parameter, here and below, and no methods: the enum is of words.
fn write_head(rt: &impl Print, style: PictureStyle) -> io::Result<()> {
    match style {
        PictureStyle::Runs => println!(rt; "  from clock  level    clocks"),
        PictureStyle::Vcd => rt.println(VCD_HEAD),
        PictureStyle::Bytes => Ok(()),
    }
}

// Writes what has been drawn of a frame that begins with this clock. It begins with space and ends with mark, so
// no run goes on in the next.
fn write_frame(rt: &impl Print, style: PictureStyle, begin: u64, frame: &[u8]) -> io::Result<()> {
    if style == PictureStyle::Bytes {
        return io::writer(rt).write_all(frame);
    }
    for run in Runs::new(frame) {
        write_run(rt, style, begin.saturating_add(run.from as u64), run)?;
    }
    Ok(())
}

fn write_run(rt: &impl Print, style: PictureStyle, from: u64, run: Run) -> io::Result<()> {
    match style {
        PictureStyle::Runs => println!(rt;
            "  {from:>10}  {:<5}  {:>8}",
            level_name(run.level()),
            run.clocks
        ),
        PictureStyle::Vcd => println!(rt; "#{from}\n{}!", run.byte),
        PictureStyle::Bytes => Ok(()),
    }
}

// Apart from `draw_text`, since beside the making of its large buffer the check runs out of memory.
fn draw_character<'a>(
    timing: &Timing,
    character: u8,
    frame: &'a mut [u8],
) -> anyhow::Result<&'a [u8]> {
    let clocks = draw(timing, &[u16::from(character)], frame).map_err(|_| anyhow!(
        "a character has more bits than the format"
    ))?;
    let clocks = clocks.min(frame.len());
    Ok(&frame[..clocks])
}

fn draw_text(
    rt: &(impl Print + AllocGlobal),
    timing: &Timing,
    style: PictureStyle,
    text: &str,
) -> anyhow::Result<()> {
    let mut frame = vec![in rt.alloc(); 0; MOST_CLOCKS]?;
    let mut begin = 0u64;
    write_head(rt, style)?;
    for character in text.bytes() {
        let drawn = draw_character(timing, character, frame.as_mut_slice())?;
        write_frame(rt, style, begin, drawn)?;
        begin = begin.saturating_add(drawn.len() as u64);
    }
    if style == PictureStyle::Vcd {
        println!(rt; "#{begin}")?;
    }
    Ok(())
}

pub(crate) fn command(rt: &(impl Print + AllocGlobal), words: &[String]) -> anyhow::Result<()> {
    let words = Given::new("draw", TAKES, words)?;
    let style = words.style("runs, bytes and vcd")?;
    let timing = chosen(&words)?;
    let text = words.needed(0, "text")?;
    // a wide character is found before anything is written
    let characters = timing.format.characters();
    ensure!(
        text.bytes()
            .all(|character| u16::from(character) < characters),
        "a character of the text has more bits than the format"
    );
    draw_text(rt, &timing, style, text)
}
