// What a sender puts on the line: when each frame begins on the axis of the send clocks, which count from 0.
use super::times::End;
use line::Level;
use std::alloc::{AllocError, Global};

#[derive(Clone, Copy)]
struct Frame {
    begin: u32,
    character: u16,
}

#[derive(Drop)]
pub(crate) struct Schedule {
    end: End,
    frames: Vec<Frame>,
}

impl Schedule {
    pub(crate) fn new(heap: Global, end: End) -> Schedule {
        Schedule {
            end,
            frames: Vec::new(heap),
        }
    }

    // The first clock after all frames.
    fn free(&self) -> u32 {
        let clocks = self.end.frame_clocks;
        let last = self.frames.last();
        last.map_or(0, |frame| frame.begin.saturating_add(clocks))
    }

    // How many characters have not begun before this clock.
    pub(crate) fn waiting(&self, clock: u32) -> usize {
        self.frames
            .iter()
            .filter(|frame| frame.begin >= clock)
            .count()
    }

    // Whether nothing is left of any frame before this clock.
    pub(crate) fn is_over(&self, clock: u32) -> bool {
        self.free() <= clock
    }

    // Takes a character that is loaded just before this clock.
    pub(crate) fn add(&mut self, clock: u32, character: u16) -> Result<(), AllocError> {
        let begin = self.free().max(clock);
        self.frames.push(Frame { begin, character })?;
        Ok(())
    }

    // The level at a clock.
    pub(crate) fn level(&self, clock: u32) -> Level {
        let begun = self.frames.iter().rev().find(|frame| frame.begin <= clock);
        begun.map_or(Level::Mark, |frame| {
            self.end
                .level(frame.character, clock.saturating_sub(frame.begin))
        })
    }
}
