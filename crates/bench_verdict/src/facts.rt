// What is known after a reading: of the frame, and of each slot.
use bench_firm::{Firmness, NO_SLOT};
use isdbs_core::frame::SLOTS;
use isdbs_core::tmcc::Table;

// A byte of which the best reading has another: its place, and both.
#[derive(Clone, Copy)]
pub struct Apart {
    pub at: usize,
    pub read: u8,
    pub best: u8,
}

// The frame that was read: its table, valid slots and bytes, trellis steps and how many of them are strained, and the points outside the margins; the first of its
// bytes of which the best reading has another, where there is one.
#[derive(Clone, Copy)]
pub struct Frame {
    pub table: Table,
    pub valid: usize,
    pub size: usize,
    pub steps: usize,
    pub strained: u32,
    pub outside: u32,
    pub apart: Option<Apart>,
}

// Of each valid slot: its strained steps; its lead in percent of a clean slot's; 1 where the best reading has other bytes; what it lacks to be firm, and the strength
// that it needs. Of each slot of the frame: the points outside the margins.
#[derive(Clone, Copy)]
pub struct Facts {
    pub strained: [u32; SLOTS],
    pub strength: [u32; SLOTS],
    pub apart: [u32; SLOTS],
    pub firmness: [Firmness; SLOTS],
    pub outside: [u32; SLOTS],
}

// Before anything is known but the strained steps.
pub fn facts_of(strained: [u32; SLOTS]) -> Facts {
    Facts {
        strained,
        strength: [0; SLOTS],
        apart: [0; SLOTS],
        firmness: [NO_SLOT; SLOTS],
        outside: [0; SLOTS],
    }
}
