// What the bars of a picture show.
use isdbs_core::frame::SLOTS;

// What a valid slot lacks to be firm.
#[derive(Clone, Copy)]
pub enum Lack {
    Noisy,
    Disturbed,
    Weak,
    NotBest,
}

// Of a valid slot: the strength of its reading in percent, what it lacks to be firm, and the strength that it needs for that, where one would do.
#[derive(Clone, Copy)]
pub struct Level {
    pub strength: u32,
    pub lack: Option<Lack>,
    pub need: Option<u32>,
}

// Of each valid slot: its level and its strained steps. Of each slot of the frame: its modulation error ratio in tenths of a decibel with 300 more, where it has
// points; its points outside the margins.
#[derive(Clone, Copy)]
pub struct Rows {
    pub levels: [Level; SLOTS],
    pub strained: [u32; SLOTS],
    pub ratios: [Option<u32>; SLOTS],
    pub outside: [u32; SLOTS],
}
