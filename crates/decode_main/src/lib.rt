// A frame's bits, bytes and strain: all runs read into one decoder, its end, the bytes, and the strained steps of each slot.
#![tactic(auto)]

ghost use Rattle.trellis.specs.Isdb;
ghost use Rattle.std.specs.Prelude.{◌≡◌, cond, true, false, ◌+◌, ◌≤◌, length, replicate};
ghost use Rattle.std.specs.Float.{binary32};
ghost use Rattle.std.specs.Float.Ieee.{of_bits};
ghost use Rattle.trellis.specs.Lists.{upto, laid};
ghost use Rattle.trellis.specs.Run.{start_at, start_unknown};
ghost use Rattle.isdbs_frame.specs.Frame.{main_symbols, sync_bits};
ghost use Rattle.isdbs_plan.specs.RunsOf.{frame_steps, load_bytes, Planned, valid_total};
ghost use Rattle.trellis.specs.Isdb.{frame_words};
ghost use Rattle.strain_marks.specs.Marks.{frame_mark};
ghost use Rattle.isdbs_metrics.specs.Scales.{received_by};
ghost use Rattle.decode_main.specs.Runs.{bits_from, FrameRead};
ghost use Rattle.decode_main.specs.Runs.{FrameRead};
ghost use Rattle.strain_marks.specs.Strain.{StrainLaid};
ghost use Rattle.decode_main.specs.Final.{FrameCounted};

use decode_all::read_runs;
use decode_bytes::write_bytes;
use decode_end::read_end;
use decode_strain::count_strain;
use isdbs_core::frame::SYNC_BITS;
use isdbs_core::slots::Plan;
use isdbs_points::{Mapping, start_state};
use trellis::{LONGEST_FRAME, STATES};
use viterbi_core::{start_at, start_unknown};

// Decoder settings.
#[derive(Clone, Copy)]
pub struct DemodOptions {
    pub mapping: Mapping,
    // Start in the state that W2 or W3 left, else in any.
    pub known_start: bool,
    // Scales of the soft values: one for each combination, in the order of words 1 to 7.
    pub scales: [f32; 7],
}

impl Default for DemodOptions {
    ghost is_default = { λ o. (o.mapping.conjugate ≡ false) × (o.mapping.qpsk_p1_on_q ≡ false) × (o.mapping.tc8psk_c1_is_y ≡ true)
        × (o.known_start ≡ true) × (o.scales ≡ replicate 7 (of_bits binary32 0x4100_0000)) };

    fn default() -> Self {
        Self {
            mapping: Mapping::default(),
            known_start: true,
            scales: [8.0; 7],
        }
    }
}

// A frame to be read: its plan, whether it is the first of a superframe, and the decoder settings.
#[derive(Clone, Copy)]
pub struct FrameTask {
    pub plan: Plan,
    pub first: bool,
    pub options: DemodOptions,
}

// The decoded bits of a frame: one for each step, then the 16 of W1. The path values start as `start`.
fn decode_bits(
    f: FrameTask,
    start: [f32; STATES],
    re: &[f64],
    im: &[f64],
    decisions: &mut [u64],
    bits: &mut [u8],
    marks: &mut [u8],
)
    requires { Planned f.plan × (main_symbols ≤ length re.now) × (main_symbols ≤ length im.now) × (frame_words ≤ length decisions.old) × (frame_steps f.plan.table + sync_bits ≤ length bits.old) × (frame_steps f.plan.table ≤ length marks.old) }
    ensures read { (bits.new ≡ laid (bits_from f.plan.table (received_by re.now im.now f.options.mapping f.options.scales) start) bits.old) × (decisions.new ≡ laid (replicate frame_words 0) decisions.old) }
    ensures marked { marks.new ≡ laid (upto (frame_mark f.plan.table (received_by re.now im.now f.options.mapping f.options.scales)) (frame_steps f.plan.table)) marks.old }
{
    let p = f.plan;
    let o = f.options;
    let m = o.mapping;
    let scales = o.scales;
    let mut pm = start;
    let at = read_runs(p, m, scales, &mut pm, re, im, decisions, bits, marks);
    read_end(&mut pm, at, decisions, bits);
}

// The path values before a frame.
fn start_values(known_start: bool, state: u8) -> [f32; STATES]
    ensures { result ≡ cond known_start (start_at Isdb.states state) (start_unknown Isdb.states) }
{
    if known_start {
        start_at(state)
    } else {
        start_unknown()
    }
}

// A whole frame: its decoded bits, its bytes, and the mark of each step.
pub fn decode(
    f: FrameTask,
    re: &[f64],
    im: &[f64],
    decisions: &mut [u64],
    bits: &mut [u8],
    bytes: &mut [u8],
    marks: &mut [u8],
)
    requires { Planned f.plan × (main_symbols ≤ length re.now) × (main_symbols ≤ length im.now) × (frame_words ≤ length decisions.old) × (frame_steps f.plan.table + sync_bits ≤ length bits.old) × (load_bytes f.plan.table ≤ length bytes.old) × (frame_steps f.plan.table ≤ length marks.old) }
    ensures read { FrameRead f.plan.table (received_by re.now im.now f.options.mapping f.options.scales) f.options.known_start f.first decisions.old decisions.new bits.old bits.new bytes.old bytes.new }
    ensures marked { marks.new ≡ laid (upto (frame_mark f.plan.table (received_by re.now im.now f.options.mapping f.options.scales)) (frame_steps f.plan.table)) marks.old }
{
    let p = f.plan;
    let o = f.options;
    let m = o.mapping;
    let state = start_state(f.first);
    let start = start_values(o.known_start, state);
    decode_bits(f, start, re, im, decisions, bits, marks);
    let end = p.steps + SYNC_BITS;
    write_bytes(p, m, state, re, im, &bits[0..end], bytes);
}

// A whole frame with room for its marks: it is counted by these and the final bits.
fn decode_marked(
    f: FrameTask,
    re: &[f64],
    im: &[f64],
    decisions: &mut [u64],
    bits: &mut [u8],
    bytes: &mut [u8],
    counts: &mut [u32],
    marks: &mut [u8; LONGEST_FRAME],
) -> u32
    requires { Planned f.plan × (main_symbols ≤ length re.now) × (main_symbols ≤ length im.now) × (frame_words ≤ length decisions.old) × (frame_steps f.plan.table + sync_bits ≤ length bits.old) × (load_bytes f.plan.table ≤ length bytes.old) × (valid_total f.plan.table ≤ length counts.old) }
    ensures read { FrameRead f.plan.table (received_by re.now im.now f.options.mapping f.options.scales) f.options.known_start f.first decisions.old decisions.new bits.old bits.new bytes.old bytes.new }
    ensures counted { FrameCounted f.plan.table (received_by re.now im.now f.options.mapping f.options.scales) f.options.known_start f.first marks.new counts.old counts.new result }
{
    decode(f, re, im, decisions, bits, bytes, marks);
    let p = f.plan;
    let end = p.steps + SYNC_BITS;
    let begun = start_state(f.first);
    count_strain(p, begun as usize, marks, &bits[0..end], counts)
}

// A whole frame: its decoded bits, its bytes, and the strained steps of each valid slot. The answer is their sum.
pub fn decode_strained(
    f: FrameTask,
    re: &[f64],
    im: &[f64],
    decisions: &mut [u64],
    bits: &mut [u8],
    bytes: &mut [u8],
    counts: &mut [u32],
) -> u32
    requires { Planned f.plan × (main_symbols ≤ length re.now) × (main_symbols ≤ length im.now) × (frame_words ≤ length decisions.old) × (frame_steps f.plan.table + sync_bits ≤ length bits.old) × (load_bytes f.plan.table ≤ length bytes.old) × (valid_total f.plan.table ≤ length counts.old) }
    ensures read { FrameRead f.plan.table (received_by re.now im.now f.options.mapping f.options.scales) f.options.known_start f.first decisions.old decisions.new bits.old bits.new bytes.old bytes.new }
    ensures strain { StrainLaid f.plan.table (received_by re.now im.now f.options.mapping f.options.scales) f.options.known_start f.first counts.old counts.new result }
{
    let mut marks = [0u8; LONGEST_FRAME];
    decode_marked(f, re, im, decisions, bits, bytes, counts, &mut marks)
}
