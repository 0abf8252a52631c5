// Stretches with a known end: one step with both bits wrong; the ten places of the least-weight difference, of which four may be wrong and five not; ends above 63; nothing held.
#![tactic(auto)]

use cases_lib::{bytes_of, end_line, row, show, show_bits, small, wide};
use isdb_fec::conv::ViterbiDecoder;
use refusal::Refusal;
use trellis::FRAME_WORDS;

// The coded bits, X of step t at 2t and Y at 2t + 1, in which the inputs 1000000 differ from 0000000, as powers of 2: 0, 1, 2, 4, 5, 6, 7, 11, 12, 13. All
// of them are 0x38f7.
const PLACES: [u32; 10] = [1, 2, 4, 16, 32, 64, 128, 2048, 4096, 8192];

// The soft values of seven steps: -1 where a bit of `received` is 1.
fn soft_pairs(received: u32) -> [f32; 14] {
    let mut bits = received;
    let mut xs = [1.0f32; 14];
    for x in xs.iter_mut() {
        if bits % 2 == 1 {
            *x = -1.0f32;
        }
        bits = bits / 2;
    }
    xs
}

// The number of the answer; seven bits are read.
fn read(
    received: u32,
    start: u8,
    end: u8,
    decisions: &mut [u64; 5120],
    out: &mut [u8; 7],
) -> usize {
    let xs = soft_pairs(received);
    let r = known_end::read_between(1024, start, end, &xs, decisions, out);
    row(r.map(|_| ()).map_err(|t| t.row))
}

fn are_zero(out: &[u8; 7]) -> bool {
    bytes_of(out, 0, 7, 0) == 7
}

#[derive(Clone, Copy)]
struct Errors {
    count: u32,
    wrong: u32,
}

// The places that the bits of c choose.
fn chosen(c: u32) -> Errors {
    let mut rest = c;
    let mut count: u32 = 0;
    let mut wrong: u32 = 0;
    for place in PLACES {
        if rest % 2 == 1 {
            count = count % 10 + 1;
            wrong = wrong | place;
        }
        rest = rest / 2;
    }
    Errors { count, wrong }
}

// Whether the inputs 0000000 are read where the coded bits `wrong` are received wrong.
fn mended(wrong: u32, decisions: &mut [u64; 5120]) -> bool {
    let mut out = [9u8; 7];
    let answer = read(wrong, 0, 0, decisions, &mut out);
    (answer == 0) & are_zero(&out)
}

// How many choices of so many of the ten places there are, and of how many of them the sent inputs are read.
fn survey(wanted: u32) {
    let mut decisions = [7u64; 5120];
    let mut choices: u32 = 0;
    let mut right: u32 = 0;
    for c in 0..1024u32 {
        let x = chosen(c);
        if x.count == wanted {
            choices = choices % 1024 + 1;
            if mended(x.wrong, &mut decisions) {
                right = right % 1024 + 1;
            }
        }
    }
    let found = [wide(wanted), wide(choices), wide(right)];
    show(b"% wrong bits: choices % right %\n", &found);
}

// The input 1 from state 0 with both bits wrong: what is read from the best state, and from the true end.
fn one_step() -> Result<(), Refusal> {
    let mut decisions = [7u64; FRAME_WORDS];
    let mut out = [9u8; 2];
    let dec = ViterbiDecoder::with_state(128, 0)?;
    let pair = [1.0f32, 1.0f32];
    let pushed = dec.push(&pair, &mut decisions, &mut out)?;
    let best = pushed.dec.flush(&mut decisions, &mut out)?;
    let first = small(out[0]);
    let again = dec.push(&pair, &mut decisions, &mut out)?;
    let end = again.dec.flush_at(32, &mut decisions, &mut out)?;
    let second = small(out[0]);
    let none = end.dec.flush_at(5, &mut decisions, &mut out);
    let found = [
        best.count,
        first,
        end.count,
        second,
        row(none.map(|_| ())),
        none.map_or(0, |r| r.count),
    ];
    show(
        b"one step: flush % #, flush_at 32 % #, nothing held: answer % bits %\n",
        &found,
    );
    Ok(())
}

fn show_out(out: &[u8; 7]) {
    show_bits(out);
    end_line();
}

// The reading of a stretch that is far from every path, between the states.
fn line(start: u8, end: u8) {
    let mut decisions = [7u64; 5120];
    let mut out = [9u8; 7];
    let answer = read(0x1234, start, end, &mut decisions, &mut out);
    let found = [small(start), small(end), answer];
    show(b"from % to %: answer % bits ", &found);
    show_out(&out);
}

fn main() {
    let Ok(()) = one_step() else {
        return;
    };
    for wrong in 1..6u32 {
        survey(wrong);
    }
    line(0, 63);
    line(0, 255);
    line(64, 127);
    line(200, 0);
    line(8, 0);
}
