// The inner code on published and worked values: the coded tails of the synchronization words, the counts of released bits, and the
// places where a decoder is easily wrong. `stdout` has the values of document 01.
#![tactic(auto)]

ghost use Rattle.std.specs.Prelude.{◌≤◌, ◌<◌, length};

use cases_lib::{alike, one, row, show, show_line, step, text, words_of};
use cases_paths::isdb_label;
use isdb_fec::conv::{ConvEncoder, Released, ViterbiDecoder, branch_output};
use refusal::Refusal;
use trellis::FRAME_WORDS;
use viterbi_step::branch_number;

const W1: u32 = 0x1b95;

const W2: u32 = 0xa340;

const W3: u32 = 0x5cbf;

fn hex_digit(n: u32) -> u8 {
    let d = (n % 16) as u8;
    if d < 10 { 48 + d } else { 55 + d }
}

// Five hexadecimal digits, and the byte behind them.
fn print_hex(n: u32, end: u8) {
    let digits = [
        hex_digit(n / 65536),
        hex_digit(n / 4096),
        hex_digit(n / 256),
        hex_digit(n / 16),
        hex_digit(n),
        end,
    ];
    text(&digits);
}

// The last 20 coded bits of the word's 16 bits, high bit first, from the state `start`: X then Y of each of the last ten steps.
fn tail(word: u32, start: u8) -> u32 {
    let mut enc = ConvEncoder { state: start };
    let mut coded: u32 = 0;
    for k in 0..16u32 {
        let bit = ((word >> (15 - k)) % 2) as u8;
        let Ok(p) = enc.push(bit) else {
            return 0;
        };
        enc = p.enc;
        coded = coded % 262144 * 4 + (p.x % 2) as u32 * 2 + (p.y % 2) as u32;
    }
    coded
}

fn print_tails(start: u8) {
    print_hex(tail(W1, start), b' ');
    print_hex(tail(W2, start), b' ');
    print_hex(tail(W3, start), b'\n');
}

fn count_known(
    traceback: usize,
    bits: &[u8],
    n: usize,
    decisions: &mut [u64],
    out: &mut [u8],
) -> usize {
    if n > bits.len() {
        return 0;
    }
    let Ok(dec) = ViterbiDecoder::new(traceback) else {
        return 0;
    };
    dec.push_known(&bits[..n], decisions, out)
        .map_or(0, |r| r.count)
}

// How many bits n steps release, of known zeros from the state 0.
fn released(traceback: usize, n: usize) -> usize {
    let bits = [0u8; FRAME_WORDS];
    let mut decisions = [0u64; FRAME_WORDS];
    let mut out = [0u8; 4096];
    count_known(traceback, &bits, n, &mut decisions, &mut out)
}

fn handed(pm: [f32; 64]) -> ViterbiDecoder {
    ViterbiDecoder {
        pm,
        held: 0,
        traceback: 128,
    }
}

// The path values after a call on space of its own.
fn after_pairs(pm: [f32; 64], pairs: &[f32]) -> [f32; 64] {
    let mut decisions = [0u64; FRAME_WORDS];
    let mut out = [0u8; 4];
    let r = handed(pm).push(pairs, &mut decisions, &mut out);
    r.map_or(pm, |p| p.dec.pm)
}

fn after_metrics(pm: [f32; 64], metrics: &[f32]) -> [f32; 64] {
    let mut decisions = [0u64; FRAME_WORDS];
    let mut out = [0u8; 4];
    let r = handed(pm).push_metrics(metrics, &mut decisions, &mut out);
    r.map_or(pm, |p| p.dec.pm)
}

fn after_known(pm: [f32; 64], bits: &[u8]) -> [f32; 64] {
    let mut decisions = [0u64; FRAME_WORDS];
    let mut out = [0u8; 4];
    let r = handed(pm).push_known(bits, &mut decisions, &mut out);
    r.map_or(pm, |p| p.dec.pm)
}

// The maximum is subtracted at the end of an empty call of soft values, and not at that of known bits.
fn empty_calls() -> bool {
    let mut pm = [1.0f32; 64];
    pm[0] = 5.0;
    let pairs = [0.0f32; 0];
    let bits = [0u8; 0];
    let p = after_pairs(pm, &pairs);
    let q = after_known(pm, &bits);
    (p[0] == 0.0) & (p[1] == -4.0) & (q[0] == 5.0) & (q[1] == 1.0)
}

// A pair step adds lx, then ly, each rounded; four metrics add once. State 0 has 2^24, where 1 is half a unit.
fn two_additions() -> bool {
    let mut pm = [0.0f32; 64];
    pm[0] = 16777216.0;
    let pairs = [1.0f32; 2];
    let metrics = [2.0f32, 0.0, 0.0, -2.0];
    let p = after_pairs(pm, &pairs);
    let q = after_metrics(pm, &metrics);
    (p[0] == 0.0) & (p[32] == -2.0) & (q[0] == 0.0) & (q[32] == -4.0)
}

// The path values 1000.3 + 0.7 i.
fn rising() -> [f32; 64] {
    let mut pm = [0.0f32; 64];
    let mut number = 0.0f32;
    for value in &mut pm {
        *value = 1000.3 + 0.7 * number;
        number = number + 1.0;
    }
    pm
}

// Of how many j the state j has the greater of its two predecessors less the greatest of all, which is that of state 63, and state 32 + j has low.
fn ruled_from(pm: [f32; 64], p: [f32; 64], low: f32) -> usize {
    let mut n: usize = 0;
    for j in 0..32usize {
        n += one((p[j] == pm[2 * j + 1] - pm[63]) & (p[32 + j] == low));
    }
    n
}

// A known bit sets the states that it rules out before the maximum is subtracted, and has no other subtraction: one before it would leave -1.0e9.
fn ruled_out() -> bool {
    let pm = rising();
    let bits = [0u8; 1];
    let p = after_known(pm, &bits);
    (p[31] == 0.0) & (ruled_from(pm, p, -1000001024.0) == 32)
}

// What a call and the flush behind it leave: the path values and the first decision word of the call, the count and the first two places of the flush.
#[derive(Clone, Copy)]
struct Left {
    pm: [f32; 64],
    word: u64,
    count: usize,
    first: u8,
    second: u8,
}

fn flushed(
    pushed: Released,
    decisions: &mut [u64; FRAME_WORDS],
    out: &mut [u8; 4],
) -> Result<Left, Refusal> {
    let dec = pushed.dec;
    let pm = dec.pm;
    let word = decisions[0];
    let b = dec.flush(decisions, out)?;
    Ok(Left {
        pm,
        word,
        count: b.count,
        first: out[0],
        second: out[1],
    })
}

fn known_and_flush(dec: ViterbiDecoder, bits: &[u8; 1]) -> Result<Left, Refusal> {
    let mut decisions = [0u64; FRAME_WORDS];
    let mut out = [7u8; 4];
    let a = dec.push_known(bits, &mut decisions, &mut out)?;
    flushed(a, &mut decisions, &mut out)
}

fn metrics_and_flush(
    made: Result<ViterbiDecoder, Refusal>,
    metrics: &[f32; 4],
) -> Result<Left, Refusal> {
    let mut decisions = [0u64; FRAME_WORDS];
    let mut out = [7u8; 4];
    let dec = made?;
    let a = dec.push_metrics(metrics, &mut decisions, &mut out)?;
    flushed(a, &mut decisions, &mut out)
}

// Below -1.0e9 a known bit is not the decoded one.
fn known_bit_loses() -> bool {
    let bits = [0u8; 1];
    let Ok(l) = known_and_flush(handed([-4.0e9f32; 64]), &bits) else {
        return false;
    };
    let p = l.pm;
    (p[0] == -3.0e9) & (p[32] == 0.0) & (l.count == 1) & (l.first == 1)
}

// A known start is no stronger than 1,000,000: the path of this one step does not begin in state 0.
fn start_loses() -> bool {
    let metrics = [-1048576.0f32, 1048576.0, -1048576.0, -1048576.0];
    let Ok(l) = metrics_and_flush(ViterbiDecoder::new(128), &metrics) else {
        return false;
    };
    let p = l.pm;
    (p[0] < 0.0) & (p[1] == 0.0) & (l.count == 1) & (l.first == 1) & (l.second == 7)
}

// An odd predecessor takes a tie, and the highest of the best states is traced.
fn ties() -> bool {
    let metrics = [0.0f32; 4];
    let Ok(l) = metrics_and_flush(ViterbiDecoder::new_unknown_state(128), &metrics) else {
        return false;
    };
    (l.word == 0xffff_ffff_ffff_ffff) & (l.count == 1) & (l.first == 1)
}

// The row's number in a call's answer.
fn number<T: Copy>(r: Result<T, Refusal>) -> usize {
    row(r.map(|_| ()))
}

fn pushed(dec: ViterbiDecoder, pairs: &[f32]) -> usize {
    let mut decisions = [0u64; FRAME_WORDS];
    let mut out = [0u8; 4];
    number(dec.push(pairs, &mut decisions, &mut out))
}

fn pushed_short(dec: ViterbiDecoder, pairs: &[f32]) -> usize {
    let mut decisions = [0u64; 4223];
    let mut out = [0u8; 4];
    number(dec.push(pairs, &mut decisions, &mut out))
}

fn not_a_number() -> f32 {
    0.0f32 / 0.0f32
}

// Three values that are no numbers, to a state with its path values alike.
fn pushed_odd(x: f32, held: usize, traceback: usize) -> usize {
    let odd = [not_a_number(); 3];
    let dec = ViterbiDecoder {
        pm: [x; 64],
        held,
        traceback,
    };
    pushed(dec, &odd)
}

// The first row that holds, from the top: 3, 4, 5, 7, 9, and no row at the limits themselves.
fn refusals() -> bool {
    let wide = [1048576.0f32, -1048576.0];
    let wider = [1048577.0f32, 0.0];
    let limit = 4294967296.0f32;
    let dec = handed([limit; 64]);
    let a = (pushed_odd(not_a_number(), 0, 0) == 3) & (pushed_odd(0.0, FRAME_WORDS, 128) == 4);
    let b = (pushed_odd(not_a_number(), 0, 128) == 4) & (pushed_odd(limit, 0, 128) == 5);
    let c = (pushed(dec, &wider) == 7) & (pushed_short(dec, &wide) == 9);
    a & b & c & (pushed(dec, &wide) == 0)
}

// Pushes the metrics from..to.
fn push_part(
    dec: ViterbiDecoder,
    metrics: &[f32],
    from: usize,
    to: usize,
    decisions: &mut [u64],
    out: &mut [u8],
) -> Result<Released, Refusal>
    requires { (from ≤ to) × (to ≤ length metrics.now) }
{
    dec.push_metrics(&metrics[from..to], decisions, out)
}

// How many path values are x.
fn count_of(pm: &[f32; 64], x: f32) -> usize {
    pm.iter().filter(|value| **value == x).count()
}

// 128 quadruples in two calls, the first of n metrics, by a decoder with all path values 0 and the held count given. Each quadruple is 2^20 four times, but the last is
// 2^20 and three times 2^20 - 2.5. Of the two branches into a state the outputs are complements, so 32 states have a branch (0, 0) and 32 have not, at the last step. The
// values are then k 2^20 and k 2^20 - 2.5 rounded, k being the steps since the maximum was subtracted: a difference of 2 for k from 17 to 32 (a unit is 2), 4 for k from
// 33 to 64 (a unit is 4) and 0 for k from 65 to 128 (a unit is 8). Shown is how many path values are 0, -2 and -4.
fn counted(case: usize, held: usize, n: usize) -> Result<(), Refusal>
    requires { n ≤ 512 }
{
    let mut metrics = [1048576.0f32; 512];
    metrics[509] = 1048573.5;
    metrics[510] = 1048573.5;
    metrics[511] = 1048573.5;
    let dec = ViterbiDecoder {
        pm: [0.0f32; 64],
        held,
        traceback: 128,
    };
    let mut decisions = [0u64; FRAME_WORDS];
    let mut out = [0u8; 4];
    let a = push_part(dec, &metrics, 0, n, &mut decisions, &mut out)?;
    let b = push_part(a.dec, &metrics, n, 512, &mut decisions, &mut out)?;
    let pm = b.dec.pm;
    let values = [count_of(&pm, 0.0), count_of(&pm, -2.0), count_of(&pm, -4.0)];
    show_line(
        b"128 quadruples in one call\nin calls of 100 and 28\nin calls of 64 and 64\nin one call after 28 held steps",
        case,
    );
    show(b": # path values are 0, # are -2, # are -4\n", &values);
    Ok(())
}

// Whether `branch_output`, and the number that the step of four metrics reads, are the coded pair, for the register 64 u + state.
fn is_branch(register: u32) -> bool {
    let state = (register % 64) as u8;
    let u = (register / 64 % 256) as u8;
    let Ok(b) = branch_output(state, u) else {
        return false;
    };
    let pair = isdb_label(register / 64, register);
    (b.x < 2) & (2 * (b.x as u32) + (b.y as u32) == pair) & (branch_number(u, state) as u32 == pair)
}

// How many of the 128 pairs of state and input have the branch output and the branch number that are worked out here.
fn branches() -> usize {
    (0..128u32).filter(|r| is_branch(*r)).count()
}

// All 128 pairs agree. States up to 63 are accepted, 64 is refused by row 4.
fn show_branches() {
    let refused = branch_output(64, 1);
    let answer = ConvEncoder { state: 64 }.push(1);
    let found = [branches(), number(refused), number(answer)];
    show(
        b"branch_output and branch_number: # of 128 pairs agree; in state 64 branch_output answers #, an encoder's push #\n",
        &found,
    );
}

// A metric: from 8 to 15 if it is that of the sent pair, else from 0 to 7.
fn metric(x: u64, sent: bool) -> f32 {
    let m = (x % 8) as u8;
    let f = m as f32;
    if sent { f + 8.0 } else { f }
}

// Pseudo-random inputs, and a quadruple for each: the sent path, from state 0, has the greatest metric at every step.
fn send(bits: &mut [u8; 4226], metrics: &mut [f32; 16904]) {
    let mut x: u64 = 1;
    let mut state: u32 = 0;
    for k in 0..4226usize {
        x = step(x);
        let u = ((x >> 63) % 2) as u32;
        let sent = isdb_label(u, state);
        state = (u % 2) * 32 + state % 64 / 2;
        bits[k] = (u % 2) as u8;
        metrics[4 * k] = metric(x, sent == 0);
        metrics[4 * k + 1] = metric(x >> 8, sent == 1);
        metrics[4 * k + 2] = metric(x >> 16, sent == 2);
        metrics[4 * k + 3] = metric(x >> 24, sent == 3);
    }
}

// 4,095 + traceback steps release nothing. One more releases the 4,096 oldest bits, all as sent, traced from the best state; of 4,096 + traceback words, as many as the
// traceback stay held, the 4,096 others are 0, and those past them keep their ones: 133 of 4,230 with the traceback 1, and 6 with 128.
fn release_sent(
    traceback: usize,
    bits: &[u8; 4226],
    metrics: &[f32; 16904],
    decisions: &mut [u64; 4230],
    out: &mut [u8; 4096],
) -> Result<ViterbiDecoder, Refusal>
    requires { traceback ≤ 128 }
{
    let made = ViterbiDecoder::new(traceback)?;
    let last = 4095 + traceback;
    let a = push_part(made, metrics, 0, 4 * last, decisions, out)?;
    let b = push_part(a.dec, metrics, 4 * last, 4 * last + 4, decisions, out)?;
    let found = [
        last,
        a.count,
        b.count,
        alike(bits, 0, out, 4096),
        words_of(decisions, traceback, last + 1, 0),
        words_of(decisions, last + 1, 4230, 0xffff_ffff_ffff_ffff),
    ];
    show(
        b"# quadruples release # bits, one more #: # as sent, # freed words are 0, # past them are kept\n",
        &found,
    );
    Ok(b.dec)
}

// The flush puts out the 128 bits left, as sent, and zeroes their words; a second one has none. Path values stay, so the next two steps go on: 2 bits as sent. From path values 0 or those of state 0 they would be read as
// 00 or 01, where 11 is sent.
fn flush_sent(
    dec: ViterbiDecoder,
    bits: &[u8; 4226],
    metrics: &[f32; 16904],
    decisions: &mut [u64; 4230],
    out: &mut [u8; 4096],
) -> Result<(), Refusal> {
    let f = dec.flush(decisions, out)?;
    let same = alike(bits, 4096, out, 128);
    let zeros = words_of(decisions, 0, FRAME_WORDS, 0);
    let g = f.dec.flush(decisions, out)?;
    let t = push_part(g.dec, metrics, 16896, 16904, decisions, out)?;
    let h = t.dec.flush(decisions, out)?;
    let found = [
        f.count,
        same,
        zeros,
        g.count,
        h.count,
        alike(bits, FRAME_WORDS, out, 2),
    ];
    show(
        b"flush: # bits, # as sent, # words are 0; again: # bits; two steps more: # bits, # as sent\n",
        &found,
    );
    Ok(())
}

fn sent_and_released() -> Result<(), Refusal> {
    let mut bits = [0u8; 4226];
    let mut metrics = [0.0f32; 16904];
    let mut decisions = [0xffff_ffff_ffff_ffffu64; 4230];
    let mut out = [7u8; 4096];
    send(&mut bits, &mut metrics);
    let mut other = [7u8; 4096];
    release_sent(1, &bits, &metrics, &mut decisions, &mut other)?;
    let dec = release_sent(128, &bits, &metrics, &mut decisions, &mut out)?;
    flush_sent(dec, &bits, &metrics, &mut decisions, &mut out)
}

// Held words are traced as they are handed. With zeros every predecessor is even: from state 63, the highest best, the last six bits are the state's and the ten before them are 0.
fn handed_words() -> Result<(), Refusal> {
    let dec = ViterbiDecoder {
        pm: [0.0f32; 64],
        held: 16,
        traceback: 128,
    };
    let mut decisions = [0u64; FRAME_WORDS];
    let mut out = [7u8; 16];
    let r = dec.flush(&mut decisions, &mut out)?;
    let traced = [0u8, 0, 0, 0, 0, 0, 0, 0, 0, 0, 1, 1, 1, 1, 1, 1];
    let found = [r.count, alike(&traced, 0, &out, 16)];
    show(
        b"held words of zeros: # bits, # as in 0000000000111111\n",
        &found,
    );
    Ok(())
}

// Row 3 comes before 4,096 + traceback is worked out: 18,446,744,073,709,551,615 and 1,025 give 3 in every call; 1,024 is accepted (0), with no output place and just
// 5,120 decision words. A constructor takes 0 as 1; a state with 0 is refused.
fn tracebacks(traceback: usize, decisions: &mut [u64; 5120], out: &mut [u8; 0]) {
    let dec = ViterbiDecoder {
        pm: [0.0f32; 64],
        held: 0,
        traceback,
    };
    let values = [0.0f32; 4];
    let bits = [0u8; 1];
    let found = [
        traceback,
        number(ViterbiDecoder::new(traceback)),
        number(ViterbiDecoder::new_unknown_state(traceback)),
        number(ViterbiDecoder::with_state(traceback, 64)),
        number(dec.push(&values, decisions, out)),
        number(dec.push_metrics(&values, decisions, out)),
        number(dec.push_known(&bits, decisions, out)),
        number(dec.flush(decisions, out)),
    ];
    show(b"traceback #: made # # #, handed # # # #\n", &found);
}

fn all_tracebacks() {
    let mut decisions = [0u64; 5120];
    let mut out = [0u8; 0];
    let tried = [0usize, 1024, 1025, 18446744073709551615];
    for traceback in tried {
        tracebacks(traceback, &mut decisions, &mut out);
    }
}

// How many bits are released, and the cases.
fn cases() {
    let found = [
        released(128, 4223),
        released(128, FRAME_WORDS),
        released(1, 4096),
        released(0, 4097),
        one(empty_calls()),
        one(two_additions()),
        one(ruled_out()),
        one(known_bit_loses()),
        one(start_loses()),
        one(ties()),
        one(refusals()),
    ];
    show(
        b"#\n#\n#\n#\nempty calls @\ntwo additions @\nruled out @\nknown bit loses @\nstart loses @\nties @\nrefusals @\n",
        &found,
    );
}

// Calls that all accept.
fn accepted() -> Result<(), Refusal> {
    // The maximum is subtracted after steps 64 and 128.
    counted(1, 0, 512)?;
    // After steps 64, 100 and 128.
    counted(2, 0, 400)?;
    // After steps 64 and 128: the count restarts at each call.
    counted(3, 0, 256)?;
    // The same: held steps do not count. If they did, it would be after steps 36, 100 and 128.
    counted(4, 28, 512)?;
    sent_and_released()?;
    handed_words()
}

fn main() {
    print_tails(0);
    print_tails(17);
    print_tails(63);
    cases();
    let Ok(()) = accepted() else {
        text(b"refused\n");
        return;
    };
    all_tracebacks();
    show_branches();
}
