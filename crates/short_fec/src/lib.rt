// Encoder and decoder of a code of constraint length 3 to 7 with two generators. The decoder's state is that of isdb_fec: 64 path values, of which the
// first 2^(length-1) count, the held count and the traceback.
#![tactic(auto)]

ghost use Rattle.std.specs.Prelude.{◌≡◌, ◌⊎◌, true, ◌+◌, ◌*◌, ◌<◌, ◌≤◌, ◌/◌, ◌%◌, length, IfOk, MatchResult};
ghost use Rattle.refusal.specs.Rows.{first_row, answer_of};
ghost use Rattle.trellis.specs.Code.{output, moved};
ghost use Rattle.trellis.specs.Run.{pushed, block, traceback_limit, pair_steps, four_steps, known_steps, releases, holding};
ghost use Rattle.trellis.specs.Isdb.{rule};
ghost use Rattle.viterbi_core.specs.Calls.{Holds};
ghost use Rattle.short_code.specs.Codes.{code_of, labels, half_of, states_of, good_code, Fits};
ghost use Rattle.short_viterbi.specs.Soft.{soft_steps};
ghost use Rattle.isdb_fec.specs.Calls.{Fresh, Unchanged};
ghost use Rattle.isdb_fec.specs.AnswerLaws.{Enough};
ghost use Rattle.short_fec.specs.Rows.{encoder_rows, fresh_rows, stream_rows, known_rows, flush_rows};
ghost use Rattle.short_fec.specs.Calls.{start_values, unknown_values, call, steps, handed, best_of, end_of, Leaves, Flushes};
ghost use Rattle.trellis.specs.Isdb;

use isdb_fec::conv::{ConvEncoder, Pushed, Released, TRACEBACK_LIMIT, ViterbiDecoder};
use refusal::Refusal;
pub use short_code::Code;
use short_code::{bad, encode_bit, good, half};
use short_rows::{answer_encoder, answer_flush, answer_known, answer_stream};
use short_step::{best_state, renormalise, start_at};
use short_viterbi::{Setup, finish_at, known_steps, soft_steps};
use trellis::STATES;
use viterbi_core::{At, depth_of};
use viterbi_step::states;

// Encodes one bit.
pub fn push_bit(code: Code, enc: ConvEncoder, u: u8) -> Result<Pushed, Refusal>
    ensures answers { answer_of result ≡ first_row (encoder_rows code enc.state) }
    ensures outputs { IfOk result (λ p. (p.x ≡ output (code_of code) code.g1 (u % 2) enc.state) × (p.y ≡ output (code_of code) code.g2 (u % 2) enc.state) × (p.enc.state ≡ moved (half_of code) (u % 2) enc.state)) }
{
    let state = enc.state;
    answer_encoder(code, state)?;
    let c = encode_bit(code, half(code), state, u);
    Ok(Pushed {
        enc: ConvEncoder { state: c.state },
        x: c.x,
        y: c.y,
    })
}

// A fresh decoder with the path values pm.
fn fresh(code: Code, traceback: usize, pm: [f32; STATES]) -> Result<ViterbiDecoder, Refusal>
    ensures answers { answer_of result ≡ first_row (fresh_rows code traceback) }
    ensures made { IfOk result (λ v. Fresh traceback pm v) }
{
    if traceback > TRACEBACK_LIMIT {
        return Err(Refusal::Traceback);
    }
    if bad(code) {
        return Err(Refusal::Code);
    }
    let depth = depth_of(traceback);
    Ok(ViterbiDecoder {
        pm,
        held: 0,
        traceback: depth,
    })
}

// The path values of a known start; all 0 for a code that is refused.
fn start(code: Code, state: u8) -> [f32; STATES]
    ensures { good_code code ≡ true → result ≡ start_values code state }
{
    let mut pm = [0.0f32; STATES];
    if good(code) {
        let n = 2 * half(code);
        start_at(&mut pm[0..n], state);
    }
    pm
}

// A decoder that starts in the given state, mod 2^(length-1).
pub fn with_state(code: Code, traceback: usize, state: u8) -> Result<ViterbiDecoder, Refusal>
    ensures answers { answer_of result ≡ first_row (fresh_rows code traceback) }
    ensures made { IfOk result (λ v. Fresh traceback (start_values code state) v) }
{
    fresh(code, traceback, start(code, state))
}

// A decoder whose start state is not known.
pub fn new_unknown_state(code: Code, traceback: usize) -> Result<ViterbiDecoder, Refusal>
    ensures answers { answer_of result ≡ first_row (fresh_rows code traceback) }
    ensures made { IfOk result (λ v. Fresh traceback (unknown_values code) v) }
{
    fresh(code, traceback, [0.0f32; STATES])
}

// All steps of a call of soft values or metrics, and the subtraction at its end.
fn soft_run(
    pm: &mut [f32],
    s: Setup,
    at: At,
    values: &[f32],
    per: usize,
    n: usize,
    decisions: &mut [u64],
    out: &mut [u8],
) -> At
    requires { (1 ≤ s.h) × (s.h ≤ Isdb.half) × Fits s.code s.h × (length pm.old ≡ 2 * s.h) × ((per ≡ 2) ⊎ (per ≡ 4)) × (per * n ≤ length values.now)
        × (1 ≤ s.traceback) × (s.traceback ≤ traceback_limit) × (at.held < block + s.traceback) × (at.count ≡ 0) × (block + s.traceback ≤ length decisions.old)
        × (block * releases s.traceback at.held n ≤ length out.old) }
    ensures { Holds s.traceback decisions.old out.old (pushed s.h (labels s.code) rule s.traceback (soft_steps per values.now) (holding pm.old at.held decisions.old) n)
        pm.new result.held result.count decisions.new out.new }
{
    let end = soft_steps(pm, s, at, values, per, n, decisions, out);
    renormalise(pm, s.h);
    end
}

// Feeds soft values, `per` for each step, to a decoder that is not refused.
fn soft(
    code: Code,
    dec: ViterbiDecoder,
    values: &[f32],
    per: usize,
    decisions: &mut [u64],
    out: &mut [u8],
) -> Released
    requires { ((per ≡ 2) ⊎ (per ≡ 4)) × (good_code code ≡ true) × Enough dec (length values.now / per) (length decisions.old) (length out.old) }
    ensures { Leaves dec (call code dec.traceback (soft_steps per values.now) (handed code dec decisions.old) (length values.now / per)) result decisions.old decisions.new out.old out.new }
{
    let h = half(code);
    let n = 2 * h;
    let traceback = dec.traceback;
    let mut pm = dec.pm;
    let all = states(&pm);
    let at = At {
        held: dec.held,
        count: 0,
    };
    let s = Setup { code, h, traceback };
    let count = values.len() / per;
    let end = soft_run(&mut pm[0..n], s, at, values, per, count, decisions, out);
    Released {
        dec: ViterbiDecoder {
            pm,
            held: end.held,
            traceback,
        },
        count: end.count,
    }
}

// Feeds soft-value pairs.
pub fn push(
    code: Code,
    dec: ViterbiDecoder,
    pairs: &[f32],
    decisions: &mut [u64],
    out: &mut [u8],
) -> Result<Released, Refusal>
    ensures answers { answer_of result ≡ first_row (stream_rows code 2 dec pairs.now (length decisions.old) (length out.old)) }
    ensures leaves { MatchResult result
        (λ r. Leaves dec (call code dec.traceback (pair_steps pairs.now) (handed code dec decisions.old) (length pairs.now / 2)) r decisions.old decisions.new out.old out.new)
        (λ _. Unchanged decisions.old decisions.new out.old out.new) }
{
    answer_stream(code, dec, pairs, 2, decisions.len(), out.len())?;
    Ok(soft(code, dec, pairs, 2, decisions, out))
}

// Feeds metrics, four for each step: that of the branches with the outputs (X, Y) at 2X + Y.
pub fn push_metrics(
    code: Code,
    dec: ViterbiDecoder,
    metrics: &[f32],
    decisions: &mut [u64],
    out: &mut [u8],
) -> Result<Released, Refusal>
    ensures answers { answer_of result ≡ first_row (stream_rows code 4 dec metrics.now (length decisions.old) (length out.old)) }
    ensures leaves { MatchResult result
        (λ r. Leaves dec (call code dec.traceback (four_steps metrics.now) (handed code dec decisions.old) (length metrics.now / 4)) r decisions.old decisions.new out.old out.new)
        (λ _. Unchanged decisions.old decisions.new out.old out.new) }
{
    answer_stream(code, dec, metrics, 4, decisions.len(), out.len())?;
    Ok(soft(code, dec, metrics, 4, decisions, out))
}

// Advances over known input bits: only the low bit of each byte counts.
pub fn push_known(
    code: Code,
    dec: ViterbiDecoder,
    bits: &[u8],
    decisions: &mut [u64],
    out: &mut [u8],
) -> Result<Released, Refusal>
    ensures answers { answer_of result ≡ first_row (known_rows code dec (length bits.now) (length decisions.old) (length out.old)) }
    ensures leaves { MatchResult result
        (λ r. Leaves dec (steps code dec.traceback (known_steps bits.now) (handed code dec decisions.old) (length bits.now)) r decisions.old decisions.new out.old out.new)
        (λ _. Unchanged decisions.old decisions.new out.old out.new) }
{
    answer_known(code, dec, bits.len(), decisions.len(), out.len())?;
    let h = half(code);
    let n = 2 * h;
    let traceback = dec.traceback;
    let mut pm = dec.pm;
    let all = states(&pm);
    let at = At {
        held: dec.held,
        count: 0,
    };
    let s = Setup { code, h, traceback };
    let end = known_steps(&mut pm[0..n], s, at, bits, decisions, out);
    Ok(Released {
        dec: ViterbiDecoder {
            pm,
            held: end.held,
            traceback,
        },
        count: end.count,
    })
}

// Puts out all held bits of a decoder that is not refused, traced from `state`.
fn flush_from(
    code: Code,
    dec: ViterbiDecoder,
    state: usize,
    decisions: &mut [u64],
    out: &mut [u8],
) -> Released
    requires { (good_code code ≡ true) × (state < states_of code) × (dec.held ≤ length decisions.old) × (dec.held ≤ length out.old) }
    ensures { Flushes code dec state result decisions.old decisions.new out.old out.new }
{
    let pm = dec.pm;
    let at = At {
        held: dec.held,
        count: 0,
    };
    let count = finish_at(state, half(code), at, decisions, out);
    Released {
        dec: ViterbiDecoder {
            pm,
            held: 0,
            traceback: dec.traceback,
        },
        count,
    }
}

// Puts out all held bits, traced from the best state.
pub fn flush(
    code: Code,
    dec: ViterbiDecoder,
    decisions: &mut [u64],
    out: &mut [u8],
) -> Result<Released, Refusal>
    ensures answers { answer_of result ≡ first_row (flush_rows code dec (length decisions.old) (length out.old)) }
    ensures leaves { MatchResult result
        (λ r. Flushes code dec (best_of code dec) r decisions.old decisions.new out.old out.new)
        (λ _. Unchanged decisions.old decisions.new out.old out.new) }
{
    answer_flush(code, dec, decisions.len(), out.len())?;
    let pm = dec.pm;
    let all = states(&pm);
    let h = half(code);
    let n = 2 * h;
    let best = best_state(&pm[0..n], h);
    Ok(flush_from(code, dec, best, decisions, out))
}

// Puts out all held bits, traced from a known end, which is taken mod 2^(length-1).
pub fn flush_at(
    code: Code,
    dec: ViterbiDecoder,
    end: u8,
    decisions: &mut [u64],
    out: &mut [u8],
) -> Result<Released, Refusal>
    ensures answers { answer_of result ≡ first_row (flush_rows code dec (length decisions.old) (length out.old)) }
    ensures leaves { MatchResult result
        (λ r. Flushes code dec (end_of code end) r decisions.old decisions.new out.old out.new)
        (λ _. Unchanged decisions.old decisions.new out.old out.new) }
{
    answer_flush(code, dec, decisions.len(), out.len())?;
    let state = (end as usize) % (2 * half(code));
    Ok(flush_from(code, dec, state, decisions, out))
}
