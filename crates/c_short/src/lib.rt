// The C calls of a code of constraint length 3 to 7 with two generators. The caller holds the state: 64 path values at every length, how many decision words are
// held, and the traceback.
#![tactic(auto)]

ghost use Rattle.std.specs.Prelude.{◌≡◌, ◌/◌, length};
ghost use Rattle.trellis.specs.Lists.{laid};
ghost use Rattle.trellis.specs.Encoded.{coded_bits, last_state};
ghost use Rattle.trellis.specs.Run.{pair_steps, four_steps, known_steps};
ghost use Rattle.short_code.specs.Codes.{code_of};
ghost use Rattle.short_fec.specs.Calls.{steps, call, handed, best_of, end_of};
ghost use Rattle.short_fec.specs.Rows.{encode_rows, handed_rows, stream_rows, known_rows, flush_rows};
ghost use Rattle.c_answers.specs.Answers.{answered, left};
ghost use Rattle.c_answers.specs.Lengths.{until_length, with_states};
ghost use Rattle.c_decoder.specs.Decoders.{decoder_of};
ghost use Rattle.c_short.specs.Stored.{code_from, Stored, Traced};

use c_answers::or_length;
use c_decoder::{decoder_of, store};
use isdb_fec::conv::ConvEncoder;
use short_fec::Code;
use short_rows::answer_lent;
use trellis::STATES;

// The code of three numbers.
fn code_from(constraint: u8, g1: u8, g2: u8) -> Code
    ensures { result ≡ code_from constraint g1 g2 }
{
    Code { constraint, g1, g2 }
}

// The answer where the path values are not 64: rows 3, 12 and 4 stand above 5, and row 4 speaks of the first 2^(length-1).
fn not_states(code: Code, pm: &[f32], held: u64, traceback: u64) -> u32
    ensures { result ≡ answered (until_length (handed_rows code (decoder_of pm.now held traceback))) }
{
    or_length(answer_lent(code, pm, held as usize, traceback as usize))
}

// Encodes the low bit of each byte: X then Y of each at the front of `out`.
#[unsafe(no_mangle)]
pub extern "C" fn isdb_code_encode(
    constraint: u8,
    g1: u8,
    g2: u8,
    state: &mut u8,
    bits: &[u8],
    out: &mut [u8],
) -> u32
    ensures answers { result ≡ answered (encode_rows (code_from constraint g1 g2) state.old (length bits.now) (length out.old)) }
    ensures state { state.new ≡ left result (last_state (code_of (code_from constraint g1 g2)) state.old bits.now) state.old }
    ensures coded { out.new ≡ left result (laid (coded_bits (code_of (code_from constraint g1 g2)) state.old bits.now) out.old) out.old }
{
    let code = code_from(constraint, g1, g2);
    let enc = ConvEncoder { state: *state };
    match short_encode::encode(code, enc, bits, out) {
        Ok(after) => {
            *state = after.state;
            0
        }
        Err(row) => refusal::number(Err(row)),
    }
}

// Feeds soft values, two for each step.
#[unsafe(no_mangle)]
pub extern "C" fn isdb_code_push(
    constraint: u8,
    g1: u8,
    g2: u8,
    pm: &mut [f32],
    held: &mut u64,
    traceback: u64,
    pairs: &[f32],
    decisions: &mut [u64],
    out: &mut [u8],
    count: &mut u64,
) -> u32
    ensures answers { result ≡ answered (with_states pm.old (stream_rows (code_from constraint g1 g2) 2 (decoder_of pm.old held.old traceback) pairs.now (length decisions.old) (length out.old))) }
    ensures leaves { Stored result traceback (call (code_from constraint g1 g2) traceback (pair_steps pairs.now) (handed (code_from constraint g1 g2) (decoder_of pm.old held.old traceback) decisions.old) (length pairs.now / 2))
        pm.old pm.new held.old held.new count.old count.new decisions.old decisions.new out.old out.new }
{
    let code = code_from(constraint, g1, g2);
    if pm.len() != STATES {
        return not_states(code, pm, *held, traceback);
    }
    let v = decoder_of(pm, *held, traceback);
    let r = short_fec::push(code, v, pairs, decisions, out);
    store(r, pm, held, count)
}

// Feeds metrics, four for each step: that of the branches with the outputs (X, Y) at 2X + Y.
#[unsafe(no_mangle)]
pub extern "C" fn isdb_code_push_metrics(
    constraint: u8,
    g1: u8,
    g2: u8,
    pm: &mut [f32],
    held: &mut u64,
    traceback: u64,
    metrics: &[f32],
    decisions: &mut [u64],
    out: &mut [u8],
    count: &mut u64,
) -> u32
    ensures answers { result ≡ answered (with_states pm.old (stream_rows (code_from constraint g1 g2) 4 (decoder_of pm.old held.old traceback) metrics.now (length decisions.old) (length out.old))) }
    ensures leaves { Stored result traceback (call (code_from constraint g1 g2) traceback (four_steps metrics.now) (handed (code_from constraint g1 g2) (decoder_of pm.old held.old traceback) decisions.old) (length metrics.now / 4))
        pm.old pm.new held.old held.new count.old count.new decisions.old decisions.new out.old out.new }
{
    let code = code_from(constraint, g1, g2);
    if pm.len() != STATES {
        return not_states(code, pm, *held, traceback);
    }
    let v = decoder_of(pm, *held, traceback);
    let r = short_fec::push_metrics(code, v, metrics, decisions, out);
    store(r, pm, held, count)
}

// Advances over known input bits, of which the low bit counts.
#[unsafe(no_mangle)]
pub extern "C" fn isdb_code_push_known(
    constraint: u8,
    g1: u8,
    g2: u8,
    pm: &mut [f32],
    held: &mut u64,
    traceback: u64,
    bits: &[u8],
    decisions: &mut [u64],
    out: &mut [u8],
    count: &mut u64,
) -> u32
    ensures answers { result ≡ answered (with_states pm.old (known_rows (code_from constraint g1 g2) (decoder_of pm.old held.old traceback) (length bits.now) (length decisions.old) (length out.old))) }
    ensures leaves { Stored result traceback (steps (code_from constraint g1 g2) traceback (known_steps bits.now) (handed (code_from constraint g1 g2) (decoder_of pm.old held.old traceback) decisions.old) (length bits.now))
        pm.old pm.new held.old held.new count.old count.new decisions.old decisions.new out.old out.new }
{
    let code = code_from(constraint, g1, g2);
    if pm.len() != STATES {
        return not_states(code, pm, *held, traceback);
    }
    let v = decoder_of(pm, *held, traceback);
    let r = short_fec::push_known(code, v, bits, decisions, out);
    store(r, pm, held, count)
}

// Puts out all held bits, traced from the best state.
#[unsafe(no_mangle)]
pub extern "C" fn isdb_code_flush(
    constraint: u8,
    g1: u8,
    g2: u8,
    pm: &mut [f32],
    held: &mut u64,
    traceback: u64,
    decisions: &mut [u64],
    out: &mut [u8],
    count: &mut u64,
) -> u32
    ensures answers { result ≡ answered (with_states pm.old (flush_rows (code_from constraint g1 g2) (decoder_of pm.old held.old traceback) (length decisions.old) (length out.old))) }
    ensures leaves { Traced (code_from constraint g1 g2) (best_of (code_from constraint g1 g2) (decoder_of pm.old held.old traceback)) result (decoder_of pm.old held.old traceback)
        pm.new held.new count.old count.new decisions.old decisions.new out.old out.new }
{
    let code = code_from(constraint, g1, g2);
    if pm.len() != STATES {
        return not_states(code, pm, *held, traceback);
    }
    let v = decoder_of(pm, *held, traceback);
    let r = short_fec::flush(code, v, decisions, out);
    store(r, pm, held, count)
}

// Puts out all held bits, traced from the given state, mod 2^(length-1).
#[unsafe(no_mangle)]
pub extern "C" fn isdb_code_flush_at(
    constraint: u8,
    g1: u8,
    g2: u8,
    pm: &mut [f32],
    held: &mut u64,
    traceback: u64,
    end: u8,
    decisions: &mut [u64],
    out: &mut [u8],
    count: &mut u64,
) -> u32
    ensures answers { result ≡ answered (with_states pm.old (flush_rows (code_from constraint g1 g2) (decoder_of pm.old held.old traceback) (length decisions.old) (length out.old))) }
    ensures leaves { Traced (code_from constraint g1 g2) (end_of (code_from constraint g1 g2) end) result (decoder_of pm.old held.old traceback)
        pm.new held.new count.old count.new decisions.old decisions.new out.old out.new }
{
    let code = code_from(constraint, g1, g2);
    if pm.len() != STATES {
        return not_states(code, pm, *held, traceback);
    }
    let v = decoder_of(pm, *held, traceback);
    let r = short_fec::flush_at(code, v, end, decisions, out);
    store(r, pm, held, count)
}
