// Calls for C on a decoder whose state the caller holds: 64 path values, how many decision words are held, and the traceback.
#![tactic(auto)]

ghost use Rattle.std.specs.Prelude.{ℕ, ◌/◌, ◌≡◌, length, take};
ghost use Rattle.isdb_fec.specs.Calls.{steps, call, handed};
ghost use Rattle.trellis.specs.Run.{pair_steps, four_steps, known_steps};
ghost use Rattle.isdb_fec.specs.Rows.{push_rows, push_metrics_rows, push_known_rows, flush_rows};
ghost use Rattle.c_answers.specs.Answers.{answered};
ghost use Rattle.c_answers.specs.Lengths.{with_states};
ghost use Rattle.c_decoder.specs.Decoders.{decoder_of, Stored, Flushed, FlushedAt};
ghost use Rattle.trellis.specs.Isdb;

use c_decoder::{decoder_of, not_states, store};
use trellis::STATES;

// Feeds soft values, two for each step.
#[unsafe(no_mangle)]
pub extern "C" fn isdb_push(
    pm: &mut [f32],
    held: &mut u64,
    traceback: u64,
    pairs: &[f32],
    decisions: &mut [u64],
    out: &mut [u8],
    count: &mut u64,
) -> u32
    ensures answers { result ≡ answered (with_states pm.old (push_rows (decoder_of (take Isdb.states pm.old) held.old traceback) pairs.now (length decisions.old) (length out.old))) }
    ensures leaves { Stored result traceback (call traceback (pair_steps pairs.now) (handed (decoder_of pm.old held.old traceback) decisions.old) (length pairs.now / 2))
        pm.old pm.new held.old held.new count.old count.new decisions.old decisions.new out.old out.new }
{
    if pm.len() != STATES {
        return not_states(pm, *held, traceback);
    }
    let v = decoder_of(pm, *held, traceback);
    let r = v.push(pairs, decisions, out);
    store(r, pm, held, count)
}

// Feeds metrics, four for each step: that of the branches with the outputs (X, Y) at 2X + Y.
#[unsafe(no_mangle)]
pub extern "C" fn isdb_push_metrics(
    pm: &mut [f32],
    held: &mut u64,
    traceback: u64,
    metrics: &[f32],
    decisions: &mut [u64],
    out: &mut [u8],
    count: &mut u64,
) -> u32
    ensures answers { result ≡ answered (with_states pm.old (push_metrics_rows (decoder_of (take Isdb.states pm.old) held.old traceback) metrics.now (length decisions.old) (length out.old))) }
    ensures leaves { Stored result traceback (call traceback (four_steps metrics.now) (handed (decoder_of pm.old held.old traceback) decisions.old) (length metrics.now / 4))
        pm.old pm.new held.old held.new count.old count.new decisions.old decisions.new out.old out.new }
{
    if pm.len() != STATES {
        return not_states(pm, *held, traceback);
    }
    let v = decoder_of(pm, *held, traceback);
    let r = v.push_metrics(metrics, decisions, out);
    store(r, pm, held, count)
}

// Advances over known input bits, of which the low bit counts.
#[unsafe(no_mangle)]
pub extern "C" fn isdb_push_known(
    pm: &mut [f32],
    held: &mut u64,
    traceback: u64,
    bits: &[u8],
    decisions: &mut [u64],
    out: &mut [u8],
    count: &mut u64,
) -> u32
    ensures answers { result ≡ answered (with_states pm.old (push_known_rows (decoder_of (take Isdb.states pm.old) held.old traceback) (length bits.now) (length decisions.old) (length out.old))) }
    ensures leaves { Stored result traceback (steps traceback (known_steps bits.now) (handed (decoder_of pm.old held.old traceback) decisions.old) (length bits.now))
        pm.old pm.new held.old held.new count.old count.new decisions.old decisions.new out.old out.new }
{
    if pm.len() != STATES {
        return not_states(pm, *held, traceback);
    }
    let v = decoder_of(pm, *held, traceback);
    let r = v.push_known(bits, decisions, out);
    store(r, pm, held, count)
}

// Puts out all held bits.
#[unsafe(no_mangle)]
pub extern "C" fn isdb_flush(
    pm: &mut [f32],
    held: &mut u64,
    traceback: u64,
    decisions: &mut [u64],
    out: &mut [u8],
    count: &mut u64,
) -> u32
    ensures answers { result ≡ answered (with_states pm.old (flush_rows (decoder_of (take Isdb.states pm.old) held.old traceback) (length decisions.old) (length out.old))) }
    ensures leaves { Flushed result (decoder_of pm.old held.old traceback)
        pm.new held.new count.old count.new decisions.old decisions.new out.old out.new }
{
    if pm.len() != STATES {
        return not_states(pm, *held, traceback);
    }
    let v = decoder_of(pm, *held, traceback);
    let r = v.flush(decisions, out);
    store(r, pm, held, count)
}

// Puts out all held bits, traced from the given state, mod 64.
#[unsafe(no_mangle)]
pub extern "C" fn isdb_flush_at(
    pm: &mut [f32],
    held: &mut u64,
    traceback: u64,
    end: u8,
    decisions: &mut [u64],
    out: &mut [u8],
    count: &mut u64,
) -> u32
    ensures answers { result ≡ answered (with_states pm.old (flush_rows (decoder_of (take Isdb.states pm.old) held.old traceback) (length decisions.old) (length out.old))) }
    ensures leaves { FlushedAt end result (decoder_of pm.old held.old traceback)
        pm.new held.new count.old count.new decisions.old decisions.new out.old out.new }
{
    if pm.len() != STATES {
        return not_states(pm, *held, traceback);
    }
    let v = decoder_of(pm, *held, traceback);
    let r = v.flush_at(end, decisions, out);
    store(r, pm, held, count)
}
