// The answers to calls with a code of constraint length 3 to 7 by their rows: those of isdb_fec with row 12 right before 4. The calls are in short_fec.
// `few` is a test of the rows of encodings (short_encode, overlay).
#![tactic(auto)]

ghost use Rattle.std.specs.Prelude.{◌≡◌, cond, ◌+◌, ◌*◌, ◌<◌, ◌≤◌, ltb, take};
ghost use Rattle.refusal.specs.Rows.{first_row, Accepted, Space};
ghost use Rattle.trellis.specs.Run.{traceback_limit, block};
ghost use Rattle.viterbi_rows.specs.Values.{some_beyond, path_limit};
ghost use Rattle.isdb_fec.specs.Rows.{steps_short};
ghost use Rattle.short_rows.specs.Rows.{encoder_rows, handed_rows, stream_rows, known_rows, flush_rows};

use isdb_fec::conv::{TRACEBACK_LIMIT, ViterbiDecoder};
use refusal::Refusal;
use short_code::{Code, bad, half};
use trellis::BLOCK;
use viterbi_core::few_places;
use viterbi_rows::{PATH_LIMIT, STREAM_LIMIT, some_beyond};

// The rows of an encoder.
pub fn answer_encoder(code: Code, state: u8) -> Result<(), Refusal>
    ensures { result ≡ first_row (encoder_rows code state) }
{
    if bad(code) {
        return Err(Refusal::Code);
    }
    if (state as usize) >= 2 * half(code) {
        return Err(Refusal::State);
    }
    Ok(())
}

// Whether `space` places are too few for X and Y of n inputs. Twice n may be past any number of the machine.
pub fn few(space: usize, n: usize) -> bool
    ensures { result ≡ ltb space (2 * n) }
{
    space / 2 < n
}

// Whether one of the first n path values is no number or beyond 2^32.
fn first_beyond(pm: &[f32], n: usize) -> bool
    ensures { result ≡ some_beyond path_limit (take n pm.now) }
{
    if pm.len() < n {
        some_beyond(pm, PATH_LIMIT)
    } else {
        some_beyond(&pm[0..n], PATH_LIMIT)
    }
}

// The rows of a handed state, whose path values need not be 64: those of states are looked at, of what is lent.
pub fn answer_lent(code: Code, pm: &[f32], held: usize, traceback: usize) -> Result<(), Refusal>
    ensures { result ≡ first_row (handed_rows code (record { pm = pm.entry.now; held = held; traceback = traceback })) }
{
    if traceback == 0 {
        return Err(Refusal::Traceback);
    }
    if traceback > TRACEBACK_LIMIT {
        return Err(Refusal::Traceback);
    }
    if bad(code) {
        return Err(Refusal::Code);
    }
    if held >= BLOCK + traceback {
        return Err(Refusal::State);
    }
    if first_beyond(pm, 2 * half(code)) {
        return Err(Refusal::State);
    }
    Ok(())
}

// The rows of a handed state.
fn answer_handed(code: Code, dec: ViterbiDecoder) -> Result<(), Refusal>
    ensures { result ≡ first_row (handed_rows code dec) }
{
    let pm = dec.pm;
    answer_lent(code, &pm, dec.held, dec.traceback)
}

// The answer to a call of n steps on a state that is not refused: is there space?
fn answer_space(dec: ViterbiDecoder, n: usize, decisions: usize, out: usize) -> Result<(), Refusal>
    requires { (1 ≤ dec.traceback) × (dec.traceback ≤ traceback_limit) × (dec.held < block + dec.traceback) }
    ensures { result ≡ cond (steps_short n dec decisions out) Space Accepted }
{
    let traceback = dec.traceback;
    if few_places(traceback, dec.held, n, out) {
        return Err(Refusal::Space);
    }
    if decisions < BLOCK + traceback {
        return Err(Refusal::Space);
    }
    Ok(())
}

// The answer to a call of soft values or metrics, `per` for each step.
pub fn answer_stream(
    code: Code,
    dec: ViterbiDecoder,
    values: &[f32],
    per: usize,
    decisions: usize,
    out: usize,
) -> Result<(), Refusal>
    requires { 0 < per }
    ensures { result ≡ first_row (stream_rows code per dec values.now decisions out) }
{
    answer_handed(code, dec)?;
    if values.len() % per != 0 {
        return Err(Refusal::Length);
    }
    if some_beyond(values, STREAM_LIMIT) {
        return Err(Refusal::Sample);
    }
    answer_space(dec, values.len() / per, decisions, out)
}

// The answer to a call of n known bits.
pub fn answer_known(
    code: Code,
    dec: ViterbiDecoder,
    n: usize,
    decisions: usize,
    out: usize,
) -> Result<(), Refusal>
    ensures { result ≡ first_row (known_rows code dec n decisions out) }
{
    answer_handed(code, dec)?;
    answer_space(dec, n, decisions, out)
}

// The answer to a flush.
pub fn answer_flush(
    code: Code,
    dec: ViterbiDecoder,
    decisions: usize,
    out: usize,
) -> Result<(), Refusal>
    ensures { result ≡ first_row (flush_rows code dec decisions out) }
{
    answer_handed(code, dec)?;
    if out < dec.held {
        return Err(Refusal::Space);
    }
    if decisions < BLOCK + dec.traceback {
        return Err(Refusal::Space);
    }
    Ok(())
}
