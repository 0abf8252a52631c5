// A decoder whose state C holds: 64 path values, how many decision words are held, and the traceback. Taken from the lent places, and handed back.
#![tactic(auto)]

ghost use Rattle.std.specs.Prelude.{◌≡◌, length, take, MatchResult};
ghost use Rattle.refusal.specs.Rows.{number_of, answer_of};
ghost use Rattle.isdb_fec.specs.Rows.{handed_rows};
ghost use Rattle.c_answers.specs.Answers.{answered};
ghost use Rattle.c_answers.specs.Lengths.{until_length};
ghost use Rattle.c_decoder.specs.Decoders.{decoder_of};
ghost use Rattle.trellis.specs.Isdb;

use c_answers::or_length;
use isdb_fec::conv::{Released, ViterbiDecoder};
use refusal::Refusal;
use trellis::STATES;
use viterbi_rows::answer_lent;
use viterbi_step::states;

// The answer where the path values are not 64: rows 3 and 4 stand above 5, and row 4 speaks of the first 64.
pub fn not_states(pm: &[f32], held: u64, traceback: u64) -> u32
    ensures { result ≡ answered (until_length (handed_rows (decoder_of (take Isdb.states pm.now) held traceback))) }
{
    or_length(answer_lent(pm, held as usize, traceback as usize))
}

// The decoder with these path values.
pub fn decoder_of(pm: &[f32], held: u64, traceback: u64) -> ViterbiDecoder
    requires { length pm.now ≡ Isdb.states }
    ensures { result ≡ decoder_of pm.now held traceback }
{
    let mut values = [0.0f32; STATES];
    for s in 0..STATES {
        values[s] = pm[s];
    }
    ViterbiDecoder {
        pm: values,
        held: held as usize,
        traceback: traceback as usize,
    }
}

// Copies the path values back.
fn put_values(values: &[f32; STATES], pm: &mut [f32])
    requires { length pm.old ≡ Isdb.states }
    ensures { pm.new ≡ values.now }
{
    let n = states(values);
    for s in 0..n {
        pm[s] = values[s];
    }
}

// Hands the state back where the call was accepted.
pub fn store(r: Result<Released, Refusal>, pm: &mut [f32], held: &mut u64, count: &mut u64) -> u32
    requires { length pm.old ≡ Isdb.states }
    ensures answers { result ≡ number_of (answer_of r) }
    ensures places { MatchResult r
        (λ x. (pm.new ≡ x.dec.pm) × (held.new ≡ x.dec.held) × (count.new ≡ x.count))
        (λ _. (pm.new ≡ pm.old) × (held.new ≡ held.old) × (count.new ≡ count.old)) }
{
    match r {
        Ok(released) => {
            let dec = released.dec;
            let values = dec.pm;
            put_values(&values, pm);
            *held = dec.held as u64;
            *count = released.count as u64;
            0
        }
        Err(row) => refusal::number(Err(row)),
    }
}
