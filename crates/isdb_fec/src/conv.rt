// The mother code of constraint length 7 with generators 171 and 133 octal, and its soft-decision Viterbi decoder: the inner code of
// every ISDB system: ISDB-S (ITU-R BO.1408-1, Annex 1, section 9, Fig. 13; MIC Ordinance No. 87 of 2011, annexed table 49, item 3) and
// ISDB-T (ARIB STD-B31, section 3.8, Fig. 3-10). Puncturing lives with the systems. After conv.rs of isdb-fec.
//
// The figures have six stages. X sums the input and the stages 1, 2, 3 and 6, Y the input and the stages 2, 3, 5 and 6; with the input as the
// highest of seven digits these are 171 and 133 octal.
ghost use Rattle.std.specs.Prelude.{◌≡◌, ◌+◌, ◌*◌, ◌<◌, ◌/◌, ◌%◌, length, IfOk, MatchResult};
ghost use Rattle.refusal.specs.Rows.{first_row, answer_of};
ghost use Rattle.trellis.specs.Code.{isdb, output, moved};
ghost use Rattle.trellis.specs.Run.{start_at, start_unknown, pair_steps, four_steps, known_steps};
ghost use Rattle.isdb_fec.specs.Rows.{encoder_rows, fresh_rows, stream_rows, push_rows, push_metrics_rows, push_known_rows, flush_rows};
ghost use Rattle.isdb_fec.specs.Calls.{steps, call, handed, Leaves, Flushes, FlushesAt, Unchanged, Fresh};
ghost use Rattle.trellis.specs.Isdb;

use refusal::Refusal;
pub use trellis::{STATES, TRACEBACK_LIMIT};
use viterbi_core::{
    At, depth_of, finish, finish_at, renormalise, run_steps, start_at, start_unknown,
};
use viterbi_encode::{encode_bit, parity};
pub use viterbi_rows::{PATH_LIMIT, STREAM_LIMIT};
use viterbi_steps::Kind;

// k of the mother code (BO.1408-1, Fig. 13; STD-B31, section 3.8).
pub const CONSTRAINT_LENGTH: usize = 7;
// The generator of the output X (the same places).
pub const G1: u8 = 0o171;
// The generator of the output Y (the same places).
pub const G2: u8 = 0o133;
// 16 constraint lengths, which the Rust takes for ample at rate 7/8.
pub const DEFAULT_TRACEBACK: usize = 112;

#[derive(Clone, Copy)]
pub struct Branch {
    pub x: u8,
    pub y: u8,
}

// (X, Y) for the input u at the state.
pub fn branch_output(state: u8, u: u8) -> Result<Branch, Refusal>
    ensures answers { answer_of result ≡ first_row (encoder_rows state) }
    ensures outputs { IfOk result (λ b. (b.x ≡ output isdb 0o171 (u % 2) state) × (b.y ≡ output isdb 0o133 (u % 2) state)) }
{
    if (state as usize) >= STATES {
        return Err(Refusal::State);
    }
    let register = ((u % 2) << (CONSTRAINT_LENGTH - 1)) + state;
    Ok(Branch {
        x: parity(register & G1),
        y: parity(register & G2),
    })
}

// The encoder: the last six inputs, the newest in bit 5.
#[derive(Clone, Copy)]
pub struct ConvEncoder {
    pub state: u8,
}

#[derive(Clone, Copy)]
pub struct Pushed {
    pub enc: ConvEncoder,
    pub x: u8,
    pub y: u8,
}

impl ConvEncoder {
    pub fn new() -> Self
        ensures { result.state ≡ 0 }
    {
        Self { state: 0 }
    }

    pub fn state(self) -> u8
        ensures { result ≡ self.state }
    {
        self.state
    }

    // Encodes one bit.
    pub fn push(self, u: u8) -> Result<Pushed, Refusal>
        ensures answers { answer_of result ≡ first_row (encoder_rows self.state) }
        ensures outputs { IfOk result (λ p. (p.x ≡ output isdb 0o171 (u % 2) self.state) × (p.y ≡ output isdb 0o133 (u % 2) self.state) × (p.enc.state ≡ moved Isdb.half (u % 2) self.state)) }
    {
        let state = self.state;
        if state > 63 {
            return Err(Refusal::State);
        }
        let c = encode_bit(state, u);
        Ok(Pushed {
            enc: ConvEncoder { state: c.state },
            x: c.x,
            y: c.y,
        })
    }
}

// The decoder: a path value for each state, how many decision words it holds in the lent slice, and the traceback depth.
#[derive(Clone, Copy)]
pub struct ViterbiDecoder {
    pub pm: [f32; STATES],
    pub held: usize,
    pub traceback: usize,
}

#[derive(Clone, Copy)]
pub struct Released {
    pub dec: ViterbiDecoder,
    pub count: usize,
}

// A fresh decoder with the path values pm.
fn fresh(traceback: usize, pm: [f32; STATES]) -> Result<ViterbiDecoder, Refusal>
    ensures answers { answer_of result ≡ first_row (fresh_rows traceback) }
    ensures made { IfOk result (λ v. Fresh traceback pm v) }
{
    if traceback > TRACEBACK_LIMIT {
        return Err(Refusal::Traceback);
    }
    let depth = depth_of(traceback);
    Ok(ViterbiDecoder {
        pm,
        held: 0,
        traceback: depth,
    })
}

// The depth of 16 constraint lengths.
pub fn default_traceback() -> usize
    ensures { result ≡ 16 * isdb.constraint }
{
    DEFAULT_TRACEBACK
}

impl ViterbiDecoder {
    // A decoder that starts in state 0.
    pub fn new(traceback: usize) -> Result<ViterbiDecoder, Refusal>
        ensures answers { answer_of result ≡ first_row (fresh_rows traceback) }
        ensures made { IfOk result (λ v. Fresh traceback (start_at Isdb.states 0) v) }
    {
        fresh(traceback, start_at(0))
    }

    // A decoder whose start state is not known.
    pub fn new_unknown_state(traceback: usize) -> Result<ViterbiDecoder, Refusal>
        ensures answers { answer_of result ≡ first_row (fresh_rows traceback) }
        ensures made { IfOk result (λ v. Fresh traceback (start_unknown Isdb.states) v) }
    {
        fresh(traceback, start_unknown())
    }

    // A decoder that starts in the given state, mod 64.
    pub fn with_state(traceback: usize, state: u8) -> Result<ViterbiDecoder, Refusal>
        ensures answers { answer_of result ≡ first_row (fresh_rows traceback) }
        ensures made { IfOk result (λ v. Fresh traceback (start_at Isdb.states state) v) }
    {
        fresh(traceback, start_at(state))
    }

    // The traceback depth.
    pub fn traceback(self) -> usize
        ensures { result ≡ self.traceback }
    {
        self.traceback
    }

    // The steps held and not yet released.
    pub fn pending(self) -> usize
        ensures { result ≡ self.held }
    {
        self.held
    }

    // The answer to a call of soft values or metrics, `per` for each step.
    fn answer_stream(
        self,
        values: &[f32],
        per: usize,
        decisions: usize,
        out: usize,
    ) -> Result<(), Refusal>
        requires { 0 < per }
        ensures { result ≡ first_row (stream_rows per self values.now decisions out) }
    {
        let pm = self.pm;
        viterbi_rows::answer_stream(&pm, self.held, self.traceback, values, per, decisions, out)
    }

    // The answer to a call of n known bits.
    fn answer_known(self, n: usize, decisions: usize, out: usize) -> Result<(), Refusal>
        ensures { result ≡ first_row (push_known_rows self n decisions out) }
    {
        let pm = self.pm;
        viterbi_rows::answer_known(&pm, self.held, self.traceback, n, decisions, out)
    }

    // Feeds soft-value pairs.
    pub fn push(
        self,
        pairs: &[f32],
        decisions: &mut [u64],
        out: &mut [u8],
    ) -> Result<Released, Refusal>
        ensures answers { answer_of result ≡ first_row (push_rows self pairs.now (length decisions.old) (length out.old)) }
        ensures leaves { MatchResult result
            (λ r. Leaves self.traceback (call self.traceback (pair_steps pairs.now) (handed self decisions.old) (length pairs.now / 2)) r decisions.old decisions.new out.old out.new)
            (λ _. Unchanged decisions.old decisions.new out.old out.new) }
    {
        self.answer_stream(pairs, 2, decisions.len(), out.len())?;
        let traceback = self.traceback;
        let mut pm = self.pm;
        let start = At {
            held: self.held,
            count: 0,
        };
        let n = pairs.len() / 2;
        let at = run_steps(
            &mut pm,
            start,
            traceback,
            0,
            n,
            Kind::Pairs,
            pairs,
            &[0u8; 0],
            decisions,
            out,
        );
        renormalise(&mut pm);
        Ok(Released {
            dec: ViterbiDecoder {
                pm,
                held: at.held,
                traceback,
            },
            count: at.count,
        })
    }

    // Feeds metrics, four for each step: that of the branches with the outputs (X, Y) at 2X + Y.
    pub fn push_metrics(
        self,
        metrics: &[f32],
        decisions: &mut [u64],
        out: &mut [u8],
    ) -> Result<Released, Refusal>
        ensures answers { answer_of result ≡ first_row (push_metrics_rows self metrics.now (length decisions.old) (length out.old)) }
        ensures leaves { MatchResult result
            (λ r. Leaves self.traceback (call self.traceback (four_steps metrics.now) (handed self decisions.old) (length metrics.now / 4)) r decisions.old decisions.new out.old out.new)
            (λ _. Unchanged decisions.old decisions.new out.old out.new) }
    {
        self.answer_stream(metrics, 4, decisions.len(), out.len())?;
        let traceback = self.traceback;
        let mut pm = self.pm;
        let start = At {
            held: self.held,
            count: 0,
        };
        let n = metrics.len() / 4;
        let at = run_steps(
            &mut pm,
            start,
            traceback,
            0,
            n,
            Kind::Fours,
            metrics,
            &[0u8; 0],
            decisions,
            out,
        );
        renormalise(&mut pm);
        Ok(Released {
            dec: ViterbiDecoder {
                pm,
                held: at.held,
                traceback,
            },
            count: at.count,
        })
    }

    // Advances over known input bits: only the low bit of each byte counts.
    pub fn push_known(
        self,
        bits: &[u8],
        decisions: &mut [u64],
        out: &mut [u8],
    ) -> Result<Released, Refusal>
        ensures answers { answer_of result ≡ first_row (push_known_rows self (length bits.now) (length decisions.old) (length out.old)) }
        ensures leaves { MatchResult result
            (λ r. Leaves self.traceback (steps self.traceback (known_steps bits.now) (handed self decisions.old) (length bits.now)) r decisions.old decisions.new out.old out.new)
            (λ _. Unchanged decisions.old decisions.new out.old out.new) }
    {
        self.answer_known(bits.len(), decisions.len(), out.len())?;
        let traceback = self.traceback;
        let mut pm = self.pm;
        let start = At {
            held: self.held,
            count: 0,
        };
        let n = bits.len();
        let at = run_steps(
            &mut pm,
            start,
            traceback,
            0,
            n,
            Kind::Knowns,
            &[0.0f32; 0],
            bits,
            decisions,
            out,
        );
        Ok(Released {
            dec: ViterbiDecoder {
                pm,
                held: at.held,
                traceback,
            },
            count: at.count,
        })
    }

    // Puts out all held bits, traced from the best state.
    pub fn flush(self, decisions: &mut [u64], out: &mut [u8]) -> Result<Released, Refusal>
        ensures answers { answer_of result ≡ first_row (flush_rows self (length decisions.old) (length out.old)) }
        ensures leaves { MatchResult result
            (λ r. Flushes self r decisions.old decisions.new out.old out.new)
            (λ _. Unchanged decisions.old decisions.new out.old out.new) }
    {
        self.answer_flush(decisions.len(), out.len())?;
        let pm = self.pm;
        let at = At {
            held: self.held,
            count: 0,
        };
        let count = finish(&pm, at, decisions, out);
        Ok(Released {
            dec: ViterbiDecoder {
                pm,
                held: 0,
                traceback: self.traceback,
            },
            count,
        })
    }

    // Puts out all held bits, traced from the given state, mod 64.
    pub fn flush_at(
        self,
        end: u8,
        decisions: &mut [u64],
        out: &mut [u8],
    ) -> Result<Released, Refusal>
        ensures answers { answer_of result ≡ first_row (flush_rows self (length decisions.old) (length out.old)) }
        ensures leaves { MatchResult result
            (λ r. FlushesAt end self r decisions.old decisions.new out.old out.new)
            (λ _. Unchanged decisions.old decisions.new out.old out.new) }
    {
        self.answer_flush(decisions.len(), out.len())?;
        let pm = self.pm;
        let at = At {
            held: self.held,
            count: 0,
        };
        let count = finish_at((end % 64) as usize, at, decisions, out);
        Ok(Released {
            dec: ViterbiDecoder {
                pm,
                held: 0,
                traceback: self.traceback,
            },
            count,
        })
    }

    // The answer to a flush.
    fn answer_flush(self, decisions: usize, out: usize) -> Result<(), Refusal>
        ensures { result ≡ first_row (flush_rows self decisions out) }
    {
        let pm = self.pm;
        viterbi_rows::answer_flush(&pm, self.held, self.traceback, decisions, out)
    }
}
