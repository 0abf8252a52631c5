// Length 7 with 171 and 133 octal agrees with ISDB: what agreeing is and that the calls agree, the laws of specs/; and for one input of the encoder, for fresh
// decoders and for the list encoder at rate 1/2 a function that makes both calls, as short_same has for the other calls.
#![tactic(auto)]

ghost use Rattle.trellis.specs.Isdb;
ghost use Rattle.isdb_fec.specs.Rows as isdbRows;
ghost use Rattle.short_fec.specs.Rows as shortRows;
ghost use Rattle.short_fec.specs.Calls as shortCalls;
ghost use Rattle.isdbt_rows.specs.Rows as isdbtRows;
ghost use Rattle.std.specs.Prelude.{◌≡◌, ◌%◌, length, IfOk, MatchResult};
ghost use Rattle.refusal.specs.Rows.{first_row, answer_of};
ghost use Rattle.trellis.specs.Code.{isdb, output, moved};
ghost use Rattle.trellis.specs.Run.{start_at, start_unknown};
ghost use Rattle.isdb_fec.specs.Calls.{Fresh};
ghost use Rattle.short_code.specs.Codes.{code_of, half_of};
ghost use Rattle.short_same_code.specs.IsdbCode.{isdb_code};
ghost use Rattle.short_same_code.specs.Agree.{MadeAlike, SentAlike};
ghost use Rattle.trellis.specs.Lists.{laid};
ghost use Rattle.trellis.specs.Encoded.{coded_bits, last_state};
ghost use Rattle.isdbt_table.specs.declared.CodeRate.TheVariants.{R1_2};
ghost use Rattle.isdbt_fec.specs.Calls.{Encodes};
ghost use Rattle.short_same_code.specs.Alike.{Alike};

use isdb_fec::conv::{ConvEncoder, Pushed, Released, ViterbiDecoder};
use isdbt_fec::conv;
use isdbt_table::CodeRate;
use refusal::Refusal;
use short_fec::Code;

// The code of ISDB as parameters.
pub fn isdb_code() -> Code
    ensures { result ≡ isdb_code }
{
    Code {
        constraint: 7,
        g1: 0o171,
        g2: 0o133,
    }
}

// What the call of the code returns, and that of ISDB.
#[derive(Clone, Copy)]
pub struct Both {
    pub short: Result<Released, Refusal>,
    pub isdb: Result<Released, Refusal>,
}

// The same of a fresh decoder.
#[derive(Clone, Copy)]
pub struct BothMade {
    pub short: Result<ViterbiDecoder, Refusal>,
    pub isdb: Result<ViterbiDecoder, Refusal>,
}

// The same of one input of the encoder.
#[derive(Clone, Copy)]
pub struct BothSent {
    pub short: Result<Pushed, Refusal>,
    pub isdb: Result<Pushed, Refusal>,
}

// One input of the encoder.
pub fn push_bit(enc: ConvEncoder, u: u8) -> BothSent
    ensures short_answers { answer_of result.short ≡ first_row (shortRows.encoder_rows isdb_code enc.state) }
    ensures short_outputs { IfOk result.short
        (λ p. (p.x ≡ output (code_of isdb_code) isdb_code.g1 (u % 2) enc.state) × (p.y ≡ output (code_of isdb_code) isdb_code.g2 (u % 2) enc.state) × (p.enc.state ≡ moved (half_of isdb_code) (u % 2) enc.state)) }
    ensures isdb_answers { answer_of result.isdb ≡ first_row (isdbRows.encoder_rows enc.state) }
    ensures isdb_outputs { IfOk result.isdb
        (λ p. (p.x ≡ output isdb 0o171 (u % 2) enc.state) × (p.y ≡ output isdb 0o133 (u % 2) enc.state) × (p.enc.state ≡ moved Isdb.half (u % 2) enc.state)) }
    ensures agree { SentAlike result.short result.isdb }
{
    let short = short_fec::push_bit(isdb_code(), enc, u);
    let isdb = enc.push(u);
    BothSent { short, isdb }
}

// A decoder that starts in the given state.
pub fn with_state(traceback: usize, state: u8) -> BothMade
    ensures short_answers { answer_of result.short ≡ first_row (shortRows.fresh_rows isdb_code traceback) }
    ensures short_made { IfOk result.short (λ v. Fresh traceback (shortCalls.start_values isdb_code state) v) }
    ensures isdb_answers { answer_of result.isdb ≡ first_row (isdbRows.fresh_rows traceback) }
    ensures isdb_made { IfOk result.isdb (λ v. Fresh traceback (start_at Isdb.states state) v) }
    ensures agree { MadeAlike result.short result.isdb }
{
    let short = short_fec::with_state(isdb_code(), traceback, state);
    let isdb = ViterbiDecoder::with_state(traceback, state);
    BothMade { short, isdb }
}

// A decoder whose start state is not known.
pub fn new_unknown_state(traceback: usize) -> BothMade
    ensures short_answers { answer_of result.short ≡ first_row (shortRows.fresh_rows isdb_code traceback) }
    ensures short_made { IfOk result.short (λ v. Fresh traceback (shortCalls.unknown_values isdb_code) v) }
    ensures isdb_answers { answer_of result.isdb ≡ first_row (isdbRows.fresh_rows traceback) }
    ensures isdb_made { IfOk result.isdb (λ v. Fresh traceback (start_unknown Isdb.states) v) }
    ensures agree { MadeAlike result.short result.isdb }
{
    let short = short_fec::new_unknown_state(isdb_code(), traceback);
    let isdb = ViterbiDecoder::new_unknown_state(traceback);
    BothMade { short, isdb }
}

// What the call of the code returns, and that of ISDB-T, which also counts what it sends.
#[derive(Clone, Copy)]
pub struct BothEncoded {
    pub short: Result<ConvEncoder, Refusal>,
    pub isdbt: Result<conv::Encoded, Refusal>,
}

// X then Y of the low bit of each byte. The count of ISDB-T is the number of bits that the code sends.
pub fn encode(enc: ConvEncoder, bits: &[u8], out: &mut [u8], out2: &mut [u8]) -> BothEncoded
    ensures short_answers { answer_of result.short ≡ first_row (shortRows.encode_rows isdb_code enc.state (length bits.now) (length out.old)) }
    ensures short_state { IfOk result.short (λ e. e.state ≡ last_state (code_of isdb_code) enc.state bits.now) }
    ensures short_coded { MatchResult result.short (λ _. out.new ≡ laid (coded_bits (code_of isdb_code) enc.state bits.now) out.old) (λ _. out.new ≡ out.old) }
    ensures isdbt_answers { answer_of result.isdbt ≡ first_row (isdbtRows.encode_rows R1_2 enc.state (length bits.now) (length out2.old)) }
    ensures isdbt_leaves { MatchResult result.isdbt (λ r. Encodes R1_2 enc.state bits.now r out2.old out2.new) (λ _. out2.new ≡ out2.old) }
    ensures count { IfOk result.isdbt (λ r. r.count ≡ length (coded_bits (code_of isdb_code) enc.state bits.now)) }
    ensures alike { (out.old ≡ out2.old) → Alike result.short result.isdbt out.new out2.new }
{
    let short = short_encode::encode(isdb_code(), enc, bits, out);
    let isdbt = conv::encode_punctured(enc, CodeRate::R1_2, bits, out2);
    BothEncoded { short, isdbt }
}
