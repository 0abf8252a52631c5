// The main signal of a frame: bytes to points and points to bytes (MIC Ordinance No. 87 of 2011, annexed tables 46 and 49; ITU-R BO.1408-1, section 9,
// Table 2, Figs. 14 and 15). After demod.rs of isdbs-phy.
//
// From bytes to points. A frame's load is 203 bytes for each valid slot, taken high bit first, run after run. One encoder runs through the whole frame
// (Fig. 14); the puncturing begins anew at each run (Table 2, note 1).
//   BPSK 1/2: the bit is coded; X, then Y, each on the real part of a symbol.
//   QPSK: the bits are coded and punctured to pairs (p1, p0); each pair is a symbol, p1 on the real part and p0 on the imaginary one (annexed table 46),
//     or the reverse by mapping.
//   TC8PSK 2/3: of two bits the first is C2, sent as it is, and the second is coded to C1 = Y (133 octal) and C0 = X (171 octal), or the reverse by mapping;
//     4 C2 + 2 C1 + C0 names one of eight points (Fig. 15).
// Symbols that no run uses are (0, 0). `conjugate` negates every imaginary part: a spectrum inversion in the down-conversion.
//
// From points to bytes. One decoder runs through the whole frame too. It starts in the state that the header's W2 or W3 left, reads a quadruple of branch
// metrics for each coded bit, then the 16 bits of the next frame's W1, which it knows, and puts out all bits. For each (C1, C0) the two points of TC8PSK
// lie opposite each other: the metric is the magnitude of the correlation with the one of C2 = 0, and C2 is read from its sign once the bits are known,
// which are encoded again for it.
ghost use Rattle.std.specs.Prelude.{◌≡◌, length, IfOk};
ghost use Rattle.refusal.specs.Rows.{first_row, answer_of, Either};
ghost use Rattle.isdbs_points.specs.Frame.{start_state, end_state};
ghost use Rattle.isdbs_phy.specs.DecodeRows.{decode_rows, one_scale_rows, frame_said, frame_answer, Kept, FrameLeft};
ghost use Rattle.isdbs_phy.specs.EncodeRows.{encode_rows, encode_frame_rows, PartsKept};
ghost use Rattle.isdbs_metrics.specs.Reading.{received};
ghost use Rattle.encode_main.specs.Laid.{FrameLaid};
ghost use Rattle.isdbs_metrics.specs.Scales.{received_by};
ghost use Rattle.strain_marks.specs.Strain.{strain_sum};

pub use decode_main::DemodOptions;
use decode_main::{FrameTask, decode_strained};
use encode_main::encode_main;
use isdb_fec::conv::ConvEncoder;
use isdbs_core::tmcc::Table;
use isdbs_plan::plan_of;
pub use isdbs_points::{Mapping, PART_LIMIT, psk8_point, qpsk_point, start_state, state_after};
pub use isdbs_rows::SCALE_LIMIT;
use isdbs_rows::{decode_answer, encode_answer};
use refusal::Refusal;

// The 38,976 points of a frame from its bytes, 203 for each valid slot, with the encoder as it is handed: the encoder after the last bit, or why the call is turned back.
pub fn encode_frame_with_state(
    bytes: &[u8],
    t: Table,
    enc: ConvEncoder,
    m: Mapping,
    re: &mut [f64],
    im: &mut [f64],
) -> Result<ConvEncoder, Refusal>
    ensures answers { answer_of result ≡ first_row (encode_rows t enc.state (length re.old) (length im.old)) }
    ensures state { IfOk result (λ e. e.state ≡ end_state t bytes.now enc.state) }
    ensures frame { Either (answer_of result) (FrameLaid t m bytes.now enc.state re.old re.new im.old im.new) (PartsKept re.old re.new im.old im.new) }
{
    let state = enc.state;
    encode_answer(t, state, re.len(), im.len())?;
    let p = plan_of(t);
    let end = encode_main(p, bytes, state, m, re, im);
    Ok(ConvEncoder { state: end })
}

// The same from the start state of the frame's kind.
pub fn encode_frame(
    bytes: &[u8],
    t: Table,
    first: bool,
    m: Mapping,
    re: &mut [f64],
    im: &mut [f64],
) -> Result<(), Refusal>
    ensures answers { result ≡ first_row (encode_frame_rows t (length re.old) (length im.old)) }
    ensures frame { Either result (FrameLaid t m bytes.now (start_state first) re.old re.new im.old im.new) (PartsKept re.old re.new im.old im.new) }
{
    let enc = ConvEncoder {
        state: start_state(first),
    };
    encode_frame_with_state(bytes, t, enc, m, re, im)?;
    Ok(())
}

// ---- decoding

// A decoded frame: the bytes of its load, its trellis steps and how many of them are strained.
#[derive(Clone, Copy)]
pub struct FrameDecoded {
    pub bytes: usize,
    pub steps: usize,
    pub strained: u32,
}

// The main signal of a frame to bytes. `first`: the first frame of a superframe. Afterwards `bits` begins with the decoded bits, `bytes` with the load,
// `counts` with the strained steps of each valid slot.
pub fn decode_frame(
    re: &[f64],
    im: &[f64],
    t: Table,
    first: bool,
    o: DemodOptions,
    decisions: &mut [u64],
    bits: &mut [u8],
    bytes: &mut [u8],
    counts: &mut [u32],
) -> Result<FrameDecoded, Refusal>
    ensures answers { frame_said result ≡ frame_answer (first_row (decode_rows t re.now im.now o.scales (length decisions.old) (length bits.old) (length bytes.old) (length counts.old))) t (strain_sum t (received_by re.now im.now o.mapping o.scales) o.known_start first) }
    ensures leaves { Either (first_row (decode_rows t re.now im.now o.scales (length decisions.old) (length bits.old) (length bytes.old) (length counts.old)))
        (FrameLeft t (received_by re.now im.now o.mapping o.scales) o.known_start first decisions.old decisions.new bits.old bits.new bytes.old bytes.new counts.old counts.new)
        (Kept decisions.old decisions.new bits.old bits.new bytes.old bytes.new counts.old counts.new) }
{
    let p = plan_of(t);
    let scales = o.scales;
    decode_answer(
        p,
        re,
        im,
        scales,
        decisions.len(),
        bits.len(),
        bytes.len(),
        counts.len(),
    )?;
    let f = FrameTask {
        plan: p,
        first,
        options: o,
    };
    let strained = decode_strained(f, re, im, decisions, bits, bytes, counts);
    Ok(FrameDecoded {
        bytes: p.bytes,
        steps: p.steps,
        strained,
    })
}

// Decoder settings with one scale for all combinations.
#[derive(Clone, Copy)]
pub struct OneScale {
    pub mapping: Mapping,
    pub known_start: bool,
    pub llr_scale: f32,
}

// `decode_frame` with seven equal scales: the contract speaks of the one.
pub fn decode_frame_one_scale(
    re: &[f64],
    im: &[f64],
    t: Table,
    first: bool,
    o: OneScale,
    decisions: &mut [u64],
    bits: &mut [u8],
    bytes: &mut [u8],
    counts: &mut [u32],
) -> Result<FrameDecoded, Refusal>
    ensures answers { frame_said result ≡ frame_answer (first_row (one_scale_rows t re.now im.now o.llr_scale (length decisions.old) (length bits.old) (length bytes.old) (length counts.old))) t (strain_sum t (received re.now im.now o.mapping o.llr_scale) o.known_start first) }
    ensures leaves { Either (first_row (one_scale_rows t re.now im.now o.llr_scale (length decisions.old) (length bits.old) (length bytes.old) (length counts.old)))
        (FrameLeft t (received re.now im.now o.mapping o.llr_scale) o.known_start first decisions.old decisions.new bits.old bits.new bytes.old bytes.new counts.old counts.new)
        (Kept decisions.old decisions.new bits.old bits.new bytes.old bytes.new counts.old counts.new) }
{
    let mapping = o.mapping;
    let scales = [o.llr_scale; 7];
    let same = DemodOptions {
        mapping,
        known_start: o.known_start,
        scales,
    };
    decode_frame(re, im, t, first, same, decisions, bits, bytes, counts)
}
