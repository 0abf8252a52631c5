// Demand 3 of one call: a received frame within the margins reads back exactly. The theorem about the definitions is in crates/exact_load.
// The chapters of specs/:
//   Frames      which frames lie within the margins
//   Call        demand 3 of one call of `decode_frame`
//   CallLaws    the call meets it, from its contract and the margins alone
#![tactic(auto)]

ghost use Rattle.std.specs.Prelude.{◌≡◌, true, length};
ghost use Rattle.refusal.specs.Rows.{first_row, Either};
ghost use Rattle.isdbs_phy.specs.DecodeRows.{decode_rows, frame_said, frame_answer, Kept, FrameLeft};
ghost use Rattle.isdbs_metrics.specs.Scales.{received_by};
ghost use Rattle.strain_marks.specs.Strain.{strain_sum};
ghost use Rattle.exact_frame.specs.Call.{eights, Exact};

use isdbs_core::tmcc::Table;
use isdbs_phy::demod::{DemodOptions, FrameDecoded, Mapping, decode_frame};
use refusal::Refusal;

// decode_frame with a known start and all seven scales at 8. For every accepted table, every mapping and frame kind, every full load and every frame
// within the load's margins, whatever the four lent slices held: the load comes back and no step is strained, or 9 where one of the slices is too short.
pub fn read_frame(
    re: &[f64],
    im: &[f64],
    t: Table,
    first: bool,
    mapping: Mapping,
    decisions: &mut [u64],
    bits: &mut [u8],
    bytes: &mut [u8],
    counts: &mut [u32],
) -> Result<FrameDecoded, Refusal>
    ensures answers { frame_said result ≡ frame_answer (first_row (decode_rows t re.now im.now eights (length decisions.old) (length bits.old) (length bytes.old) (length counts.old))) t (strain_sum t (received_by re.now im.now mapping eights) true first) }
    ensures leaves { Either (first_row (decode_rows t re.now im.now eights (length decisions.old) (length bits.old) (length bytes.old) (length counts.old)))
        (FrameLeft t (received_by re.now im.now mapping eights) true first decisions.old decisions.new bits.old bits.new bytes.old bytes.new counts.old counts.new)
        (Kept decisions.old decisions.new bits.old bits.new bytes.old bytes.new counts.old counts.new) }
    ensures exact { Exact t mapping first re.now im.now (length decisions.old) (length bits.old) (length bytes.old) (length counts.old) result bytes.new counts.new }
{
    let o = DemodOptions {
        mapping,
        known_start: true,
        scales: [8.0; 7],
    };
    decode_frame(re, im, t, first, o, decisions, bits, bytes, counts)
}
