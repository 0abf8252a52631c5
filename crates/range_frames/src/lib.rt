// The call of decode_frame with the ranges of a frame as its contract. The ranges and the theorem are in crates/range_metrics.
#![tactic(auto)]

ghost use Rattle.std.specs.Prelude.{◌≡◌, length};
ghost use Rattle.refusal.specs.Rows.{first_row, Either};
ghost use Rattle.isdbs_phy.specs.DecodeRows.{decode_rows, frame_said, frame_answer, Kept, FrameLeft};
ghost use Rattle.isdbs_metrics.specs.Scales.{received_by};
ghost use Rattle.strain_marks.specs.Strain.{strain_sum};
ghost use Rattle.range_metrics.specs.Ranges.{Promised};

use isdbs_core::tmcc::Table;
use isdbs_phy::demod::{DemodOptions, FrameDecoded, decode_frame};
use refusal::Refusal;

// decode_frame, with the ranges as part of its contract: where it is accepted, every soft value of BPSK and QPSK, branch metric and path value stays in its range.
pub fn decode_in_range(
    re: &[f64],
    im: &[f64],
    t: Table,
    first: bool,
    o: DemodOptions,
    decisions: &mut [u64],
    bits: &mut [u8],
    bytes: &mut [u8],
    counts: &mut [u32],
) -> Result<FrameDecoded, Refusal>
    ensures answers { frame_said result ≡ frame_answer (first_row (decode_rows t re.now im.now o.scales (length decisions.old) (length bits.old) (length bytes.old) (length counts.old))) t (strain_sum t (received_by re.now im.now o.mapping o.scales) o.known_start first) }
    ensures leaves { Either (first_row (decode_rows t re.now im.now o.scales (length decisions.old) (length bits.old) (length bytes.old) (length counts.old)))
        (FrameLeft t (received_by re.now im.now o.mapping o.scales) o.known_start first decisions.old decisions.new bits.old bits.new bytes.old bytes.new counts.old counts.new)
        (Kept decisions.old decisions.new bits.old bits.new bytes.old bytes.new counts.old counts.new) }
    ensures ranges { Promised t re.now im.now o.mapping o.scales o.known_start first (length decisions.old) (length bits.old) (length bytes.old) (length counts.old) }
{
    decode_frame(re, im, t, first, o, decisions, bits, bytes, counts)
}
