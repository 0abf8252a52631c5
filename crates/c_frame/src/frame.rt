// Calls on whole frames, and `soft`.
ghost use Rattle.std.specs.Prelude.{◌≡◌, length, replicate};
ghost use Rattle.std.specs.Float.{binary32};
ghost use Rattle.ieee.specs.Conversion.{rounded};
ghost use Rattle.trellis.specs.Lists.{laid};
ghost use Rattle.isdbs_points.specs.Frame.{end_state, frame_re, frame_im};
ghost use Rattle.isdbs_phy.specs.EncodeRows.{encode_rows};
ghost use Rattle.isdbs_metrics.specs.Scales.{received_by};
ghost use Rattle.isdbs_metrics.specs.Reading.{decoded_bits, decoded_bytes};
ghost use Rattle.trellis.specs.Isdb.{frame_words};
ghost use Rattle.strain_marks.specs.Strain.{strain_counts, strain_sum};
ghost use Rattle.c_table.specs.Forms.{table_of};
ghost use Rattle.c_mapping.specs.Mappings.{mapping_of, is_set};
ghost use Rattle.c_answers.specs.Answers.{answered, left};
ghost use Rattle.c_frame.specs.Lengths.{scales_rows};

use c_mapping::mapping_of;
use c_scales::{not_scales, scales_of};
use c_table::table_of;
use isdb_fec::conv::ConvEncoder;
use isdbs_phy::demod::DemodOptions;

// The 38,976 points of a frame from its bytes, with the encoder at a state, and the state that it ends in.
#[unsafe(no_mangle)]
pub extern "C" fn isdbs_encode_frame(
    bytes: &[u8],
    table: u64,
    mapping: u8,
    state: u8,
    re: &mut [f64],
    im: &mut [f64],
    end: &mut u8,
) -> u32
    ensures answers { result ≡ answered (encode_rows (table_of table) state (length re.old) (length im.old)) }
    ensures real { re.new ≡ left result (laid (frame_re (table_of table) (mapping_of mapping) bytes.now state) re.old) re.old }
    ensures imaginary { im.new ≡ left result (laid (frame_im (table_of table) (mapping_of mapping) bytes.now state) im.old) im.old }
    ensures state { end.new ≡ left result (end_state (table_of table) bytes.now state) end.old }
{
    let t = table_of(table);
    let m = mapping_of(mapping);
    let enc = ConvEncoder { state };
    match isdbs_phy::demod::encode_frame_with_state(bytes, t, enc, m, re, im) {
        Ok(after) => {
            *end = after.state;
            0
        }
        Err(row) => refusal::number(Err(row)),
    }
}

// The bytes of a frame from its 38,976 points. `first` and `known_start` are true unless 0. `scales` has one for each combination, in the order of words 1
// to 7. `counts` gets the strained steps of each valid slot, `sum` those of the frame.
#[unsafe(no_mangle)]
pub extern "C" fn isdbs_decode_frame(
    re: &[f64],
    im: &[f64],
    table: u64,
    mapping: u8,
    first: u8,
    known_start: u8,
    scales: &[f32],
    decisions: &mut [u64],
    bits: &mut [u8],
    bytes: &mut [u8],
    counts: &mut [u32],
    sum: &mut u32,
) -> u32
    ensures answers { result ≡ answered (scales_rows (table_of table) re.now im.now scales.now (length decisions.old) (length bits.old) (length bytes.old) (length counts.old)) }
    ensures words { decisions.new ≡ left result (laid (replicate frame_words 0) decisions.old) decisions.old }
    ensures decoded { bits.new ≡ left result (laid (decoded_bits (table_of table) (received_by re.now im.now (mapping_of mapping) scales.now) (is_set known_start) (is_set first)) bits.old) bits.old }
    ensures load { bytes.new ≡ left result (laid (decoded_bytes (table_of table) (received_by re.now im.now (mapping_of mapping) scales.now) (is_set known_start) (is_set first)) bytes.old) bytes.old }
    ensures strain { counts.new ≡ left result (laid (strain_counts (table_of table) (received_by re.now im.now (mapping_of mapping) scales.now) (is_set known_start) (is_set first)) counts.old) counts.old }
    ensures total { sum.new ≡ left result (strain_sum (table_of table) (received_by re.now im.now (mapping_of mapping) scales.now) (is_set known_start) (is_set first)) sum.old }
{
    let t = table_of(table);
    if scales.len() != 7 {
        return not_scales(t);
    }
    let m = mapping_of(mapping);
    let all = scales_of(scales);
    let o = DemodOptions {
        mapping: m,
        known_start: known_start != 0,
        scales: all,
    };
    let r = isdbs_phy::demod::decode_frame(
        re,
        im,
        t,
        first != 0,
        o,
        decisions,
        bits,
        bytes,
        counts,
    );
    match r {
        Ok(f) => {
            *sum = f.strained;
            0
        }
        Err(row) => refusal::number(Err(row)),
    }
}

// The f32 nearest to x.
#[unsafe(no_mangle)]
pub extern "C" fn isdbs_soft(x: f64) -> f32
    ensures { result ≡ rounded binary32 x }
{
    isdbs_phy::soft(x)
}
