// Demand 3 said of the C calls: what isdbs_encode_frame lays, received within its margins, isdbs_decode_frame reads back with a known start and all seven scales at 8.
#![tactic(auto)]

ghost use Rattle.std.specs.Prelude.{◌≡◌, true, length, replicate};
ghost use Rattle.trellis.specs.Lists.{laid};
ghost use Rattle.isdbs_points.specs.Frame.{end_state, frame_re, frame_im};
ghost use Rattle.isdbs_metrics.specs.Reading.{decoded_bits, decoded_bytes};
ghost use Rattle.isdbs_phy.specs.EncodeRows.{encode_rows};
ghost use Rattle.isdbs_phy.specs.DecodeRows.{decode_rows};
ghost use Rattle.isdbs_metrics.specs.Scales.{received_by};
ghost use Rattle.strain_marks.specs.Strain.{strain_counts, strain_sum};
ghost use Rattle.exact_frame.specs.Call.{eights};
ghost use Rattle.c_table.specs.Forms.{table_of};
ghost use Rattle.c_mapping.specs.Mappings.{mapping_of, is_set};
ghost use Rattle.c_answers.specs.Answers.{answered, left};
ghost use Rattle.c_exact.specs.Call.{Lays, ExactC};
ghost use Rattle.trellis.specs.Isdb.{frame_words};

// isdbs_encode_frame. Where it accepts, at the start state for either kind of frame, the frame lies within its load's margins, and so does every frame
// received within the margins of what is laid.
pub fn lay_frame(
    bytes: &[u8],
    table: u64,
    mapping: u8,
    state: u8,
    re: &mut [f64],
    im: &mut [f64],
    end: &mut u8,
) -> u32
    ensures answers { result ≡ answered (encode_rows (table_of table) state (length re.old) (length im.old)) }
    ensures real { re.new ≡ left result (laid (frame_re (table_of table) (mapping_of mapping) bytes.now state) re.old) re.old }
    ensures imaginary { im.new ≡ left result (laid (frame_im (table_of table) (mapping_of mapping) bytes.now state) im.old) im.old }
    ensures state { end.new ≡ left result (end_state (table_of table) bytes.now state) end.old }
    ensures within { Lays result (table_of table) (mapping_of mapping) bytes.now state re.new im.new }
{
    c_frame::frame::isdbs_encode_frame(bytes, table, mapping, state, re, im, end)
}

// isdbs_decode_frame with a known start and all seven scales at 8. For every accepted table, every mapping and frame kind, every full load and every
// frame within the load's margins, whatever the four lent slices held: 0, the load and no strain, or 9 where one of the slices is too short.
pub fn read_frame(
    re: &[f64],
    im: &[f64],
    table: u64,
    mapping: u8,
    first: u8,
    decisions: &mut [u64],
    bits: &mut [u8],
    bytes: &mut [u8],
    counts: &mut [u32],
    sum: &mut u32,
) -> u32
    ensures answers { result ≡ answered (decode_rows (table_of table) re.now im.now eights (length decisions.old) (length bits.old) (length bytes.old) (length counts.old)) }
    ensures words { decisions.new ≡ left result (laid (replicate frame_words 0) decisions.old) decisions.old }
    ensures decoded { bits.new ≡ left result (laid (decoded_bits (table_of table) (received_by re.now im.now (mapping_of mapping) eights) true (is_set first)) bits.old) bits.old }
    ensures load { bytes.new ≡ left result (laid (decoded_bytes (table_of table) (received_by re.now im.now (mapping_of mapping) eights) true (is_set first)) bytes.old) bytes.old }
    ensures strain { counts.new ≡ left result (laid (strain_counts (table_of table) (received_by re.now im.now (mapping_of mapping) eights) true (is_set first)) counts.old) counts.old }
    ensures total { sum.new ≡ left result (strain_sum (table_of table) (received_by re.now im.now (mapping_of mapping) eights) true (is_set first)) sum.old }
    ensures exact { ExactC (table_of table) (mapping_of mapping) (is_set first) re.now im.now (length decisions.old) (length bits.old) (length bytes.old) (length counts.old) result bytes.new counts.new sum.new }
{
    let scales = [8.0f32; 7];
    c_frame::frame::isdbs_decode_frame(
        re, im, table, mapping, first, 1, &scales, decisions, bits, bytes, counts, sum,
    )
}
