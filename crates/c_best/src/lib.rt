// The call for C that gives the best reading of a frame and its lead in each valid slot. It answers document 01's number, 0 for accepted; refused, it leaves what is lent as it was.
// include/isdb.h declares it.
#![tactic(auto)]

ghost use Rattle.std.specs.Prelude.{◌≡◌, ◌++◌};
ghost use Rattle.isdbs_rows.specs.DecodeRows.{point_rows};
ghost use Rattle.isdbs_metrics.specs.Scales.{received_by};
ghost use Rattle.c_table.specs.Forms.{table_of};
ghost use Rattle.c_mapping.specs.Mappings.{mapping_of, is_set};
ghost use Rattle.c_answers.specs.Answers.{answered};
ghost use Rattle.c_scales.specs.Scales.{with_scales};
ghost use Rattle.best_frame.specs.Lent.{lent, lengths};
ghost use Rattle.best_frame.specs.Left.{Left};
ghost use Rattle.best_frame.specs.BestRows.{last_rows, start_of};

use best_frame::best_reading;
use c_mapping::mapping_of;
use c_scales::{not_scales, scales_of};
use c_table::table_of;
use isdbs_phy::demod::DemodOptions;

// The best reading of the 38,976 points of a frame, and by how much it leads in each valid slot. `first` and `known_start` are true unless 0. `scales` has one for each combination, in the order of words 1
// to 7. `metrics`, `sides`, `words` and `tables` are what it works in.
#[unsafe(no_mangle)]
pub extern "C" fn isdbs_best_reading(
    re: &[f64],
    im: &[f64],
    table: u64,
    mapping: u8,
    first: u8,
    known_start: u8,
    scales: &[f32],
    metrics: &mut [f32],
    sides: &mut [u8],
    words: &mut [u64],
    tables: &mut [u64],
    bits: &mut [u8],
    uncoded: &mut [u8],
    bytes: &mut [u8],
    leads: &mut [u64],
) -> u32
    ensures answers { result ≡ answered (with_scales (table_of table) scales.now (point_rows re.now im.now ++ last_rows (table_of table) scales.now
        (lengths (lent metrics.old sides.old words.old tables.old bits.old uncoded.old bytes.old leads.old)))) }
    ensures leaves { result ≡ 0 → Left (table_of table) (received_by re.now im.now (mapping_of mapping) scales.now) (start_of (is_set known_start) (is_set first))
        (lent metrics.old sides.old words.old tables.old bits.old uncoded.old bytes.old leads.old)
        (lent metrics.new sides.new words.new tables.new bits.new uncoded.new bytes.new leads.new) }
    ensures keeps { (result ≡ 0 → ⊥) → lent metrics.new sides.new words.new tables.new bits.new uncoded.new bytes.new leads.new
        ≡ lent metrics.old sides.old words.old tables.old bits.old uncoded.old bytes.old leads.old }
{
    let t = table_of(table);
    if scales.len() != 7 {
        return not_scales(t);
    }
    let m = mapping_of(mapping);
    let all = scales_of(scales);
    let o = DemodOptions {
        mapping: m,
        known_start: known_start != 0,
        scales: all,
    };
    let r = best_reading(
        re,
        im,
        t,
        first != 0,
        o,
        metrics,
        sides,
        words,
        tables,
        bits,
        uncoded,
        bytes,
        leads,
    );
    refusal::number(r)
}
