// The call for C that gives the quality of a reading: sums of the received points of each slot against the points of the bytes. It answers document 01's number, 0 for accepted; refused, it
// leaves what is lent as it was. include/isdb.h declares it.
#![tactic(auto)]

ghost use Rattle.std.specs.Prelude.{◌≡◌, length};
ghost use Rattle.trellis.specs.Lists.{laid};
ghost use Rattle.c_table.specs.Forms.{table_of};
ghost use Rattle.c_mapping.specs.Mappings.{mapping_of, is_set};
ghost use Rattle.c_answers.specs.Answers.{answered, left};
ghost use Rattle.quality.specs.Qualities.{qualities};
ghost use Rattle.quality.specs.Rows.{quality_rows};

use c_mapping::mapping_of;
use c_table::table_of;
use quality::quality;

// The seven numbers of each of the 48 slots.
#[unsafe(no_mangle)]
pub extern "C" fn isdbs_quality(
    re: &[f64],
    im: &[f64],
    table: u64,
    mapping: u8,
    first: u8,
    bytes: &[u8],
    out: &mut [f64],
) -> u32
    ensures answers { result ≡ answered (quality_rows (table_of table) (length bytes.now) re.now im.now (length out.old)) }
    ensures leaves { out.new ≡ left result (laid (qualities re.now im.now bytes.now (table_of table) (mapping_of mapping) (is_set first)) out.old) out.old }
{
    let t = table_of(table);
    let m = mapping_of(mapping);
    let a = quality(re, im, t, m, first != 0, bytes, out);
    refusal::number(a)
}
