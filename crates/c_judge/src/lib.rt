// The call for C that gives the verdict: the points of a frame outside the margins of a load. It answers document 01's number, 0 for accepted; refused, it leaves what is lent as it was.
// include/isdb.h declares it.
#![tactic(auto)]

ghost use Rattle.std.specs.Prelude.{◌≡◌, length};
ghost use Rattle.trellis.specs.Lists.{laid};
ghost use Rattle.judge_points.specs.Outside.{outside_counts, outside_sum};
ghost use Rattle.c_table.specs.Forms.{table_of};
ghost use Rattle.c_mapping.specs.Mappings.{mapping_of, is_set};
ghost use Rattle.c_answers.specs.Answers.{answered, left};
ghost use Rattle.judge.specs.Rows.{judge_rows};
ghost use Rattle.judge.specs.Judged.{judged_said};
ghost use Rattle.c_judge.specs.Calls.{sum_of, WorthC};

use c_mapping::mapping_of;
use c_table::table_of;
use judge::judge;
use refusal::Refusal;

// The number of an answer.
fn number_of(r: Result<u32, Refusal>) -> u32
    ensures { result ≡ (judged_said r).0 }
{
    match r {
        Ok(_) => 0,
        Err(row) => refusal::number(Err(row)),
    }
}

// Its sum, or the number that was there.
fn sum_of(r: Result<u32, Refusal>, old: u32) -> u32
    ensures { result ≡ sum_of r old }
{
    match r {
        Ok(sum) => sum,
        Err(_) => old,
    }
}

// The points outside the margins of a full load, of each of the 48 slots, and their sum.
#[unsafe(no_mangle)]
pub extern "C" fn isdbs_judge(
    re: &[f64],
    im: &[f64],
    table: u64,
    mapping: u8,
    first: u8,
    bytes: &[u8],
    counts: &mut [u32],
    sum: &mut u32,
) -> u32
    ensures answers { result ≡ answered (judge_rows (table_of table) (length bytes.now) re.now im.now (length counts.old)) }
    ensures leaves { counts.new ≡ left result (laid (outside_counts re.now im.now bytes.now (table_of table) (mapping_of mapping) (is_set first)) counts.old) counts.old }
    ensures total { sum.new ≡ left result (outside_sum re.now im.now bytes.now (table_of table) (mapping_of mapping) (is_set first)) sum.old }
    ensures worth { WorthC re.now im.now bytes.now (table_of table) (mapping_of mapping) (is_set first) result sum.new }
{
    let t = table_of(table);
    let m = mapping_of(mapping);
    let r = judge(re, im, t, m, first != 0, bytes, counts);
    *sum = sum_of(r, *sum);
    number_of(r)
}
