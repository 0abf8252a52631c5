// The call for C that gives the bytes behind a wanted frame (request P9). It answers document 01's number, 0 for accepted; refused, it leaves the lent bytes as they were. include/isdb.h
// declares it.
#![tactic(auto)]

ghost use Rattle.std.specs.Prelude.{◌≡◌, length};
ghost use Rattle.c_table.specs.Forms.{table_of};
ghost use Rattle.c_mapping.specs.Mappings.{mapping_of, is_set};
ghost use Rattle.wanted_load.specs.Found.{load_said};
ghost use Rattle.c_wanted.specs.Calls.{AnsweredC, Left};

use c_mapping::mapping_of;
use c_table::table_of;
use refusal::Refusal;
use wanted_load::wanted_load;

// The number of an answer.
fn number_of(r: Result<usize, Refusal>) -> u32
    ensures { result ≡ (load_said r).0 }
{
    match r {
        Ok(_) => 0,
        Err(row) => refusal::number(Err(row)),
    }
}

// The full load that encodes to a frame, laid over the beginning of the bytes.
#[unsafe(no_mangle)]
pub extern "C" fn isdbs_wanted_load(
    re: &[f64],
    im: &[f64],
    table: u64,
    mapping: u8,
    first: u8,
    bytes: &mut [u8],
) -> u32
    ensures answers { AnsweredC (table_of table) (mapping_of mapping) (is_set first) re.now im.now (length bytes.old) result }
    ensures leaves { Left (table_of table) (mapping_of mapping) (is_set first) re.now im.now result bytes.old bytes.new }
{
    let t = table_of(table);
    let m = mapping_of(mapping);
    let r = wanted_load(re, im, t, m, first != 0, bytes);
    number_of(r)
}
