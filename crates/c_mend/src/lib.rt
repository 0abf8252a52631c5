// The call for C that mends a stored coded stretch. It answers document 01's number, 0 for accepted; refused, it leaves every lent number and slice as it was. include/isdb.h
// declares it.
#![tactic(auto)]

ghost use Rattle.std.specs.Prelude.{length};
ghost use Rattle.c_mend.specs.Calls.{Answers, Left};

// The coded stretch within four bits of `bits`, and the positions in which it differs.
#[unsafe(no_mangle)]
pub extern "C" fn isdb_mend(
    bits: &[u8],
    start: u8,
    end: u8,
    decisions: &mut [u64],
    out: &mut [u8],
    places: &mut [u32],
    count: &mut u64,
) -> u32
    ensures answers { Answers bits.now (length decisions.old) (length out.old) (length places.old) result }
    ensures leaves { Left start end bits.now result count.old count.new decisions.old decisions.new out.old out.new places.old places.new }
{
    match mend::mend(bits, start, end, decisions, out, places) {
        Ok(changed) => {
            *count = changed as u64;
            0
        }
        Err(row) => refusal::number(Err(row)),
    }
}
