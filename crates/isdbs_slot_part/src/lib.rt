// The bytes of a valid slot, as a part of a frame's load.
#![tactic(auto)]

ghost use Rattle.std.specs.Prelude.{◌≡◌};
ghost use Rattle.isdbs_slot_part.specs.SlotPart.{slot_part_answer, slot_part};

use isdbs_frame::SLOT_BYTES;
use isdbs_plan::runs;
use isdbs_tables::Table;
use refusal::Refusal;

// Why the part of valid slot k is turned back.
pub fn slot_part_answer(bytes: &[u8], t: Table, k: usize) -> Result<(), Refusal>
    ensures { result ≡ slot_part_answer bytes.now t k }
{
    let all = runs(t)?;
    let v = all.valid_slots;
    if k >= v {
        return Err(Refusal::Position);
    }
    if bytes.len() != SLOT_BYTES * v {
        return Err(Refusal::Length);
    }
    Ok(())
}

// The 203 bytes of valid slot k, a part of the load; empty where the call is turned back. Where two slots hold the same bytes the contract leaves free which of the two parts it is (D10).
pub fn slot_part<'a>(bytes: &'a [u8], t: Table, k: usize) -> &'a [u8]
    ensures { result.now ≡ slot_part bytes.now t k }
{
    let answer = slot_part_answer(bytes, t, k);
    let Ok(()) = answer else {
        return &bytes[0..0];
    };
    &bytes[SLOT_BYTES * k..SLOT_BYTES * k + SLOT_BYTES]
}
