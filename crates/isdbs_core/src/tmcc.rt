// The table record of the TMCC information, and the combination of each slot.
pub use isdbs_marks::{SlotMark, slot_combinations};
pub use isdbs_tables::{CM, DUMMY, Entry, Table, table_answer};
