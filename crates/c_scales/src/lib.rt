// Seven scales from a slice that C lends, and row 5 where they are not seven.
#![tactic(auto)]

ghost use Rattle.std.specs.Prelude.{◌≡◌, length};
ghost use Rattle.isdbs_tables.specs.Tables.{table_rows};
ghost use Rattle.c_answers.specs.Answers.{answered};
ghost use Rattle.c_answers.specs.Lengths.{until_length};

use isdbs_core::tmcc::{Table, table_answer};

// The answer where the scales are not seven: the table's rows stand above 5.
pub fn not_scales(t: Table) -> u32
    ensures { result ≡ answered (until_length (table_rows t)) }
{
    let a = table_answer(t);
    let answer = refusal::number(a);
    if answer != 0 {
        return answer;
    }
    5
}

// Seven scales.
pub fn scales_of(scales: &[f32]) -> [f32; 7]
    requires { length scales.now ≡ 7 }
    ensures { result ≡ scales.now }
{
    let mut all = [0.0f32; 7];
    for i in 0..7 {
        all[i] = scales[i];
    }
    all
}
