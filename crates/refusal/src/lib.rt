// Where a call is turned back: the answers that every outside call gives, and their numbers.
#![tactic(auto)]

ghost use Rattle.std.specs.Prelude.{◌≡◌};
ghost use Rattle.refusal.specs.Rows.{number_of};

// A row of document 01's table "Where a call is turned back" as document 02 leaves it: why a call is turned back. A call that only answers gives `Result<(), Refusal>`.
#[derive(Clone, Copy)]
pub enum Refusal {
    Table,
    Position,
    Traceback,
    State,
    Length,
    Symbols,
    Sample,
    Scale,
    Space,
    PartUnit,
    ReservedWord,
    Window,
    Code,
    NoLoad,
    Unmendable,
}

// The row's number, and 0 for accepted.
pub fn number(answer: Result<(), Refusal>) -> u32
    ensures { result ≡ number_of answer }
{
    match answer {
        Ok(()) => 0,
        Err(Refusal::Table) => 1,
        Err(Refusal::Position) => 2,
        Err(Refusal::Traceback) => 3,
        Err(Refusal::State) => 4,
        Err(Refusal::Length) => 5,
        Err(Refusal::Symbols) => 6,
        Err(Refusal::Sample) => 7,
        Err(Refusal::Scale) => 8,
        Err(Refusal::Space) => 9,
        Err(Refusal::PartUnit) => 10,
        Err(Refusal::ReservedWord) => 11,
        Err(Refusal::Window) => 14,
        Err(Refusal::Code) => 12,
        Err(Refusal::NoLoad) => 13,
        Err(Refusal::Unmendable) => 15,
    }
}
