// The inner code of the ISDB systems: its encoder and its soft-decision Viterbi decoder.
#![tactic(auto)]

pub mod conv;
