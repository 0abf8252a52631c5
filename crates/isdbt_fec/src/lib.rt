// The inner code of ISDB-T: the mother code of crate isdb_fec, punctured by Table 3-8 of ARIB STD-B31.
#![tactic(auto)]

pub mod conv;
