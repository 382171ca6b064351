// The shape of word lists: which words are those of fields, records and runs of records.
#![tactic(auto)]

pub mod element;
pub mod field;
