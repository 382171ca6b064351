// Document 01, module 5: the numbers of the CJK stem, and what hinting one comes to. `stem_cjk_table` has the call by value, `stem_cjk_words` where the words stand.
#![tactic(auto)]

mod gap;
mod offsets;
pub mod outcome;
pub mod stem;
