// Requests #107 and #113: which rings are sound, where the words of segments and edges stand.
#![tactic(auto)]

pub mod broken;
pub mod gather;
