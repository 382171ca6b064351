// Document 02, #103: what a job of a log is answered by, as digits. `answer` runs the job, `text` writes the digits.
#![tactic(auto)]

pub mod answer;
pub mod text;
