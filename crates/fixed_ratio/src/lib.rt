// Multiply-divide, beside document 01's fixed multiply and divide: remaining edges ask for it.
#![tactic(auto)]

pub mod ratio;
