// Request #114: the converter for edge tables that were saved in the other order.
#![tactic(auto)]

pub mod accept;
pub mod turn;
