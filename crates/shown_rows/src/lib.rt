// What a display shows, row by row: where a line crosses a row (`crossing`), how winding changes along it (`changes`), and the turns of which the Euler number is made (`turns`).
#![tactic(auto)]

pub mod changes;
pub mod crossing;
pub mod turns;
