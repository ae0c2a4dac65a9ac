// Reading a record (SPECIFICATION.md, 1 and 13).
#![tactic(auto)]

pub mod checks;
pub mod reading;
