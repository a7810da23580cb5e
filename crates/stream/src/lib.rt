// The stream of tokens: four words a record, kind, payload, line and after-line.
#![tactic(auto)]

pub mod form;
pub mod kinds;
pub mod reader;
pub mod refusals;
