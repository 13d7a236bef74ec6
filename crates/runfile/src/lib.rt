// The run file, field by field, and the lines of the report.
#![tactic(auto)]

pub mod fault;
pub mod field;
pub mod report;
