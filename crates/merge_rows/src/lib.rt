// The rows of the table that can refuse a merge call.
#![tactic(auto)]

pub mod checks; // checks.rt: single tests of the rows
pub mod rows; // rows.rt: whether a row refuses a call, and which
