// Text and files: what the programs read and print.
#![tactic(auto)]

pub mod files;
pub mod hex;
pub mod line;
pub mod number;
pub mod program;
pub mod progress;
pub mod report;
