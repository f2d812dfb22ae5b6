// Examples of what the libraries do; every expected digest comes from another implementation of SHA-256.
#![tactic(auto)]

pub mod digesters;
#[cfg(test)]
mod histories;
#[cfg(test)]
mod lines;
#[cfg(test)]
mod programs;
#[cfg(test)]
mod steps;
