//! Tests of files, outputs and stable storage in memory, through their public calls.
#![tactic(auto)]

#[cfg(test)]
mod keep;
