//! Tests of what runs, through the public calls of the crates below: plain Java, graphs and tasks, the texts
//! of a run, its report, and the program over files and an output in memory.
#![tactic(auto)]

#[cfg(test)]
mod calls;
#[cfg(test)]
mod cutter_tests;
#[cfg(test)]
mod errors;
#[cfg(test)]
mod plain_tests;
#[cfg(test)]
mod reports;
#[cfg(test)]
mod runs;
#[cfg(test)]
mod schedules;
#[cfg(test)]
mod task_tests;
#[cfg(test)]
mod texts;
