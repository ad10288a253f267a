//! Tests of the graphs of classes: their items, taken one after the other, give the results of the calls.
#![tactic(auto)]

#[cfg(test)]
mod calls;
#[cfg(test)]
mod cells;
#[cfg(test)]
mod graphs;
#[cfg(test)]
mod small;
