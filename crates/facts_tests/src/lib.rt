//! Tests of the libraries below symbolic execution: instructions, programs, the longest runs, lists, symbolic words,
//! and what faults say. What facts know is tried by the cases of `facts_run`, and what `check` and `eval` show by lines
//! of `command_run`.
#![tactic(auto)]

#[cfg(test)]
mod chains;
#[cfg(test)]
mod faults;
#[cfg(test)]
mod instructions;
#[cfg(test)]
mod lists;
#[cfg(test)]
mod programs;
#[cfg(test)]
mod runs;
#[cfg(test)]
mod words;
