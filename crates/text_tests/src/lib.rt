//! The command program where a file of commands can't show it: readers and writers that fail, what is said of that, what was written
//! out by the time that more is read, the numbers of lines, the trace behind them, why lines are refused, journals that are folded, the
//! counts of a summary, and a text that is cut at any byte.
//!
//! It stands on `script_runner` and `explain_refusals`, and has tests only. Whole texts of commands with the answers that are wanted for them are
//! the files of `recorded_script_tests`.
#![tactic(auto)]

#[cfg(test)]
mod checkpointed;
#[cfg(test)]
mod cut;
#[cfg(test)]
mod ended;
#[cfg(test)]
mod explained;
#[cfg(test)]
mod failing;
#[cfg(test)]
mod talking;
#[cfg(test)]
mod traced;
