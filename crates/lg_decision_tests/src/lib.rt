//! Worked tables of what is decided: trials of postings, stripes that calls need, writes, calls, volumes of
//! transactions, and scripts. All of it is tests.
#![tactic(auto)]

#[cfg(test)]
mod answer_tests;
#[cfg(test)]
mod lines;
#[cfg(test)]
mod script_tests;
#[cfg(test)]
mod stripe_tests;
#[cfg(test)]
mod trial_tests;
#[cfg(test)]
mod volume_tests;
#[cfg(test)]
mod write_tests;
