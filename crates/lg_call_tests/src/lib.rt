//! Worked scenarios: calls on all ledgers with their answers, and what shards and the book are asked after them. All of it
//! is tests.
#![tactic(auto)]

#[cfg(test)]
mod asked_book;
#[cfg(test)]
mod asked_history;
#[cfg(test)]
mod asked_moves;
#[cfg(test)]
mod asked_shards;
#[cfg(test)]
mod call_tests;
#[cfg(test)]
mod reader_tests;
#[cfg(test)]
mod scenarios;
#[cfg(test)]
mod words;
