//! Tests over public calls: the heads, bodies and messages of a connection, as they come from sources in memory, and the
//! texts of replies.
#![tactic(auto)]

#[cfg(test)]
mod answer;
#[cfg(test)]
mod body_tests;
#[cfg(test)]
mod head_tests;
#[cfg(test)]
mod limit_tests;
#[cfg(test)]
mod message_tests;
#[cfg(test)]
mod reply_tests;
