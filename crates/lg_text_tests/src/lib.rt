//! Texts read and written: worked requests, bodies, lines of entries, filters and tokens, each with what it comes to.
#![tactic(auto)]

#[cfg(test)]
mod bodies;
#[cfg(test)]
mod entries;
#[cfg(test)]
mod filters;
#[cfg(test)]
mod kinds;
#[cfg(test)]
mod lists;
#[cfg(test)]
mod names;
#[cfg(test)]
mod replies;
#[cfg(test)]
mod request_bodies;
#[cfg(test)]
mod requests;
#[cfg(test)]
mod stops;
#[cfg(test)]
mod tables;
#[cfg(test)]
mod token_texts;
#[cfg(test)]
mod tokens;
#[cfg(test)]
mod told_calls;
