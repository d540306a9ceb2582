//! Tests over public calls: bytes, names, moments, JSON, texts of records, and the chain. All of it is tests.
#![tactic(auto)]

#[cfg(test)]
mod amount_tests;
#[cfg(test)]
mod byte_tests;
#[cfg(test)]
mod container_tests;
#[cfg(test)]
mod depth_tests;
#[cfg(test)]
mod fault_tests;
#[cfg(test)]
mod hash_tests;
#[cfg(test)]
mod json_rows;
#[cfg(test)]
mod moment_tests;
#[cfg(test)]
mod name_tests;
#[cfg(test)]
mod record_tests;
#[cfg(test)]
mod records;
#[cfg(test)]
mod text_tests;
#[cfg(test)]
mod value_tests;
#[cfg(test)]
mod view_tests;
