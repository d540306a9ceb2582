//! Maps from names that grow: the entries stand in the order of their coming, and small places put them in the order of
//! their names.
#![tactic(auto)]

mod map;
mod order;
mod prepared;
mod room;
mod taking;

pub use map::NameMap;
pub use prepared::PreparedMap;
