//! Calls that are tried in code, since no row of `test_rows` can say them: real files behind the adapters, the objects in
//! memory that never fail, copies of values, paths of imports, tables on which workers race, and chunks that they draw.
#![tactic(auto)]

#[cfg(test)]
mod chunks;
#[cfg(test)]
mod definitions;
#[cfg(test)]
mod files;
#[cfg(test)]
mod gates;
#[cfg(test)]
mod memory;
#[cfg(test)]
mod paths;
#[cfg(test)]
mod phases;
#[cfg(test)]
mod tables;
#[cfg(test)]
mod values;
#[cfg(test)]
mod words;
