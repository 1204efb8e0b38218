//! Tests of lists and names, values and types, statements, keepers, the cache, devices and sessions: each call that
//! takes memory once, and trees of the greatest height.
#![tactic(auto)]

#[cfg(test)]
mod answers;
#[cfg(test)]
mod closures;
#[cfg(test)]
mod devices;
#[cfg(test)]
mod files;
#[cfg(test)]
mod heights;
#[cfg(test)]
mod keepers;
#[cfg(test)]
mod lists;
#[cfg(test)]
mod steps;
#[cfg(test)]
mod tables;
#[cfg(test)]
mod tests;
#[cfg(test)]
mod types;
#[cfg(test)]
mod values;
