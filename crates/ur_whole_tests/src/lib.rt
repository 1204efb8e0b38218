//! Tests of instances of sources that are made by hand, of projects in files, loaded and compiled, and of whole runs
//! over tables in a database.
#![tactic(auto)]

#[cfg(test)]
mod attached;
#[cfg(test)]
mod compiled;
#[cfg(test)]
mod files;
#[cfg(test)]
mod grown;
#[cfg(test)]
mod loaded;
#[cfg(test)]
mod restarted;
#[cfg(test)]
mod running;
#[cfg(test)]
mod stored;
#[cfg(test)]
mod tests;
