//! Tests of trees and forms of the greatest height, which are read, made and dropped within the default stack; of
//! instances, and of prepared scopes.
#![tactic(auto)]

#[cfg(test)]
mod calls;
#[cfg(test)]
mod heights;
#[cfg(test)]
mod tall;
