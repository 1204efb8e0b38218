//! What a run serves, in words of the source alone; and that code which means what a source means serves it.
#![tactic(auto)]

mod laws;

pub use laws::{code_serves_source, links_of_source_lead, served_run_serves, sound_tables_last};
