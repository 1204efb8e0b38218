//! Laws of code that means what a source means.
ghost use Rattle.ur_headline.specs.Laws.{CodeServesSource, SoundTablesLast, ServedRunServes, LinksOfSourceLead};

/// The sessions of the code with a cache are those of the source, with the cache and without it. Does nothing.
pub fn code_serves_source()
    ensures { CodeServesSource }
{}

/// The tables that an attached keeper has last for a whole run. Does nothing.
pub fn sound_tables_last()
    ensures { SoundTablesLast }
{}

/// What a server that began with an empty cache has served, from tables that an attached keeper has, is what the headline says. Does
/// nothing.
pub fn served_run_serves()
    ensures { ServedRunServes }
{}

/// The links of pages lead to routes that answer them, and each call's path names it. Does nothing.
pub fn links_of_source_lead()
    ensures { LinksOfSourceLead }
{}
