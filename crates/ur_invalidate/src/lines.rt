//! The lines of sites, of updates, and of what each update drops.
ghost use Rattle.std.specs.Prelude.{◌≡◌, ◌<◌, ◌++◌, IfOk, OnOk, flat_map};
ghost use Rattle.std.specs.List.{enumerate_from};
ghost use Rattle.ur_invalidate.specs.Texts as texts;

use crate::pattern_text::write_patterns;
use std::alloc::Global;
use ur_base::{List, Memory, Text};
use ur_conditions::Patterns;
use ur_sql::{Change, Pattern, Query};

/// The sites with the numbers of their keys, the updates with the numbers of their arguments, and then, for each
/// update and each site, its patterns: a line each, counted from 1.
pub fn sites_text(
    alloc: Global,
    queries: &List<Query>,
    changes: &List<Change>,
    patterns: &Patterns,
) -> Result<Text, Memory>
    ensures { IfOk result (λ text. text ≡ texts.sites_text queries.now changes.now patterns.now) }
{
    let mut text = List::new(alloc);
    write_sites(alloc, &mut text, queries.as_slice())?;
    write_updates(alloc, &mut text, changes.as_slice())?;
    write_drops(alloc, &mut text, patterns.updates.as_slice())?;
    Ok(text)
}

fn write_sites(alloc: Global, out: &mut Text, queries: &[Query]) -> Result<(), Memory>
    ensures { OnOk result (out.new ≡ out.old ++ flat_map texts.site_line (enumerate_from 0 queries.now)) }
{
    let mut site: u64 = 0;
    for query in queries {
        write_site(alloc, out, site, query)?;
        site += 1;
    }
    Ok(())
}

fn write_site(alloc: Global, out: &mut Text, site: u64, query: &Query) -> Result<(), Memory>
    requires { site < 18446744073709551615 }
    ensures { OnOk result (out.new ≡ out.old ++ texts.site_line (site, query.now)) }
{
    let place = site + 1;
    let keys = query.params.len();
    let line = format!(in alloc; "site {place} keys {keys}\n")?;
    out.extend_from_slice(line.as_bytes())
}

fn write_updates(alloc: Global, out: &mut Text, changes: &[Change]) -> Result<(), Memory>
    ensures { OnOk result (out.new ≡ out.old ++ flat_map texts.update_line (enumerate_from 0 changes.now)) }
{
    let mut update: u64 = 0;
    for change in changes {
        write_change(alloc, out, update, change)?;
        update += 1;
    }
    Ok(())
}

fn write_change(alloc: Global, out: &mut Text, update: u64, change: &Change) -> Result<(), Memory>
    requires { update < 18446744073709551615 }
    ensures { OnOk result (out.new ≡ out.old ++ texts.update_line (update, change.now)) }
{
    let place = update + 1;
    let args = change.params.len();
    let line = format!(in alloc; "update {place} args {args}\n")?;
    out.extend_from_slice(line.as_bytes())
}

fn write_drops(alloc: Global, out: &mut Text, updates: &[List<List<Pattern>>]) -> Result<(), Memory>
    ensures { OnOk result (out.new ≡ out.old ++ flat_map texts.update_text (enumerate_from 0 updates.now)) }
{
    let mut update: u64 = 0;
    for sites in updates {
        write_update(alloc, out, update, sites.as_slice())?;
        update += 1;
    }
    Ok(())
}

fn write_update(
    alloc: Global,
    out: &mut Text,
    update: u64,
    sites: &[List<Pattern>],
) -> Result<(), Memory>
    requires { update < 18446744073709551615 }
    ensures { OnOk result (out.new ≡ out.old ++ texts.update_text (update, sites.now)) }
{
    let mut site: u64 = 0;
    for patterns in sites {
        write_patterns(alloc, out, update, site, patterns.as_slice())?;
        site += 1;
    }
    Ok(())
}
