//! A page that is remembered, and the queries that it asked.
ghost use Rattle.std.specs.Prelude.{◌≡◌, ◌<◌, ◌≤◌, ◌∷◌, ◌++◌, List, [], take, length, map, filter, not, position, slice_get, Some};
ghost use Rattle.ur_pages.specs.Pages.{are_there, brought, some_masked, is_at, read_ask, read_page, IsToFront};
ghost use Rattle.ur_pages.specs.declared.page.Page.{Page};

use ur_base::{Bytes, List, Text};
use ur_cache::Cache;
use ur_values::Atom;

/// A query that was asked: its site and its key.
#[derive(Drop)]
pub struct Ask {
    pub site: u32,
    pub key: List<Atom>,
}

/// A path, the queries that its page asked in order, and the bytes of the page.
#[derive(Drop)]
pub struct Page {
    pub path: Text,
    pub asks: List<Ask>,
    pub bytes: Bytes,
}

/// Whether the cache has an entry for each of these queries. Takes no memory.
pub fn are_there(cache: &Cache, asks: &[Ask]) -> bool
    ensures { result ≡ are_there cache.now.entries (map read_ask asks.now) }
{
    for ask in asks {
        if !cache.has(ask.site, ask.key.as_slice()) {
            return false;
        }
    }
    true
}

/// Brings the entries of these queries to the front, one after the other. Takes no memory.
pub fn bring(cache: &mut Cache, asks: &[Ask])
    ensures { cache.new ≡ brought (map read_ask asks.now) cache.old }
{
    for ask in asks {
        cache.lookup(ask.site, ask.key.as_slice());
    }
}

/// Whether a mask matches one of these queries. Takes no memory.
pub(crate) fn some_masked(asks: &[Ask], cache: &Cache) -> bool
    ensures { result ≡ some_masked cache.now.masks (map read_ask asks.now) }
{
    for ask in asks {
        if cache.masked(ask.site, ask.key.as_slice()) {
            return true;
        }
    }
    false
}

/// The place of the first page of this path, if there is one. Takes no memory.
pub(crate) fn place_of(pages: &[Page], path: &[u8]) -> Option<usize>
    ensures { result ≡ position (λ p. is_at path.now (read_page p)) pages.now }
{
    pages.iter().position(|page| page.path.as_slice() == path)
}

/// Moves the element at a place to the front. Takes no memory.
pub(crate) fn to_front<T>(items: &mut [T], place: usize)
    requires { place < length items.old }
    ensures front { IsToFront items.old place items.new }
    ensures same { length items.new ≡ length items.old }
{
    items[..place + 1].rotate_right(1);
}

/// Moves the last page to the front. Takes no memory.
fn last_to_front(pages: &mut [Page])
    requires { 0 < length pages.old }
    ensures { (ws : List Page) (p : Page) → pages.old ≡ ws ++ p ∷ [] → pages.new ≡ p ∷ ws }
{
    let last = pages.len() - 1;
    to_front(pages, last);
}

/// Moves the last page to the front, and drops the last one where there are more than this. Takes no memory.
pub(crate) fn put_to_front(pages: &mut Vec<Page>, most: u32)
    requires some { 0 < length pages.old.items }
    ensures { (ws : List Page) (p : Page) → pages.old.items ≡ ws ++ p ∷ [] → pages.new.items ≡ take most (p ∷ ws) }
{
    last_to_front(pages);
    pages.truncate(most as usize);
}

/// Drops exactly the pages of which a mask of the cache matches a query. Takes no memory.
pub(crate) fn keep_unmasked(pages: &mut Vec<Page>, cache: &Cache)
    ensures kept { map read_page pages.new.items ≡ filter (λ r. not (some_masked cache.now.masks r.asks)) (map read_page pages.old.items) }
    ensures fewer { length pages.new.items ≤ length pages.old.items }
{
    pages.retain(|page| !some_masked(page.asks.as_slice(), cache));
}
