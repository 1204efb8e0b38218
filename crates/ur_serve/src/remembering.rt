//! Pages that are remembered.
ghost use Rattle.std.specs.Prelude.{◌≡◌, ◌<◌, true, false, [], map, length, slice_get, Some, IfOk, IfSome};
ghost use Rattle.ur_pages.specs.Pages.{read_ask, read_page, unmasked};
ghost use Rattle.ur_serve.specs.Pages as words;
ghost use Rattle.ur_serve.specs.Remembering.{AreTouching, CallsOnlyAsks, FromPage, IsRecalled, IsRecalledAt, IsPut, IsRenewed};

use crate::Reply;
use crate::finishing::{closes, is_head, is_post};
use std::alloc::Global;
use ur_base::{List, Memory};
use ur_cache::Cache;
use ur_code::Code;
use ur_http::{HttpRequest, Method, respond};
use ur_machine::Turn;
use ur_pages::{Ask, Page, Pages, are_there, bring};
use ur_values::Atom;

/// The most pages that a server remembers.
const MOST_PAGES: u32 = 512;

/// The most bytes of one.
const MOST_BYTES: usize = 131_072;

/// The most of its path and its keys together.
const MOST_WEIGHT: u64 = 65_536;

/// No pages; how many there may be with a cache of this capacity.
pub(crate) fn no_pages(alloc: Global, capacity: u32) -> Pages
    ensures { result.list ≡ [] }
{
    let most = if capacity == 0 { 0 } else { MOST_PAGES };
    Pages::new(alloc, most)
}

/// The answer from the page that is remembered at the request's path, where each of its queries has an entry. A page of which one
/// has none is forgotten.
pub(crate) fn recall(
    alloc: Global,
    cache: &mut Cache,
    pages: &mut Pages,
    request: &HttpRequest,
    close: bool,
) -> Option<Reply>
    ensures { IsRecalled request.now close cache.old cache.new pages.old.list pages.new.list result }
{
    if !only_shows(request.method) {
        return None;
    }
    match pages.place_of(request.path.as_slice()) {
        None => None,
        Some(place) => recall_at(alloc, cache, pages, place, request, close),
    }
}

fn recall_at(
    alloc: Global,
    cache: &mut Cache,
    pages: &mut Pages,
    place: usize,
    request: &HttpRequest,
    close: bool,
) -> Option<Reply>
    requires { place < length pages.old.list }
    ensures { IsRecalledAt request.now close cache.old cache.new pages.old.list pages.new.list place result }
{
    if !are_there(cache, pages.at(place).asks.as_slice()) {
        pages.forget(place);
        return None;
    }
    pages.bring(place);
    let reply = from_page(alloc, cache, pages.at(0), request, close);
    Some(reply)
}

/// The answer from a page, whose queries have entries that go to the front.
fn from_page(
    alloc: Global,
    cache: &mut Cache,
    page: &Page,
    request: &HttpRequest,
    close: bool,
) -> Reply
    ensures { FromPage request.now close cache.old cache.new (read_page page.now) result }
{
    let head_only = is_head(request.method);
    let closes = closes(request, close);
    match respond(
        alloc,
        200,
        "",
        &[],
        page.bytes.as_slice(),
        head_only,
        closes,
    ) {
        Ok(bytes) => {
            bring(cache, page.asks.as_slice());
            Reply::Done(bytes)
        }
        Err(_memory) => Reply::Memory,
    }
}

/// Whether the request only shows: GET or HEAD.
fn only_shows(method: Method) -> bool
    ensures { result ≡ words.only_shows method }
{
    match method {
        Method::Get => true,
        Method::Head => true,
        _ => false,
    }
}

/// The queries of a run before its first turn, where its page may be remembered: of a GET or HEAD whose handler only asks.
pub(crate) fn before_asking(
    alloc: Global,
    code: &Code,
    touching: &[bool],
    route: u32,
    method: Method,
) -> Option<List<Ask>>
    requires { AreTouching code.now touching.now }
    ensures { IfSome result (λ asks. (asks ≡ []) × (words.only_shows method ≡ true) × CallsOnlyAsks code.now route) }
{
    if !only_shows(method) {
        return None;
    }
    match code.targets.get(route as usize) {
        None => None,
        Some(target) => {
            if touches(touching, *target) {
                None
            } else {
                Some(List::new(alloc))
            }
        }
    }
}

/// Whether the function does more than ask.
fn touches(touching: &[bool], function: u32) -> bool
    ensures { result ≡ false → slice_get touching.now function ≡ Some false }
{
    match touching.get(function as usize) {
        None => true,
        Some(marked) => *marked,
    }
}

/// What becomes of the pages after a run. A page that a GET or HEAD showed is remembered, where its queries were noted and each has
/// an entry. Before a POST is saved the pages go of which it changes an answer.
pub(crate) fn renew(
    alloc: Global,
    cache: &Cache,
    pages: &mut Pages,
    request: &HttpRequest,
    turn: &Turn,
    asks: Option<List<Ask>>,
)
    ensures { IsRenewed cache.now.masks request.now turn.now asks pages.old.list pages.new.list }
{
    match turn {
        Turn::Page(page, _) => {
            if is_post(request.method) {
                drop_changed(cache, pages);
            } else {
                remember(
                    alloc,
                    cache,
                    pages,
                    request.path.as_slice(),
                    page.as_slice(),
                    asks,
                );
            }
        }
        _ => {}
    }
}

/// Drops the pages of which a mask of the cache matches a query.
fn drop_changed(cache: &Cache, pages: &mut Pages)
    ensures { pages.new.list ≡ unmasked cache.now.masks pages.old.list }
{
    pages.drop_masked(cache);
}

/// Remembers a page whose queries were noted, where it is not too large, each query has an entry, and memory suffices.
fn remember(
    alloc: Global,
    cache: &Cache,
    pages: &mut Pages,
    path: &[u8],
    bytes: &[u8],
    asks: Option<List<Ask>>,
)
    ensures { IsPut path.now bytes.now asks pages.old.list pages.new.list }
{
    match asks {
        None => {}
        Some(asks) => {
            if may_stand(cache, path, bytes, asks.as_slice()) {
                put(alloc, pages, path, bytes, asks);
            }
        }
    }
}

/// Whether a page is not too large, and each of its queries has an entry.
fn may_stand(cache: &Cache, path: &[u8], bytes: &[u8], asks: &[Ask]) -> bool {
    bytes.len() <= MOST_BYTES && weight(path, asks) <= MOST_WEIGHT && are_there(cache, asks)
}

/// The bytes of a path and the sizes of keys together.
fn weight(path: &[u8], asks: &[Ask]) -> u64 {
    let mut sum = path.len() as u64;
    for ask in asks {
        sum = sum.saturating_add(key_weight(ask.key.as_slice()));
    }
    sum
}

fn key_weight(key: &[Atom]) -> u64 {
    let mut sum = 0u64;
    for atom in key {
        sum = sum.saturating_add(atom.size());
    }
    sum
}

fn put(alloc: Global, pages: &mut Pages, path: &[u8], bytes: &[u8], asks: List<Ask>)
    ensures { IsPut path.now bytes.now (Some asks) pages.old.list pages.new.list }
{
    match page_of(alloc, path, bytes, asks) {
        Ok(page) => match pages.put(page) {
            Ok(()) => {}
            Err(_memory) => {}
        },
        Err(_memory) => {}
    }
}

fn page_of(alloc: Global, path: &[u8], bytes: &[u8], asks: List<Ask>) -> Result<Page, Memory>
    ensures { IfOk result (λ page. read_page page ≡ record { path = path.now; asks = map read_ask asks; page = bytes.now }) }
{
    let path = List::from_slice(alloc, path)?;
    let bytes = List::from_slice(alloc, bytes)?;
    Ok(Page { path, asks, bytes })
}
