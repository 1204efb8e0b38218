//! Pages by their paths, the most recent first.
use crate::page::{Page, keep_unmasked, place_of, put_to_front, to_front};
use std::alloc::Global;
use std::marker::Model;
use ur_base::Memory;
use ur_cache::Cache;

/// Pages, the most recent first, at most so many. Contracts see the list of them.
#[derive(Drop)]
pub struct Pages {
    most: u32,
    list: Vec<Page>,
}

impl Model for Pages {
    ghost use Rattle.std.specs.Prelude.{◌≤◌, length, map};
    ghost use Rattle.std.specs.Coded.{codes};
    ghost use Rattle.ur_values.specs.contracts.value.Value as value;
    ghost use Rattle.ur_pages.specs.Pages.{Pages, read_page};

    ghost Value = { Pages };

    ghost coded = { Prim.hlevel (codes, value.the_row.coded) };

    ghost view = { λ p. record { most = p.most; list = map read_page p.list.items } };

    ghost invariant = { λ p. length p.list.items ≤ p.most };
}

impl Pages {
    ghost use Rattle.std.specs.Prelude.{◌≡◌, ◌<◌, ◌∷◌, [], length, map, take, remove, position, slice_get, Some, IfOk, OnOk, OnErr};
    ghost use Rattle.ur_pages.specs.Pages.{is_at, read_page, without_masked, IsToFront};

    /// No pages, at most this many from now on.
    pub fn new(alloc: Global, most: u32) -> Pages
        ensures { result ≡ record { most = most; list = [] } }
    {
        Pages {
            most,
            list: Vec::new(alloc),
        }
    }

    /// The place of the page of this path, if there is one. Takes no memory.
    pub fn place_of(&self, path: &[u8]) -> Option<usize>
        ensures { result ≡ position (is_at path.now) self.now.list }
    {
        place_of(self.list.as_slice(), path)
    }

    /// The page at a place.
    pub fn at(&self, place: usize) -> &Page
        requires { place < length self.now.list }
        ensures { slice_get self.now.list place ≡ Some (read_page result.now) }
    {
        &self.list[place]
    }

    /// Moves the page at a place to the front. Takes no memory.
    pub fn bring(&mut self, place: usize)
        requires { place < length self.old.list }
        ensures front { IsToFront self.old.list place self.new.list }
        ensures most { self.new.most ≡ self.old.most }
    {
        to_front(&mut self.list, place);
    }

    /// Drops the page at a place. Takes no memory.
    pub fn forget(&mut self, place: usize)
        requires { place < length self.old.list }
        ensures { self.new ≡ record self.old { list = remove self.old.list place } }
    {
        drop(self.list.remove(place));
    }

    /// Remembers a page, at the front; the last one goes where there are more than so many.
    pub fn put(&mut self, page: Page) -> Result<(), Memory>
        ensures ok { OnOk result (self.new ≡ record self.old { list = take self.old.most (read_page page ∷ self.old.list) }) }
        ensures err { OnErr result (self.new ≡ self.old) }
    {
        if self.list.push(page).is_err() {
            return Err(Memory);
        }
        put_to_front(&mut self.list, self.most);
        Ok(())
    }

    /// Drops exactly the pages of which a mask of the cache matches a query. Takes no memory.
    pub fn drop_masked(&mut self, cache: &Cache)
        ensures { self.new ≡ without_masked cache.now.masks self.old }
    {
        keep_unmasked(&mut self.list, cache);
    }
}
