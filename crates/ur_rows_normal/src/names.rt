//! The names that a constructor may use.
ghost use Rattle.std.specs.Prelude.{◌≡◌, Some, []};
ghost use Rattle.ur_syntax.specs.Names.{own, same_module, same_con, looked_up, seen};
ghost use Rattle.ur_rows_normal.specs.Walk.{declared, names_of, key_of, found_as};

use ur_base::Text;
use ur_rows_reduce::Held;
use ur_syntax::ConName;

/// A name of the environment with what it stands for.
#[derive(Drop)]
pub struct Entry {
    pub name: ConName,
    pub held: Held,
}

/// The names in scope: those of the environment, in order of binding, further ones over the names before them, and the
/// latest one that a function binds, with what it stands for and the number of functions that this stands within, over the
/// names before it.
#[derive(Clone, Copy)]
pub enum Names<'a> {
    Declared(&'a [Entry]),
    Over(&'a [Entry], &'a Names<'a>),
    Bound(&'a Text, u32, &'a Held, &'a Names<'a>),
}

/// Where a constructor stands: in a module, within so many functions, with names in scope.
#[derive(Clone, Copy)]
pub struct Scope<'a> {
    pub home: &'a Text,
    pub depth: u32,
    pub names: &'a Names<'a>,
}

/// A name as it is written: `x` or `M.x`.
#[derive(Clone, Copy)]
pub enum Key<'a> {
    Own(&'a Text),
    Member(&'a Text, &'a Text),
}

/// What a name stands for, and the number of functions that this stands within.
#[derive(Clone, Copy)]
pub struct Found<'a> {
    pub depth: u32,
    pub held: &'a Held,
}

fn is_home(home: &Option<Text>, m: &Text) -> bool
    ensures { result ≡ same_module (Some m.now) home.now }
{
    match home {
        Some(n) => m.as_slice() == n.as_slice(),
        None => false,
    }
}

fn names_entry(key: &Key, name: &ConName) -> bool
    ensures { result ≡ same_con (key_of key.now) name.now }
{
    match key {
        Key::Own(x) => name.home.is_none() && x.as_slice() == name.name.as_slice(),
        Key::Member(m, x) => is_home(&name.home, m) && x.as_slice() == name.name.as_slice(),
    }
}

fn names_bound(key: &Key, name: &Text) -> bool
    ensures { result ≡ same_con (key_of key.now) (own name.now) }
{
    match key {
        Key::Own(x) => x.as_slice() == name.as_slice(),
        Key::Member(_, _) => false,
    }
}

fn declared_as<'a>(entries: &'a [Entry], key: &Key) -> Option<Found<'a>>
    ensures { found_as result ≡ looked_up (key_of key.now) (declared entries.now []) }
{
    let count = entries.len();
    for i in 0..count {
        let entry = &entries[count - 1 - i];
        if names_entry(key, &entry.name) {
            return Some(Found {
                depth: 0,
                held: &entry.held,
            });
        }
    }
    None
}

fn looked_up<'a>(names: &Names<'a>, key: &Key) -> Option<Found<'a>>
    ensures { found_as result ≡ looked_up (key_of key.now) (names_of names.now) }
{
    match names {
        Names::Declared(entries) => declared_as(entries, key),
        Names::Over(entries, rest) => match declared_as(entries, key) {
            Some(found) => Some(found),
            None => looked_up(rest, key),
        },
        Names::Bound(x, depth, held, rest) => {
            if names_bound(key, x) {
                return Some(Found {
                    depth: *depth,
                    held,
                });
            }
            looked_up(rest, key)
        }
    }
}

/// What a name stands for as the module `home` sees it.
pub fn seen<'a>(home: &Text, names: &Names<'a>, key: &Key) -> Option<Found<'a>>
    ensures { found_as result ≡ seen home.now (key_of key.now) (names_of names.now) }
{
    match key {
        Key::Own(x) => match looked_up(names, key) {
            Some(found) => Some(found),
            None => looked_up(names, &Key::Member(home, x)),
        },
        Key::Member(m, _) => {
            if m.as_slice() == home.as_slice() {
                return None;
            }
            looked_up(names, key)
        }
    }
}
