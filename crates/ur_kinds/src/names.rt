//! The names that a constructor may use.
ghost use Rattle.std.specs.Prelude.{◌≡◌, Some};
ghost use Rattle.std.specs.Option.{option_copied};
ghost use Rattle.ur_syntax.specs.Names.{own, same_module, same_con, looked_up};
ghost use Rattle.ur_syntax.specs.HasKind.{kind_known, scope_in};
ghost use Rattle.ur_kinds.specs.Walk.{scope_of, key_of};

use ur_base::Text;
use ur_syntax::{ConEnv, ConName, Kind};

/// The names in scope: those of the environment, and the latest one that a function binds, with its kind, over the
/// names before it.
#[derive(Clone, Copy)]
pub enum Names<'a> {
    Declared(&'a ConEnv),
    Bound(&'a Text, &'a Kind, &'a Names<'a>),
}

/// A name as it is written: `x` or `M.x`.
#[derive(Clone, Copy)]
pub enum Key<'a> {
    Own(&'a Text),
    Member(&'a Text, &'a Text),
}

fn is_home(home: &Option<Text>, m: &Text) -> bool
    ensures { result ≡ same_module (Some m.now) home.now }
{
    match home {
        Some(n) => m.as_slice() == n.as_slice(),
        None => false,
    }
}

fn is_entry(key: &Key, name: &ConName) -> bool
    ensures { result ≡ same_con (key_of key.now) name.now }
{
    match key {
        Key::Own(x) => name.home.is_none() && x.as_slice() == name.name.as_slice(),
        Key::Member(m, x) => is_home(&name.home, m) && x.as_slice() == name.name.as_slice(),
    }
}

fn is_variable(key: &Key, name: &Text) -> bool
    ensures { result ≡ same_con (key_of key.now) (own name.now) }
{
    match key {
        Key::Own(x) => x.as_slice() == name.as_slice(),
        Key::Member(_, _) => false,
    }
}

/// The kind of the latest entry of that name.
fn declared<'a>(env: &'a ConEnv, key: &Key) -> Option<&'a Kind>
    ensures { option_copied result ≡ looked_up (key_of key.now) (scope_in env.now).names }
{
    let entries = env.entries.as_slice();
    let count = entries.len();
    for i in 0..count {
        let entry = &entries[count - 1 - i];
        if is_entry(key, &entry.name) {
            return Some(&entry.kind);
        }
    }
    None
}

fn looked_up<'a>(names: &Names<'a>, key: &Key) -> Option<&'a Kind>
    ensures { option_copied result ≡ looked_up (key_of key.now) (scope_of names.now).names }
{
    match names {
        Names::Declared(env) => declared(env, key),
        Names::Bound(x, kind, rest) => {
            if is_variable(key, x) {
                return Some(kind);
            }
            looked_up(rest, key)
        }
    }
}

/// The module that looks.
fn home<'a>(names: &Names<'a>) -> &'a Text
    ensures { result.now ≡ (scope_of names.now).home }
{
    match names {
        Names::Declared(env) => &env.home,
        Names::Bound(_, _, rest) => home(rest),
    }
}

/// The kind of a name in scope.
pub fn seen<'a>(names: &Names<'a>, key: &Key) -> Option<&'a Kind>
    ensures { option_copied result ≡ kind_known (key_of key.now) (scope_of names.now) }
{
    match key {
        Key::Own(x) => match looked_up(names, key) {
            Some(kind) => Some(kind),
            None => looked_up(names, &Key::Member(home(names), x)),
        },
        Key::Member(m, _) => {
            if m.as_slice() == home(names).as_slice() {
                return None;
            }
            looked_up(names, key)
        }
    }
}
