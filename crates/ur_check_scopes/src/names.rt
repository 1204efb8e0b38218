//! Names of declarations, as a module writes them.
ghost use Rattle.std.specs.Prelude.{◌≡◌, ◌++◌, IfOk, codes};
ghost use Rattle.ur_syntax.specs.Names.{member, name_text, same_con, looked_up, seen};
ghost use Rattle.ur_typed_rules.specs.Names.{name_of};
ghost use Rattle.ur_check_scopes.specs.Views as views;

use std::alloc::Global;
use ur_base::{List, Memory, Text};
use ur_syntax::DeclName;

/// What a declared name of an expression stands for, by its number.
#[derive(Clone, Copy)]
pub enum Means {
    Function(u32),
    Val(u32),
}

/// A declared name with its home and what it stands for.
#[derive(Drop)]
pub struct Named<T> {
    pub home: Text,
    pub name: Text,
    pub of: T,
}

/// A name as it is written: `x` or `M.x`.
#[derive(Clone, Copy)]
pub enum Key<'a> {
    Own(&'a [u8]),
    Member(&'a [u8], &'a [u8]),
}

fn is_named<T>(named: &Named<T>, home: &[u8], name: &[u8]) -> bool
    ensures { result ≡ same_con (member home.now name.now) (views.name_in named.now) }
{
    home == named.home.as_slice() && name == named.name.as_slice()
}

#[tactic(auto, using(crate::proofs::Naming::naming))]
fn looked_up<T: Copy>(names: &[Named<T>], home: &[u8], name: &[u8]) -> Option<T>
    ensures { result ≡ looked_up (member home.now name.now) (views.names_in views.itself names.now) }
{
    let mut left = names;
    while let Some((last, rest)) = left.split_last() {
        if is_named(last, home, name) {
            return Some(last.of);
        }
        left = rest;
    }
    None
}

/// What a name stands for as module `home` sees it: the latest of its own declarations, or that of another module.
#[tactic(auto, using(crate::proofs::Naming::naming))]
pub fn seen<T: Copy>(home: &[u8], names: &[Named<T>], key: &Key) -> Option<T>
    ensures { result ≡ seen home.now (views.key_in key.now) (views.names_in views.itself names.now) }
{
    match key {
        Key::Own(x) => looked_up(names, home, x),
        Key::Member(m, x) => {
            if *m == home {
                return None;
            }
            looked_up(names, m, x)
        }
    }
}

/// The name of a table, sequence or cookie as that of an expression.
pub fn key_of<'a>(name: &'a DeclName) -> Key<'a>
    ensures { views.key_in result ≡ name_of name.now }
{
    match &name.module {
        Some(m) => Key::Member(m.as_slice(), name.name.as_slice()),
        None => Key::Own(name.name.as_slice()),
    }
}

/// How a name is written.
pub fn key_text(alloc: Global, key: &Key) -> Result<Text, Memory>
    ensures { IfOk result (λ text. text ≡ name_text (views.key_in key.now).home (views.key_in key.now).name) }
{
    match key {
        Key::Own(x) => {
            let text = List::from_slice(alloc, x)?;
            Ok(text)
        }
        Key::Member(m, x) => member_text(alloc, m, x),
    }
}

fn member_text(alloc: Global, m: &[u8], x: &[u8]) -> Result<Text, Memory>
    ensures { IfOk result (λ text. text ≡ m.now ++ (codes "." ++ x.now)) }
{
    let mut text = List::from_slice(alloc, m)?;
    text.extend_from_slice(b".")?;
    text.extend_from_slice(x)?;
    Ok(text)
}
