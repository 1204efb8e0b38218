//! The constructors and functions in scope, with their kinds.
ghost use Rattle.std.specs.Prelude.{◌≡◌, [], ◌∷◌, ◌++◌, OnOk, IfOk, Some, None, take};
ghost use Rattle.std.specs.Option.{option_copied};
ghost use Rattle.ur_syntax.specs.Names.{same_module, same_con, looked_up};
ghost use Rattle.ur_kinds.specs.Acts.{act_of, kinds_of, close_scope};
ghost use Rattle.ur_kinds.specs.KindedFaults.{after, entry, in_env, value, named_after, kinds_known};
ghost use Rattle.ur_kinds.specs.Keys.{key_of};

use crate::event::Event;
use crate::log::copy;
use std::alloc::Global;
use ur_base::{List, Memory, Text};
use ur_syntax::{ConEntry, ConEnv, ConMeaning, ConName, ConParam, Kind, copy_kind};

/// A variable, or a function with the kinds of its constructor parameters.
#[derive(Drop)]
pub struct Value {
    pub name: ConName,
    pub kinds: List<Kind>,
}

/// How many constructors and values were in scope where a scope begins.
#[derive(Clone, Copy)]
pub struct Frame {
    pub entries: usize,
    pub values: usize,
}

#[derive(Drop)]
pub struct State {
    pub env: ConEnv,
    pub values: List<Value>,
    pub frames: List<Frame>,
}

/// A name as it is written: `x` or `M.x`.
#[derive(Clone, Copy)]
pub enum Key<'a> {
    Own(&'a Text),
    Member(&'a Text, &'a Text),
}

fn is_home(home: &Option<Text>, m: &Text) -> bool
    ensures { result ≡ same_module (Some m.now) home.now }
{
    match home {
        Some(n) => m.as_slice() == n.as_slice(),
        None => false,
    }
}

fn is_value(key: &Key, name: &ConName) -> bool
    ensures { result ≡ same_con (key_of key.now) name.now }
{
    match key {
        Key::Own(x) => name.home.is_none() && x.as_slice() == name.name.as_slice(),
        Key::Member(m, x) => is_home(&name.home, m) && x.as_slice() == name.name.as_slice(),
    }
}

/// The kinds of the latest value of that name.
fn latest<'a>(values: &'a [Value], key: &Key) -> Option<&'a List<Kind>>
    ensures { option_copied result ≡ looked_up (key_of key.now) (named_after [] values.now) }
{
    let count = values.len();
    for i in 0..count {
        let value = &values[count - 1 - i];
        if is_value(key, &value.name) {
            return Some(&value.kinds);
        }
    }
    None
}

/// The kinds of the constructor parameters of a name in scope.
pub fn seen<'a>(state: &'a State, key: &Key) -> Option<&'a List<Kind>>
    ensures { option_copied result ≡ kinds_known (key_of key.now) state.now }
{
    let values = state.values.as_slice();
    match key {
        Key::Own(x) => match latest(values, key) {
            Some(kinds) => Some(kinds),
            None => latest(values, &Key::Member(&state.env.home, x)),
        },
        Key::Member(m, _) => {
            if m.as_slice() == state.env.home.as_slice() {
                return None;
            }
            latest(values, key)
        }
    }
}

fn kinds_of(alloc: Global, params: &[ConParam]) -> Result<List<Kind>, Memory>
    ensures { IfOk result (λ kinds. kinds ≡ kinds_of params.now) }
{
    let mut kinds = List::new(alloc);
    for param in params {
        add_kind(alloc, &mut kinds, param)?;
    }
    Ok(kinds)
}

fn add_kind(alloc: Global, kinds: &mut List<Kind>, param: &ConParam) -> Result<(), Memory>
    ensures { OnOk result (kinds.new ≡ kinds.old ++ kinds_of (param.now ∷ [])) }
{
    match param {
        ConParam::Kinded(_, kind) => {
            let kind = copy_kind(alloc, kind)?;
            kinds.push(kind)?;
            Ok(())
        }
        ConParam::Disjoint(_, _) => Ok(()),
    }
}

/// Puts a constructor behind the others: one of a module, or a variable.
fn add_entry(
    alloc: Global,
    entries: &mut List<ConEntry>,
    home: Option<&Text>,
    x: &Text,
    kind: Kind,
) -> Result<(), Memory>
    ensures { OnOk result (entries.new ≡ entries.old ++ entry (option_copied home.entry) x.now kind ∷ []) }
{
    let home = copy_home(alloc, home)?;
    let name = copy(alloc, x)?;
    let name = ConName { home, name };
    entries.push(ConEntry {
        name,
        kind,
        meaning: ConMeaning::Variable,
    })?;
    Ok(())
}

fn add_value(
    alloc: Global,
    values: &mut List<Value>,
    home: Option<&Text>,
    x: &Text,
    kinds: List<Kind>,
) -> Result<(), Memory>
    ensures { OnOk result (values.new ≡ values.old ++ value (option_copied home.entry) x.now kinds ∷ []) }
{
    let home = copy_home(alloc, home)?;
    let name = copy(alloc, x)?;
    let name = ConName { home, name };
    values.push(Value { name, kinds })?;
    Ok(())
}

fn copy_home(alloc: Global, home: Option<&Text>) -> Result<Option<Text>, Memory>
    ensures { IfOk result (λ m. m ≡ option_copied home.entry) }
{
    match home {
        None => Ok(None),
        Some(m) => {
            let m = copy(alloc, m)?;
            Ok(Some(m))
        }
    }
}

/// Takes away what stands from a number on.
fn cut<T: Drop>(items: &mut List<T>, count: usize)
    ensures { items.new ≡ take count items.old }
{
    while items.len() > count {
        items.pop();
    }
}

fn close(state: &mut State)
    ensures { state.new ≡ after state.old close_scope }
{
    match state.frames.pop() {
        Some(frame) => {
            cut(&mut state.env.entries, frame.entries);
            cut(&mut state.values, frame.values);
        }
        None => {}
    }
}

/// The scope behind an event.
pub fn step(alloc: Global, state: &mut State, event: &Event) -> Result<(), Memory>
    ensures { OnOk result (state.new ≡ after state.old (act_of event.now)) }
{
    match event {
        Event::Open => {
            let entries = state.env.entries.len();
            let values = state.values.len();
            state.frames.push(Frame { entries, values })?;
            Ok(())
        }
        Event::Close => {
            close(state);
            Ok(())
        }
        Event::Enter(m) => {
            state.env.home = copy(alloc, m)?;
            state.frames = List::new(alloc);
            Ok(())
        }
        Event::Variable(x, kind) => {
            let kind = copy_kind(alloc, kind)?;
            add_entry(alloc, &mut state.env.entries, None, x, kind)?;
            Ok(())
        }
        Event::Defined(x, kind) => {
            let kind = copy_kind(alloc, kind)?;
            defined(alloc, &mut state.env, x, kind)?;
            Ok(())
        }
        Event::Named(x) => {
            defined(alloc, &mut state.env, x, Kind::Star)?;
            Ok(())
        }
        Event::Local(x) => {
            add_value(alloc, &mut state.values, None, x, List::new(alloc))?;
            Ok(())
        }
        Event::Val(x) => {
            let home = copy(alloc, &state.env.home)?;
            add_value(alloc, &mut state.values, Some(&home), x, List::new(alloc))?;
            Ok(())
        }
        Event::Function(x, params) => {
            let kinds = kinds_of(alloc, params.as_slice())?;
            let home = copy(alloc, &state.env.home)?;
            add_value(alloc, &mut state.values, Some(&home), x, kinds)?;
            Ok(())
        }
        _ => Ok(()),
    }
}

/// Puts a constructor of the module behind the others.
fn defined(alloc: Global, env: &mut ConEnv, x: &Text, kind: Kind) -> Result<(), Memory>
    ensures { OnOk result (env.new ≡ in_env env.old (env.old.entries ++ entry (Some env.old.home) x.now kind ∷ [])) }
{
    let home = copy(alloc, &env.home)?;
    add_entry(alloc, &mut env.entries, Some(&home), x, kind)?;
    Ok(())
}
