//! The forms of what may be computed statically: projections, `--`, `++`, and static names.
ghost use Rattle.std.specs.Prelude.{◌≡◌, ◌||◌, ◌↔◌, IsTrue};
ghost use Rattle.ur_tree.specs.declared.exp.Exp.TheVariants as x;
ghost use Rattle.ur_tree.specs.declared.exp.Binary.TheVariants as binary;
ghost use Rattle.ur_meaning.specs.Form.{no_form};
ghost use Rattle.ur_source.specs.Items.{Scope, if_static, is_computed, only_where, static_in};
ghost use Rattle.ur_source.specs.Source.{source_of};
ghost use Rattle.ur_unfold_static.specs.Scopes.{MayBeAt};
ghost use Rattle.ur_unfold_pieces.specs.Forming.{FormedAs, OpensExp};
ghost use Rattle.ur_unfold_pieces.specs.Keys.{Gives};
ghost use Rattle.ur_unfold_pieces.specs.Moving.{Stays};
ghost use Rattle.ur_unfold_pieces.specs.Standing.{IsWhole, ScopeIs};
ghost use Rattle.ur_unfold_table.specs.Recording.{cut_value, project_value};

use crate::operators::binary_form;
use crate::parts::{boxed_one, nothing, one};
use std::alloc::Global;
use ur_base::Boxed;
use ur_meaning::{Halt, Head, Opened};
use ur_rows::Label;
use ur_terms::Op;
use ur_tree::{Binary, Exp};
use ur_unfold_pieces::{Opening, Piece, name_in, static_in};
use ur_unfold_static::names_static;

/// The form of what is its closed static expression, and has no form where it is not static.
pub fn static_form<'a>(
    alloc: Global,
    table: &mut Opening<'a>,
    scope: u32,
    e: &'a Exp,
) -> Result<Opened<Piece<'a>>, Halt>
    ensures form { (around : Scope) → ScopeIs table.old scope around → IsWhole table.old → FormedAs table.old table.new (if_static (static_in (source_of table.old.typed.now) around e.now) no_form) result }
    ensures stays { Stays table.old table.new }
{
    match static_in(alloc, table, scope, e)? {
        None => nothing(alloc),
        Some(number) => one(alloc, Head::Same, Piece::Closed(number)),
    }
}

/// What `e` is where it is static and one of its parts is computed statically.
fn computed_in<'a>(
    alloc: Global,
    table: &mut Opening<'a>,
    scope: u32,
    e: &'a Exp,
    is_computed: bool,
) -> Result<Option<u32>, Halt>
    ensures made { (around : Scope) → ScopeIs table.old scope around → IsWhole table.old → Gives (λ j. MayBeAt table.new.closing.statics j (only_where is_computed (static_in (source_of table.old.typed.now) around e.now))) result }
    ensures stays { Stays table.old table.new }
{
    if !is_computed {
        return Ok(None);
    }
    static_in(alloc, table, scope, e)
}

/// The form of a projection as a value.
fn value_project<'a>(
    alloc: Global,
    table: &Opening<'a>,
    scope: u32,
    a: &'a Boxed<Exp>,
    label: &Label,
) -> Result<Opened<Piece<'a>>, Halt>
    ensures { (around : Scope) → ScopeIs table.now scope around → IsWhole table.now → FormedAs table.now table.now (project_value (source_of table.now.typed.now) around a.now label.now) result }
{
    match name_in(table, scope, label)? {
        None => nothing(alloc),
        Some(name) => boxed_one(alloc, Head::Strict(Op::Project(name)), scope, a),
    }
}

/// The form of a record without a field as a value.
fn value_cut<'a>(
    alloc: Global,
    table: &Opening<'a>,
    scope: u32,
    a: &'a Boxed<Exp>,
    label: &Label,
) -> Result<Opened<Piece<'a>>, Halt>
    ensures { (around : Scope) → ScopeIs table.now scope around → IsWhole table.now → FormedAs table.now table.now (cut_value (source_of table.now.typed.now) around a.now label.now) result }
{
    match name_in(table, scope, label)? {
        None => nothing(alloc),
        Some(name) => boxed_one(alloc, Head::Strict(Op::Cut(name)), scope, a),
    }
}

/// The form of a projection `e` of `a`.
pub fn project_form<'a>(
    alloc: Global,
    table: &mut Opening<'a>,
    scope: u32,
    e: &'a Exp,
    a: &'a Boxed<Exp>,
    label: &Label,
) -> Result<Opened<Piece<'a>>, Halt>
    ensures form { e.now ≡ x.Project a.now label.now → OpensExp table.old table.new scope e.now result }
    ensures stays { Stays table.old table.new }
{
    let is_computed = names_static(a.get(), &table.typed.functions);
    match computed_in(alloc, table, scope, e, is_computed)? {
        Some(number) => one(alloc, Head::Same, Piece::Closed(number)),
        None => value_project(alloc, table, scope, a, label),
    }
}

/// The form of `e`, which is `a` without a field.
pub fn cut_form<'a>(
    alloc: Global,
    table: &mut Opening<'a>,
    scope: u32,
    e: &'a Exp,
    a: &'a Boxed<Exp>,
    label: &Label,
) -> Result<Opened<Piece<'a>>, Halt>
    ensures form { e.now ≡ x.Cut a.now label.now → OpensExp table.old table.new scope e.now result }
    ensures stays { Stays table.old table.new }
{
    let is_computed = names_static(a.get(), &table.typed.functions);
    match computed_in(alloc, table, scope, e, is_computed)? {
        Some(number) => one(alloc, Head::Same, Piece::Closed(number)),
        None => value_cut(alloc, table, scope, a, label),
    }
}

/// Whether a static name, or what is no value, stands in one of the operands.
fn is_one_computed(table: &Opening<'_>, a: &Boxed<Exp>, b: &Boxed<Exp>) -> bool
    ensures { result ≡ (is_computed (source_of table.now.typed.now) a.now || is_computed (source_of table.now.typed.now) b.now) }
{
    let functions = &table.typed.functions;
    if names_static(a.get(), functions) {
        return true;
    }
    names_static(b.get(), functions)
}

/// Whether an operator is `++` of records.
fn is_join(op: Binary) -> bool
    ensures { IsTrue result ↔ (op ≡ binary.Join) }
{
    op == Binary::Join
}

/// The form of an operator's `e`. Only `++` of records may be computed statically.
pub fn operator_form<'a>(
    alloc: Global,
    table: &mut Opening<'a>,
    scope: u32,
    e: &'a Exp,
    op: Binary,
    a: &'a Boxed<Exp>,
    b: &'a Boxed<Exp>,
) -> Result<Opened<Piece<'a>>, Halt>
    ensures form { e.now ≡ x.Binary op a.now b.now → OpensExp table.old table.new scope e.now result }
    ensures stays { Stays table.old table.new }
{
    if !is_join(op) {
        return binary_form(alloc, scope, op, a, b);
    }
    let is_computed = is_one_computed(table, a, b);
    match computed_in(alloc, table, scope, e, is_computed)? {
        Some(number) => one(alloc, Head::Same, Piece::Closed(number)),
        None => binary_form(alloc, scope, op, a, b),
    }
}
