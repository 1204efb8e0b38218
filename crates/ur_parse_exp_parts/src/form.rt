//! The forms of expressions, made of their parts. Expressions stay in boxes: so readers hold them at little cost.
ghost use Rattle.std.specs.Prelude.{◌≡◌, IfOk};
ghost use Rattle.ur_parse_rules.specs.Places.{IfRefused};
ghost use Rattle.ur_parse_rules.specs.Expressions.{at};
ghost use Rattle.ur_syntax.specs.declared.exp.ExpForm.TheVariants as form;
ghost use Rattle.ur_parse_exp_parts.specs.Forms.{one_form, two_form};

use std::alloc::Global;
use ur_base::{Boxed, Span, Stop, Text};
use ur_parse_con::taller;
use ur_parse_rules::{Parsed, above, boxed};
use ur_syntax::{Binary, Con, Exp, ExpForm, FieldName, Removed};

/// A form with one expression in it.
#[derive(Clone, Copy)]
pub enum Single {
    Negative,
    Return,
    Show,
    Not,
    Error,
    Some,
}

/// A form with two expressions in it.
#[derive(Clone, Copy)]
pub enum Double {
    Binary(Binary),
    App,
}

/// An expression with its span, above parts of a height.
pub fn made(
    alloc: Global,
    span: Span,
    form: ExpForm,
    end: usize,
    parts: usize,
) -> Result<Parsed<Boxed<Exp>>, Stop>
    ensures found { IfOk result (λ p. (p.tree ≡ at span form) × (p.end ≡ end)) }
    ensures refused { IfRefused result (λ r. ⊥) }
{
    let tree = boxed(alloc, Exp { span, form })?;
    let height = above(parts, 0)?;
    Ok(Parsed { tree, end, height })
}

fn one_form(of: Single, inner: Boxed<Exp>) -> ExpForm
    ensures { result ≡ one_form of inner }
{
    match of {
        Single::Negative => ExpForm::Negative(inner),
        Single::Return => ExpForm::Return(inner),
        Single::Show => ExpForm::Show(inner),
        Single::Not => ExpForm::Not(inner),
        Single::Error => ExpForm::Error(inner),
        Single::Some => ExpForm::Some(inner),
    }
}

fn two_form(of: Double, left: Boxed<Exp>, right: Boxed<Exp>) -> ExpForm
    ensures { result ≡ two_form of left right }
{
    match of {
        Double::Binary(op) => ExpForm::Binary(op, left, right),
        Double::App => ExpForm::App(left, right),
    }
}

/// An expression with one in it.
pub fn with_one(
    alloc: Global,
    span: Span,
    of: Single,
    inner: Parsed<Boxed<Exp>>,
) -> Result<Parsed<Boxed<Exp>>, Stop>
    ensures found { IfOk result (λ p. (p.tree ≡ at span (one_form of inner.tree)) × (p.end ≡ inner.end)) }
    ensures refused { IfRefused result (λ r. ⊥) }
{
    let Parsed { tree, end, height } = inner;
    made(alloc, span, one_form(of, tree), end, height)
}

/// An expression with two in it.
pub fn with_two(
    alloc: Global,
    span: Span,
    of: Double,
    from: Parsed<Boxed<Exp>>,
    to: Parsed<Boxed<Exp>>,
) -> Result<Parsed<Boxed<Exp>>, Stop>
    ensures found { IfOk result (λ p. (p.tree ≡ at span (two_form of from.tree to.tree)) × (p.end ≡ to.end)) }
    ensures refused { IfRefused result (λ r. ⊥) }
{
    let Parsed {
        tree: left,
        end: _,
        height: low,
    } = from;
    let Parsed {
        tree: right,
        end,
        height: high,
    } = to;
    made(
        alloc,
        span,
        two_form(of, left, right),
        end,
        taller(low, high),
    )
}

/// `function [con]`, which ends at a place
pub fn con_applied(
    alloc: Global,
    span: Span,
    function: Parsed<Boxed<Exp>>,
    con: Parsed<Con>,
) -> Result<Parsed<Boxed<Exp>>, Stop>
    ensures found { IfOk result (λ p. (p.tree ≡ at span (form.ConApp function.tree con.tree)) × (p.end ≡ con.end)) }
    ensures refused { IfRefused result (λ r. ⊥) }
{
    let Parsed {
        tree: left,
        end: _,
        height: low,
    } = function;
    let Parsed {
        tree: right,
        end,
        height: high,
    } = con;
    made(
        alloc,
        span,
        ExpForm::ConApp(left, right),
        end,
        taller(low, high),
    )
}

/// The field of a record, whose name ends at a place.
pub fn project(
    alloc: Global,
    span: Span,
    base: Parsed<Boxed<Exp>>,
    name: FieldName,
    end: usize,
) -> Result<Parsed<Boxed<Exp>>, Stop>
    ensures found { IfOk result (λ p. (p.tree ≡ at span (form.Project base.tree name)) × (p.end ≡ end)) }
    ensures refused { IfRefused result (λ r. ⊥) }
{
    let Parsed {
        tree,
        end: _,
        height,
    } = base;
    made(alloc, span, ExpForm::Project(tree, name), end, height)
}

/// `left -- gone`, which ends at a place
pub fn removed(
    alloc: Global,
    span: Span,
    left: Parsed<Boxed<Exp>>,
    gone: Removed,
    end: usize,
) -> Result<Parsed<Boxed<Exp>>, Stop>
    ensures found { IfOk result (λ p. (p.tree ≡ at span (form.Remove left.tree gone)) × (p.end ≡ end)) }
    ensures refused { IfRefused result (λ r. ⊥) }
{
    let Parsed {
        tree,
        end: _,
        height,
    } = left;
    made(alloc, span, ExpForm::Remove(tree, gone), end, height)
}

/// A string.
pub fn string_of(
    alloc: Global,
    span: Span,
    text: Text,
    end: usize,
) -> Result<Parsed<Boxed<Exp>>, Stop>
    ensures found { IfOk result (λ p. (p.tree ≡ at span (form.Str text)) × (p.end ≡ end)) }
    ensures refused { IfRefused result (λ r. ⊥) }
{
    made(alloc, span, ExpForm::Str(text), end, 0)
}

/// An int.
pub fn int_of(
    alloc: Global,
    span: Span,
    number: u64,
    end: usize,
) -> Result<Parsed<Boxed<Exp>>, Stop>
    ensures found { IfOk result (λ p. (p.tree ≡ at span (form.Int number)) × (p.end ≡ end)) }
    ensures refused { IfRefused result (λ r. ⊥) }
{
    made(alloc, span, ExpForm::Int(number), end, 0)
}

/// A variable.
pub fn variable_of(
    alloc: Global,
    span: Span,
    name: Text,
    end: usize,
) -> Result<Parsed<Boxed<Exp>>, Stop>
    ensures found { IfOk result (λ p. (p.tree ≡ at span (form.Var name)) × (p.end ≡ end)) }
    ensures refused { IfRefused result (λ r. ⊥) }
{
    made(alloc, span, ExpForm::Var(name), end, 0)
}

/// A constructor of a datatype.
pub fn constructor_of(
    alloc: Global,
    span: Span,
    name: Text,
    end: usize,
) -> Result<Parsed<Boxed<Exp>>, Stop>
    ensures found { IfOk result (λ p. (p.tree ≡ at span (form.Constructor name)) × (p.end ≡ end)) }
    ensures refused { IfRefused result (λ r. ⊥) }
{
    made(alloc, span, ExpForm::Constructor(name), end, 0)
}

/// A value of a module.
pub fn member_of(
    alloc: Global,
    span: Span,
    outer: Text,
    name: Text,
    end: usize,
) -> Result<Parsed<Boxed<Exp>>, Stop>
    ensures found { IfOk result (λ p. (p.tree ≡ at span (form.Member outer name)) × (p.end ≡ end)) }
    ensures refused { IfRefused result (λ r. ⊥) }
{
    made(alloc, span, ExpForm::Member(outer, name), end, 0)
}

/// A constructor of a datatype of a module.
pub fn member_constructor_of(
    alloc: Global,
    span: Span,
    outer: Text,
    name: Text,
    end: usize,
) -> Result<Parsed<Boxed<Exp>>, Stop>
    ensures found { IfOk result (λ p. (p.tree ≡ at span (form.MemberConstructor outer name)) × (p.end ≡ end)) }
    ensures refused { IfRefused result (λ r. ⊥) }
{
    made(alloc, span, ExpForm::MemberConstructor(outer, name), end, 0)
}

/// `()`
pub fn unit_of(alloc: Global, span: Span, end: usize) -> Result<Parsed<Boxed<Exp>>, Stop>
    ensures found { IfOk result (λ p. (p.tree ≡ at span form.Unit) × (p.end ≡ end)) }
    ensures refused { IfRefused result (λ r. ⊥) }
{
    made(alloc, span, ExpForm::Unit, end, 0)
}

/// `[]`
pub fn nil_of(alloc: Global, span: Span, end: usize) -> Result<Parsed<Boxed<Exp>>, Stop>
    ensures found { IfOk result (λ p. (p.tree ≡ at span form.Nil) × (p.end ≡ end)) }
    ensures refused { IfRefused result (λ r. ⊥) }
{
    made(alloc, span, ExpForm::Nil, end, 0)
}
