//! The forms of parts of XML.
ghost use Rattle.std.specs.Prelude.{◌≡◌, ◌++◌, length};
ghost use Rattle.ur_terms.specs.declared.term.Op.TheVariants as op;
ghost use Rattle.ur_tree.specs.declared.exp.Markup.TheVariants as markup;
ghost use Rattle.ur_source.specs.Items.{Scope, has_unit, label_name, part as part_item, route_of};
ghost use Rattle.ur_meaning.specs.declared.head.Head.TheVariants as heads;
ghost use Rattle.ur_unfold_pieces.specs.Forming.{OpensItem};
ghost use Rattle.ur_unfold_pieces.specs.Keys.{Gives};
ghost use Rattle.ur_unfold_pieces.specs.Standing.{ScopeIs};
ghost use Rattle.ur_unfold_pieces.specs.Told.{exps_told, held_told, parts_told};
ghost use Rattle.ur_unfold_table.specs.Having.{OpenedBy, OpenedWith};
ghost use Rattle.ur_unfold_table.specs.Opened.{IsOpened};

use crate::parts::{held, kids, nothing, one, push_exps, push_held, push_markups};
use crate::routes::{has_unit, route_of};
use crate::shapes::shown_text_form;
use std::alloc::Global;
use ur_base::{Boxed, List, Name, Text};
use ur_meaning::{Halt, Head, Opened};
use ur_rows::Label;
use ur_tags::Handlers;
use ur_terms::Op;
use ur_tree::{Exp, Markup};
use ur_unfold_pieces::{Opening, Piece, name_in, text_in};
use ur_values::FieldKind;

/// The form of a part of XML.
pub fn part_form<'a>(
    alloc: Global,
    table: &Opening<'a>,
    scope: u32,
    part: &'a Markup,
) -> Result<Opened<Piece<'a>>, Halt>
    ensures { (around : Scope) → ScopeIs table.now scope around → OpensItem table.now table.now (part_item around part.now) result }
{
    let typed = table.typed;
    match part {
        Markup::Text(text) => shown_text_form(alloc, text),
        Markup::Shown(e) => one(alloc, Head::Strict(Op::Shown), Piece::Exp(scope, e)),
        Markup::Splice(e) => one(alloc, Head::Same, Piece::Exp(scope, e)),
        Markup::Element(tag, parts) => kids(alloc, Head::Strict(Op::Element(*tag)), scope, parts),
        Markup::Link(k, args, parts) => link_form(alloc, &typed.targets, scope, *k, args, parts),
        Markup::Input(kind, label, e) => input_form(alloc, table, scope, *kind, label, e),
        Markup::Submit(k, args, e) => {
            submit_form(alloc, &typed.targets, &typed.handlers, scope, *k, args, e)
        }
    }
}

/// The form of a link, which evaluates the arguments of its target and calls nothing.
fn link_form<'a>(
    alloc: Global,
    targets: &List<u32>,
    scope: u32,
    k: u32,
    args: &'a List<Exp>,
    children: &'a List<Markup>,
) -> Result<Opened<Piece<'a>>, Halt>
    ensures { OpenedWith (route_of targets.now k) (λ r. op.Link r (length args.now)) (exps_told scope args.now ++ parts_told scope children.now) result }
{
    match route_of(targets, k)? {
        None => nothing(alloc),
        Some(route) => link(alloc, scope, route, args, children),
    }
}

fn link<'a>(
    alloc: Global,
    scope: u32,
    route: u32,
    args: &'a List<Exp>,
    children: &'a List<Markup>,
) -> Result<Opened<Piece<'a>>, Halt>
    ensures { IsOpened (heads.Strict (op.Link route (length args.now))) (exps_told scope args.now ++ parts_told scope children.now) result }
{
    let count = count_of(args)?;
    let mut parts = List::new(alloc);
    push_exps(&mut parts, scope, args)?;
    push_markups(&mut parts, scope, children)?;
    let head = Head::Strict(Op::Link { route, args: count });
    Ok(Opened { head, parts })
}

fn count_of(args: &List<Exp>) -> Result<u32, Halt>
    ensures { Gives (λ n. n ≡ length args.now) result }
{
    let count = args.len();
    if count > u32::MAX as usize {
        return Err(Halt::Memory);
    }
    Ok(count as u32)
}

/// The form of a submit button.
fn submit_form<'a>(
    alloc: Global,
    targets: &List<u32>,
    handlers: &Handlers,
    scope: u32,
    k: u32,
    args: &'a List<Exp>,
    label: &'a Option<Boxed<Exp>>,
) -> Result<Opened<Piece<'a>>, Halt>
    ensures { OpenedBy (route_of targets.now k) (λ r. OpenedWith (has_unit handlers.now r (length args.now)) (op.Submit r (length args.now)) (exps_told scope args.now ++ held_told scope label.now)) result }
{
    match route_of(targets, k)? {
        None => nothing(alloc),
        Some(route) => button_form(alloc, handlers, scope, route, args, label),
    }
}

fn button_form<'a>(
    alloc: Global,
    handlers: &Handlers,
    scope: u32,
    route: u32,
    args: &'a List<Exp>,
    label: &'a Option<Boxed<Exp>>,
) -> Result<Opened<Piece<'a>>, Halt>
    ensures { OpenedWith (has_unit handlers.now route (length args.now)) (op.Submit route (length args.now)) (exps_told scope args.now ++ held_told scope label.now) result }
{
    let count = count_of(args)?;
    match has_unit(handlers, route, count) {
        None => nothing(alloc),
        Some(unit) => {
            let op = Op::Submit {
                route,
                args: count,
                unit,
            };
            button(alloc, op, scope, args, label)
        }
    }
}

fn button<'a>(
    alloc: Global,
    op: Op,
    scope: u32,
    args: &'a List<Exp>,
    label: &'a Option<Boxed<Exp>>,
) -> Result<Opened<Piece<'a>>, Halt>
    ensures { IsOpened (heads.Strict op) (exps_told scope args.now ++ held_told scope label.now) result }
{
    let mut parts = List::new(alloc);
    push_exps(&mut parts, scope, args)?;
    push_held(&mut parts, scope, label)?;
    Ok(Opened {
        head: Head::Strict(op),
        parts,
    })
}

/// The form of a form's field.
fn input_form<'a>(
    alloc: Global,
    table: &Opening<'a>,
    scope: u32,
    kind: FieldKind,
    label: &Label,
    e: &'a Option<Boxed<Exp>>,
) -> Result<Opened<Piece<'a>>, Halt>
    ensures { (around : Scope) → ScopeIs table.now scope around → OpensItem table.now table.now (part_item around (markup.Input kind label.now e.now)) result }
{
    let named = label_name(alloc, table, scope, label)?;
    named_input(alloc, scope, kind, named, e)
}

fn named_input<'a>(
    alloc: Global,
    scope: u32,
    kind: FieldKind,
    named: Option<(Name, Text)>,
    e: &'a Option<Boxed<Exp>>,
) -> Result<Opened<Piece<'a>>, Halt>
    ensures { OpenedWith named (λ n. op.Input kind n.0 n.1) (held_told scope e.now) result }
{
    match named {
        None => nothing(alloc),
        Some((name, text)) => {
            let op = Op::Input { kind, name, text };
            held(alloc, Head::Strict(op), scope, e)
        }
    }
}

/// The number and text of the name that a label stands for.
fn label_name(
    alloc: Global,
    table: &Opening<'_>,
    scope: u32,
    label: &Label,
) -> Result<Option<(Name, Text)>, Halt>
    ensures { (around : Scope) → ScopeIs table.now scope around → Gives (λ n. n ≡ label_name table.now.typed.now.names around.cons label.now) result }
{
    match name_in(table, scope, label)? {
        None => Ok(None),
        Some(name) => match text_in(alloc, table, scope, label)? {
            None => Ok(None),
            Some(text) => Ok(Some((name, text))),
        },
    }
}
