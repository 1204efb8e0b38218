//! Forms over the name of a declaration, and XML with the code of its antiquotes.
ghost use Rattle.std.specs.Prelude.{◌≡◌, ◌++◌, ◌∷◌, [], IfOk};
ghost use Rattle.ur_parse_rules.specs.Places.{IfRefused};
ghost use Rattle.ur_parse_rules.specs.Expressions.{at};
ghost use Rattle.ur_syntax.specs.declared.exp.ExpForm.TheVariants as form;

use crate::form::made;
use std::alloc::Global;
use ur_base::{Boxed, List, Span, Stop};
use ur_parse_con::taller;
use ur_parse_rules::{Parsed, pushed};
use ur_syntax::{DeclName, Exp, ExpForm, Xml};

/// `nextval name`
pub fn nextval_of(
    alloc: Global,
    span: Span,
    name: DeclName,
    end: usize,
) -> Result<Parsed<Boxed<Exp>>, Stop>
    ensures found { IfOk result (λ p. (p.tree ≡ at span (form.Nextval name)) × (p.end ≡ end)) }
    ensures refused { IfRefused result (λ r. ⊥) }
{
    made(alloc, span, ExpForm::Nextval(name), end, 0)
}

/// `getCookie name`
pub fn get_cookie_of(
    alloc: Global,
    span: Span,
    name: DeclName,
    end: usize,
) -> Result<Parsed<Boxed<Exp>>, Stop>
    ensures found { IfOk result (λ p. (p.tree ≡ at span (form.GetCookie name)) × (p.end ≡ end)) }
    ensures refused { IfRefused result (λ r. ⊥) }
{
    made(alloc, span, ExpForm::GetCookie(name), end, 0)
}

/// `setCookie name value`
pub fn set_cookie_of(
    alloc: Global,
    span: Span,
    name: DeclName,
    value: Parsed<Boxed<Exp>>,
) -> Result<Parsed<Boxed<Exp>>, Stop>
    ensures found { IfOk result (λ p. (p.tree ≡ at span (form.SetCookie name value.tree)) × (p.end ≡ value.end)) }
    ensures refused { IfRefused result (λ r. ⊥) }
{
    let Parsed { tree, end, height } = value;
    made(alloc, span, ExpForm::SetCookie(name, tree), end, height)
}

/// A literal of XML with the code of its antiquotes and of its attributes, whose parts have a height.
pub fn xml_of(
    alloc: Global,
    span: Span,
    xml: Xml,
    exps: List<Exp>,
    attributes: List<Exp>,
    end: usize,
    height: usize,
) -> Result<Parsed<Boxed<Exp>>, Stop>
    ensures found { IfOk result (λ p. (p.tree ≡ at span (form.Xml xml exps attributes)) × (p.end ≡ end)) }
    ensures refused { IfRefused result (λ r. ⊥) }
{
    made(
        alloc,
        span,
        ExpForm::Xml(xml, exps, attributes),
        end,
        height,
    )
}

/// The code of an antiquote behind that of others.
pub fn with_code(
    exps: Parsed<List<Exp>>,
    code: Parsed<Boxed<Exp>>,
) -> Result<Parsed<List<Exp>>, Stop>
    ensures found { IfOk result (λ p. p.tree ≡ exps.tree ++ code.tree ∷ []) }
    ensures refused { IfRefused result (λ r. ⊥) }
{
    let Parsed {
        tree: mut list,
        end: _,
        height: low,
    } = exps;
    let Parsed {
        tree,
        end,
        height: high,
    } = code;
    pushed(&mut list, tree.into_inner())?;
    Ok(Parsed {
        tree: list,
        end,
        height: taller(low, high),
    })
}
