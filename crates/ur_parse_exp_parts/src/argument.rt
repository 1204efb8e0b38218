//! Arguments.
ghost use Rattle.std.specs.Prelude.{◌≡◌, IfOk};
ghost use Rattle.ur_parse_rules.specs.Places.{IfRefused};
ghost use Rattle.ur_parse_rules.specs.Parts.{value, type};
ghost use Rattle.ur_parse_rules.specs.Expressions.{apply_to};
ghost use Rattle.ur_parse_exp_parts.specs.Arguments.{given_of};

use crate::form::{Double, con_applied, with_two};
use std::alloc::Global;
use ur_base::{Boxed, Span, Stop};
use ur_parse_rules::Parsed;
use ur_syntax::{Con, Exp};

/// An argument: an expression, or a constructor in brackets.
#[derive(Drop)]
pub enum Given {
    Value(Boxed<Exp>),
    Type(Con),
}

/// An expression as an argument.
pub fn as_value(exp: Parsed<Boxed<Exp>>) -> Parsed<Given>
    ensures tree { given_of result.tree ≡ value exp.tree }
    ensures end { result.end ≡ exp.end }
{
    let Parsed { tree, end, height } = exp;
    Parsed {
        tree: Given::Value(tree),
        end,
        height,
    }
}

/// A constructor as an argument, whose bracket ends at a place.
pub fn as_type(con: Parsed<Con>, end: usize) -> Parsed<Given>
    ensures tree { given_of result.tree ≡ type con.tree }
    ensures end { result.end ≡ end }
{
    let Parsed {
        tree,
        end: _,
        height,
    } = con;
    Parsed {
        tree: Given::Type(tree),
        end,
        height,
    }
}

/// A function applied to an argument.
pub fn apply(
    alloc: Global,
    covered: Span,
    function: Parsed<Boxed<Exp>>,
    argument: Parsed<Given>,
) -> Result<Parsed<Boxed<Exp>>, Stop>
    ensures found { IfOk result (λ p. (p.tree ≡ apply_to covered function.tree (given_of argument.tree)) × (p.end ≡ argument.end)) }
    ensures refused { IfRefused result (λ r. ⊥) }
{
    let Parsed { tree, end, height } = argument;
    match tree {
        Given::Value(value) => with_two(
            alloc,
            covered,
            Double::App,
            function,
            Parsed {
                tree: value,
                end,
                height,
            },
        ),
        Given::Type(con) => con_applied(
            alloc,
            covered,
            function,
            Parsed {
                tree: con,
                end,
                height,
            },
        ),
    }
}
