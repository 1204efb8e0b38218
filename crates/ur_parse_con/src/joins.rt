//! Constructors joined to one another.
ghost use Rattle.std.specs.Prelude.{◌≡◌, IfOk};
ghost use Rattle.ur_parse_rules.specs.Places.{IfRefused};
ghost use Rattle.ur_parse_rules.specs.Forms.{up_to};
ghost use Rattle.ur_parse_con.specs.Joins.{joined_form, chained};

use std::alloc::Global;
use ur_base::{Boxed, List, Span, Stop};
use ur_parse_rules::{Parsed, above, boxed};
use ur_syntax::{Con, ConForm};

/// What two constructors are joined by.
#[derive(Clone, Copy)]
pub enum Join {
    Arrow,
    Concat,
    App,
}

fn joined_form(join: Join, left: Boxed<Con>, right: Boxed<Con>) -> ConForm
    ensures { result ≡ joined_form join left right }
{
    match join {
        Join::Arrow => ConForm::Arrow(left, right),
        Join::Concat => ConForm::Concat(left, right),
        Join::App => ConForm::App(left, right),
    }
}

/// Two constructors joined.
pub fn joined(
    alloc: Global,
    span: Span,
    join: Join,
    from: Parsed<Con>,
    to: Parsed<Con>,
) -> Result<Parsed<Con>, Stop>
    ensures found { IfOk result (λ p. (p.tree ≡ record { span = span; form = joined_form join from.tree to.tree }) × (p.end ≡ to.end)) }
    ensures refused { IfRefused result (λ r. ⊥) }
{
    let Parsed {
        tree: left,
        end: _,
        height: low,
    } = from;
    let Parsed {
        tree: right,
        end,
        height: high,
    } = to;
    let height = above(low, high)?;
    let left = boxed(alloc, left)?;
    let right = boxed(alloc, right)?;
    Ok(Parsed {
        tree: Con {
            span,
            form: joined_form(join, left, right),
        },
        end,
        height,
    })
}

/// A constructor with the span of its tokens, its parentheses among them.
#[derive(Drop)]
pub struct Piece {
    pub span: Span,
    pub con: Con,
}

/// Constructors joined to what stands behind each, the last of which covers a span.
pub fn chained(
    alloc: Global,
    join: Join,
    mut left: List<Piece>,
    covered: Span,
    last: Parsed<Con>,
    tallest: usize,
) -> Result<Parsed<Con>, Stop>
    ensures found { IfOk result (λ p. (p.tree ≡ chained join left covered last.tree) × (p.end ≡ last.end)) }
    ensures refused { IfRefused result (λ r. ⊥) }
{
    let Parsed {
        tree: mut right,
        end,
        mut height,
    } = last;
    'pieces: while let Some(piece) = left.pop() {
        height = above(tallest, height)?;
        right = tied(alloc, join, piece, covered, right)?;
    }
    Ok(Parsed {
        tree: right,
        end,
        height,
    })
}

/// A constructor joined to what stands behind it, up to where a span ends.
fn tied(alloc: Global, join: Join, left: Piece, covered: Span, right: Con) -> Result<Con, Stop>
    ensures found { IfOk result (λ c. c ≡ record { span = up_to left.span covered; form = joined_form join left.con right }) }
    ensures refused { IfRefused result (λ r. ⊥) }
{
    let Piece { span, con } = left;
    let span = Span {
        file: span.file,
        from: span.from,
        to: covered.to,
    };
    let from = boxed(alloc, con)?;
    let to = boxed(alloc, right)?;
    Ok(Con {
        span,
        form: joined_form(join, from, to),
    })
}
