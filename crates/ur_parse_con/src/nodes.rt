//! The forms of constructors, made of their parts.
ghost use Rattle.std.specs.Prelude.{◌≡◌, IfOk};
ghost use Rattle.ur_parse_rules.specs.Places.{IfRefused};
ghost use Rattle.ur_syntax.specs.declared.con.ConForm.TheVariants as form;

use std::alloc::Global;
use ur_base::{List, Span, Stop, Text};
use ur_parse_rules::{Parsed, above, boxed};
use ur_syntax::{CField, Con, ConForm, Kind, RecordField};

/// A constructor without parts that are constructors.
pub fn leaf(span: Span, form: ConForm, end: usize) -> Parsed<Con>
    ensures tree { result.tree ≡ record { span = span; form = form } }
    ensures end { result.end ≡ end }
{
    Parsed {
        tree: Con { span, form },
        end,
        height: 1,
    }
}

/// The same tree with another end.
pub fn ending(inner: Parsed<Con>, end: usize) -> Parsed<Con>
    ensures tree { result.tree ≡ inner.tree }
    ensures end { result.end ≡ end }
{
    let Parsed {
        tree,
        end: _,
        height,
    } = inner;
    Parsed { tree, end, height }
}

/// `fn name :: kind => body`
pub fn lambda(
    alloc: Global,
    span: Span,
    name: Text,
    kind: Parsed<Kind>,
    body: Parsed<Con>,
) -> Result<Parsed<Con>, Stop>
    ensures found { IfOk result (λ p. (p.tree ≡ record { span = span; form = form.Lambda name kind.tree body.tree }) × (p.end ≡ body.end)) }
    ensures refused { IfRefused result (λ r. ⊥) }
{
    let Parsed {
        tree: of,
        end: _,
        height: low,
    } = kind;
    let Parsed {
        tree: inner,
        end,
        height: high,
    } = body;
    let height = above(low, high)?;
    let inner = boxed(alloc, inner)?;
    Ok(Parsed {
        tree: Con {
            span,
            form: ConForm::Lambda(name, of, inner),
        },
        end,
        height,
    })
}

/// `$row`
pub fn record_of(alloc: Global, span: Span, row: Parsed<Con>) -> Result<Parsed<Con>, Stop>
    ensures found { IfOk result (λ p. (p.tree ≡ record { span = span; form = form.RecordOf row.tree }) × (p.end ≡ row.end)) }
    ensures refused { IfRefused result (λ r. ⊥) }
{
    let Parsed {
        tree: inner,
        end,
        height,
    } = row;
    let height = above(height, 0)?;
    let inner = boxed(alloc, inner)?;
    Ok(Parsed {
        tree: Con {
            span,
            form: ConForm::RecordOf(inner),
        },
        end,
        height,
    })
}

/// `[fields]`
pub fn row_of(span: Span, fields: Parsed<List<CField>>) -> Result<Parsed<Con>, Stop>
    ensures found { IfOk result (λ p. (p.tree ≡ record { span = span; form = form.Row fields.tree }) × (p.end ≡ fields.end)) }
    ensures refused { IfRefused result (λ r. ⊥) }
{
    let Parsed { tree, end, height } = fields;
    let height = above(height, 0)?;
    Ok(Parsed {
        tree: Con {
            span,
            form: ConForm::Row(tree),
        },
        end,
        height,
    })
}

/// `{fields}`
pub fn record_of_fields(span: Span, fields: Parsed<List<RecordField>>) -> Result<Parsed<Con>, Stop>
    ensures found { IfOk result (λ p. (p.tree ≡ record { span = span; form = form.Record fields.tree }) × (p.end ≡ fields.end)) }
    ensures refused { IfRefused result (λ r. ⊥) }
{
    let Parsed { tree, end, height } = fields;
    let height = above(height, 0)?;
    Ok(Parsed {
        tree: Con {
            span,
            form: ConForm::Record(tree),
        },
        end,
        height,
    })
}
