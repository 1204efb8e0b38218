//! Lists of fields, values and branches with one more at the end.
ghost use Rattle.std.specs.Prelude.{◌≡◌, ◌++◌, ◌∷◌, [], IfOk};
ghost use Rattle.ur_parse_rules.specs.Places.{IfRefused};
ghost use Rattle.ur_parse_exp_parts.specs.Lists.{field, let_val, branch};

use crate::ended::{Line, inner};
use ur_base::{List, Span, Stop, Text};
use ur_parse_con::taller;
use ur_parse_rules::{Parsed, pushed};
use ur_syntax::{Branch, Con, Field, FieldName, LetVal, Pat};

/// `name = value` behind other fields
pub fn with_field(
    fields: Parsed<List<Field>>,
    name: FieldName,
    value: Parsed<Line>,
) -> Result<Parsed<List<Field>>, Stop>
    ensures found { IfOk result (λ p. (p.tree ≡ fields.tree ++ field name value.tree.exp ∷ []) × (p.end ≡ value.end)) }
    ensures refused { IfRefused result (λ r. ⊥) }
{
    let Parsed {
        tree: mut list,
        end: _,
        height: low,
    } = fields;
    let end = value.end;
    let Parsed {
        tree,
        end: _,
        height: high,
    } = inner(value, 0);
    pushed(
        &mut list,
        Field {
            name,
            value: tree.into_inner(),
        },
    )?;
    Ok(Parsed {
        tree: list,
        end,
        height: taller(low, high),
    })
}

/// `val name : con = value` behind other values
pub fn with_let_val(
    vals: Parsed<List<LetVal>>,
    span: Span,
    name: Text,
    con: Parsed<Con>,
    value: Parsed<Line>,
) -> Result<Parsed<List<LetVal>>, Stop>
    ensures found { IfOk result (λ p. (p.tree ≡ vals.tree ++ let_val span name con.tree value.tree.exp ∷ []) × (p.end ≡ value.end)) }
    ensures refused { IfRefused result (λ r. ⊥) }
{
    let Parsed {
        tree: mut list,
        end: _,
        height: low,
    } = vals;
    let Parsed {
        tree: of,
        end: _,
        height: middle,
    } = con;
    let end = value.end;
    let Parsed {
        tree,
        end: _,
        height: high,
    } = inner(value, 0);
    pushed(
        &mut list,
        LetVal {
            span,
            name,
            con: of,
            value: tree.into_inner(),
        },
    )?;
    Ok(Parsed {
        tree: list,
        end,
        height: taller(low, taller(middle, high)),
    })
}

/// `pat => body` behind other branches
pub fn with_branch(
    branches: Parsed<List<Branch>>,
    pat: Parsed<Pat>,
    body: Parsed<Line>,
) -> Result<Parsed<List<Branch>>, Stop>
    ensures found { IfOk result (λ p. (p.tree ≡ branches.tree ++ branch pat.tree body.tree.exp ∷ []) × (p.end ≡ body.end)) }
    ensures refused { IfRefused result (λ r. ⊥) }
{
    let Parsed {
        tree: mut list,
        end: _,
        height: low,
    } = branches;
    let Parsed {
        tree: of,
        end: _,
        height: middle,
    } = pat;
    let end = body.end;
    let Parsed {
        tree,
        end: _,
        height: high,
    } = inner(body, 0);
    pushed(
        &mut list,
        Branch {
            pat: of,
            body: tree.into_inner(),
        },
    )?;
    Ok(Parsed {
        tree: list,
        end,
        height: taller(low, taller(middle, high)),
    })
}
