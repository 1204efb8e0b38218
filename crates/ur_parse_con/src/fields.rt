//! The fields of rows and records.
ghost use Rattle.std.specs.Prelude.{◌≡◌, IfOk, drop, true, false, ◌+◌, []};
ghost use Rattle.ur_base.specs.Stopping.{Says};
ghost use Rattle.ur_lex.specs.declared.token.Symbol.TheVariants as symbol;
ghost use Rattle.ur_lex.specs.declared.token.TokenKind.TheVariants as token;
ghost use Rattle.ur_parse_rules.specs.Places.{IfRefused, IsAt, Other, OfKind, starts};
ghost use Rattle.ur_parse_rules.specs.Classes.{member};
ghost use Rattle.ur_parse_rules.specs.Ends.{con_more};
ghost use Rattle.ur_syntax.specs.declared.con.CField.TheVariants as cfield;

use crate::names::sees_argument;
use std::alloc::Global;
use ur_base::Stop;
use ur_lex::{Symbol, TokenKind, Tokens};
use ur_parse_rules::{Parsed, sees, unexpected};
use ur_syntax::{CField, Con, FieldName, RecordField};

/// Whether a constructor goes on at a place.
fn goes_on(tokens: &Tokens, at: usize) -> bool
    ensures { result ≡ starts (member (con_more false)) (drop at tokens.now) }
{
    if sees(tokens, at, TokenKind::Symbol(Symbol::Arrow)) {
        true
    } else if sees(tokens, at, TokenKind::Symbol(Symbol::DoublePlus)) {
        true
    } else {
        sees_argument(tokens, at, false)
    }
}

/// `name = con` in a row, behind which no other `=` stands.
pub fn given(
    alloc: Global,
    tokens: &Tokens,
    name: FieldName,
    value: Parsed<Con>,
) -> Result<Parsed<CField>, Stop>
    ensures found { IfOk result (λ p. (p.tree ≡ cfield.Given name value.tree) × (p.end ≡ value.end) × Other tokens.now value.end (OfKind (token.Symbol symbol.Eq))) }
    ensures refused { IfRefused result (λ r. Says r 5 [] [] × IsAt tokens.now value.end (value.end + 1) (OfKind (token.Symbol symbol.Eq))) }
{
    if sees(tokens, value.end, TokenKind::Symbol(Symbol::Eq)) {
        return Err(unexpected(alloc, tokens, value.end));
    }
    let Parsed { tree, end, height } = value;
    Ok(Parsed {
        tree: CField::Given(name, tree),
        end,
        height,
    })
}

/// `name` in a row, behind which no constructor goes on.
pub fn bare(
    alloc: Global,
    tokens: &Tokens,
    name: FieldName,
    end: usize,
) -> Result<Parsed<CField>, Stop>
    ensures found { IfOk result (λ p. (p.tree ≡ cfield.Bare name) × (p.end ≡ end) × (starts (member (con_more false)) (drop end tokens.now) ≡ false)) }
    ensures refused { IfRefused result (λ r. Says r 5 [] [] × (starts (member (con_more false)) (drop end tokens.now) ≡ true)) }
{
    if goes_on(tokens, end) {
        return Err(unexpected(alloc, tokens, end));
    }
    Ok(Parsed {
        tree: CField::Bare(name),
        end,
        height: 0,
    })
}

/// `name : con` in a record.
pub fn in_record(name: FieldName, value: Parsed<Con>) -> Parsed<RecordField>
    ensures tree { result.tree ≡ record { name = name; con = value.tree } }
    ensures end { result.end ≡ value.end }
{
    let Parsed { tree, end, height } = value;
    Parsed {
        tree: RecordField { name, con: tree },
        end,
        height,
    }
}
