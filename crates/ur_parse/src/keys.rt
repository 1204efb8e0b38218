//! The keys of a table.
ghost use Rattle.std.specs.Prelude.{◌≡◌, ℕ, IfOk, OnOk, Some, None, ◌∷◌, ◌++◌};
ghost use Rattle.ur_parse_rules.specs.Places.{Moves, Reads, Refuses, IfRefused, span_of};
ghost use Rattle.ur_parse_rules.specs.DeclParts.{keys, key_columns, constraint_head, constraint_name};
ghost use Rattle.ur_parse_rules.specs.Forms.{up_to};
ghost use Rattle.ur_parse_rules.specs.Parts.{of_decl};
ghost use Rattle.ur_parse_rules.specs.Language.{language};
ghost use Rattle.ur_parse_con.specs.Forms.{Stays};
ghost use Rattle.ur_parse.specs.Tables.{KeysRead, keyed};

use crate::columns::{Columns, read_columns};
use std::alloc::Global;
use ur_base::{List, Span, Stop, Text};
use ur_lex::{Symbol, TokenKind, Tokens};
use ur_parse_rules::{expect_name, expect_word, pushed, sees, sees_word, span};
use ur_syntax::Constraint;

/// The keys of a table, and the place behind them.
#[derive(Drop)]
pub struct Keys {
    pub primary: Option<List<Text>>,
    pub constraints: List<Constraint>,
    pub end: usize,
}

/// The columns of a key with the constraints behind them.
#[derive(Drop)]
struct Keyed {
    columns: List<Text>,
    last: Span,
    constraints: List<Constraint>,
    end: usize,
}

/// The keys that stand at a place, if any do.
pub fn read_keys(alloc: Global, tokens: &Tokens, at: usize) -> Result<Keys, Stop>
    ensures stays { IfOk result (λ k. Stays tokens.now at k.end) }
    ensures found { IfOk result (λ k. (n : ℕ) → KeysRead n tokens.now at k.end (record { primary = k.primary; constraints = k.constraints })) }
    ensures refused { IfRefused result (λ r. (n : ℕ) → Refuses language n tokens.now at (of_decl keys) r) }
{
    if sees_word(tokens, at, TokenKind::Upper, b"PRIMARY") {
        let begin = expect_word(alloc, tokens, at + 1, TokenKind::Upper, b"KEY")?;
        let columns = key_columns(alloc, tokens, begin)?;
        Ok(primary(columns))
    } else if sees_word(tokens, at, TokenKind::Upper, b"CONSTRAINT") {
        let (name, begin) = constraint_head(alloc, tokens, at)?;
        let head = span(tokens, at, begin);
        let columns = key_columns(alloc, tokens, begin)?;
        let made = unique(alloc, head, name, columns)?;
        Ok(made)
    } else {
        Ok(Keys {
            primary: None,
            constraints: List::new(alloc),
            end: at,
        })
    }
}

/// The keys that begin with a PRIMARY KEY.
fn primary(columns: Keyed) -> Keys
    ensures primary { result.primary ≡ Some columns.columns }
    ensures constraints { result.constraints ≡ columns.constraints }
    ensures end { result.end ≡ columns.end }
{
    let Keyed {
        columns,
        last: _,
        constraints,
        end,
    } = columns;
    Keys {
        primary: Some(columns),
        constraints,
        end,
    }
}

/// The keys that begin with a constraint.
fn unique(alloc: Global, head: Span, name: Text, columns: Keyed) -> Result<Keys, Stop>
    ensures primary { IfOk result (λ k. k.primary ≡ None) }
    ensures constraints { IfOk result (λ k. k.constraints ≡ record { span = up_to head columns.last; name = name; columns = columns.columns } ∷ columns.constraints) }
    ensures end { IfOk result (λ k. k.end ≡ columns.end) }
    ensures refused { IfRefused result (λ r. ⊥) }
{
    let Keyed {
        columns,
        last,
        constraints: behind,
        end,
    } = columns;
    let first = constraint(head, name, columns, last);
    let mut constraints: List<Constraint> = List::new(alloc);
    pushed(&mut constraints, first)?;
    appended(&mut constraints, behind)?;
    Ok(Keys {
        primary: None,
        constraints,
        end,
    })
}

/// Puts the elements of a list at the end of another.
fn appended<T: Drop>(list: &mut List<T>, more: List<T>) -> Result<(), Stop>
    ensures found { OnOk result (list.new ≡ list.old ++ more) }
    ensures refused { IfRefused result (λ r. ⊥) }
{
    match list.append(more) {
        Ok(()) => Ok(()),
        Err(_) => Err(Stop::Memory),
    }
}

/// A constraint from the span of its first words to that where its columns end.
fn constraint(head: Span, name: Text, columns: List<Text>, last: Span) -> Constraint
    ensures { result ≡ record { span = up_to head last; name = name; columns = columns } }
{
    Constraint {
        span: Span {
            file: head.file,
            from: head.from,
            to: last.to,
        },
        name,
        columns,
    }
}

/// `CONSTRAINT name UNIQUE`
fn constraint_head(alloc: Global, tokens: &Tokens, at: usize) -> Result<(Text, usize), Stop>
    ensures moves { IfOk result (λ p. Moves tokens.now at p.1) }
    ensures found { IfOk result (λ p. (n : ℕ) → Reads language n tokens.now at p.1 (of_decl constraint_head) (record { span = span_of tokens.now at p.1; text = p.0 })) }
    ensures refused { IfRefused result (λ r. (n : ℕ) → Refuses language n tokens.now at (of_decl constraint_head) r) }
{
    let begin = expect_word(alloc, tokens, at, TokenKind::Upper, b"CONSTRAINT")?;
    let (name, behind) = constraint_name(alloc, tokens, begin)?;
    let end = expect_word(alloc, tokens, behind, TokenKind::Upper, b"UNIQUE")?;
    Ok((name, end))
}

fn constraint_name(alloc: Global, tokens: &Tokens, at: usize) -> Result<(Text, usize), Stop>
    ensures moves { IfOk result (λ p. Moves tokens.now at p.1) }
    ensures found { IfOk result (λ p. (n : ℕ) → Reads language n tokens.now at p.1 (of_decl constraint_name) p.0) }
    ensures refused { IfRefused result (λ r. (n : ℕ) → Refuses language n tokens.now at (of_decl constraint_name) r) }
{
    if sees(tokens, at, TokenKind::Lower) {
        let (name, end) = expect_name(alloc, tokens, at, TokenKind::Lower)?;
        Ok((name, end))
    } else {
        let (name, end) = expect_name(alloc, tokens, at, TokenKind::Upper)?;
        Ok((name, end))
    }
}

/// The columns of a key, and the constraints behind them, each behind a comma.
fn key_columns(alloc: Global, tokens: &Tokens, at: usize) -> Result<Keyed, Stop>
    ensures moves { IfOk result (λ k. Moves tokens.now at k.end) }
    ensures found { IfOk result (λ k. (n : ℕ) → Reads language n tokens.now at k.end (of_decl key_columns) (keyed k.columns k.last k.constraints)) }
    ensures refused { IfRefused result (λ r. (n : ℕ) → Refuses language n tokens.now at (of_decl key_columns) r) }
{
    let Columns {
        names: columns,
        last,
        mut end,
    } = read_columns(alloc, tokens, at)?;
    let mut constraints: List<Constraint> = List::new(alloc);
    'commas: while sees(tokens, end, TokenKind::Symbol(Symbol::Comma)) {
        let begin = end + 1;
        let (name, mid) = constraint_head(alloc, tokens, begin)?;
        let head = span(tokens, begin, mid);
        let next = read_columns(alloc, tokens, mid)?;
        end = next.end;
        pushed(
            &mut constraints,
            constraint(head, name, next.names, next.last),
        )?;
    }
    Ok(Keyed {
        columns,
        last,
        constraints,
        end,
    })
}
