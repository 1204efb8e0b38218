//! Operators at a place.
ghost use Rattle.std.specs.Prelude.{◌≡◌};
ghost use Rattle.ur_parse_con.specs.Operators.{sign, append_sign, sum_sign, product_sign, disjunction_sign, conjunction_sign, sign_of, compared, comparison_of, SignAt, ComparisonAt};

use ur_lex::{Symbol, TokenKind, Tokens};
use ur_parse_rules::peek;
use ur_syntax::Binary;

/// The operators that group to the left, from loose to tight: `||`, `&&`, then `^`, `++` and `--`, then `+` and `-`,
/// then `*`, `/` and `%`.
#[derive(Clone, Copy)]
pub enum Level {
    Disjunction,
    Conjunction,
    Append,
    Sum,
    Product,
}

/// An operator that groups to the left. Behind `--` stands the name of a field.
#[derive(Clone, Copy)]
pub enum Sign {
    Infix(Binary),
    Remove,
}

fn append_sign(symbol: Symbol) -> Option<Sign>
    ensures { result ≡ append_sign symbol }
{
    match symbol {
        Symbol::Caret => Some(Sign::Infix(Binary::Append)),
        Symbol::DoublePlus => Some(Sign::Infix(Binary::Concat)),
        Symbol::DoubleMinus => Some(Sign::Remove),
        _ => None,
    }
}

fn sum_sign(symbol: Symbol) -> Option<Sign>
    ensures { result ≡ sum_sign symbol }
{
    match symbol {
        Symbol::Plus => Some(Sign::Infix(Binary::Add)),
        Symbol::Minus => Some(Sign::Infix(Binary::Sub)),
        _ => None,
    }
}

fn product_sign(symbol: Symbol) -> Option<Sign>
    ensures { result ≡ product_sign symbol }
{
    match symbol {
        Symbol::Star => Some(Sign::Infix(Binary::Mul)),
        Symbol::Slash => Some(Sign::Infix(Binary::Div)),
        Symbol::Percent => Some(Sign::Infix(Binary::Rem)),
        _ => None,
    }
}

fn disjunction_sign(symbol: Symbol) -> Option<Sign>
    ensures { result ≡ disjunction_sign symbol }
{
    match symbol {
        Symbol::OrOr => Some(Sign::Infix(Binary::Or)),
        _ => None,
    }
}

fn conjunction_sign(symbol: Symbol) -> Option<Sign>
    ensures { result ≡ conjunction_sign symbol }
{
    match symbol {
        Symbol::AndAnd => Some(Sign::Infix(Binary::And)),
        _ => None,
    }
}

fn symbol_sign(level: Level, symbol: Symbol) -> Option<Sign>
    ensures { result ≡ sign level symbol }
{
    match level {
        Level::Disjunction => disjunction_sign(symbol),
        Level::Conjunction => conjunction_sign(symbol),
        Level::Append => append_sign(symbol),
        Level::Sum => sum_sign(symbol),
        Level::Product => product_sign(symbol),
    }
}

fn sign_of(level: Level, kind: TokenKind) -> Option<Sign>
    ensures { result ≡ sign_of level kind }
{
    match kind {
        TokenKind::Symbol(symbol) => symbol_sign(level, symbol),
        _ => None,
    }
}

/// The operator of a level at a place, if one stands there.
pub fn sign_at(tokens: &Tokens, at: usize, level: Level) -> Option<Sign>
    ensures { SignAt tokens.now at level result }
{
    match peek(tokens, at) {
        Some(kind) => sign_of(level, kind),
        None => None,
    }
}

fn compared(symbol: Symbol) -> Option<Binary>
    ensures { result ≡ compared symbol }
{
    match symbol {
        Symbol::Eq => Some(Binary::Eq),
        Symbol::Ne => Some(Binary::Ne),
        Symbol::Lt => Some(Binary::Lt),
        Symbol::Le => Some(Binary::Le),
        Symbol::Gt => Some(Binary::Gt),
        Symbol::Ge => Some(Binary::Ge),
        _ => None,
    }
}

fn comparison_of(kind: TokenKind) -> Option<Binary>
    ensures { result ≡ comparison_of kind }
{
    match kind {
        TokenKind::Symbol(symbol) => compared(symbol),
        _ => None,
    }
}

/// The comparison at a place, if one stands there.
pub fn comparison_at(tokens: &Tokens, at: usize) -> Option<Binary>
    ensures { ComparisonAt tokens.now at result }
{
    match peek(tokens, at) {
        Some(kind) => comparison_of(kind),
        None => None,
    }
}
