//! Texts, read by the public readers.
use std::alloc::Global;
use ur_base::Stop;
use ur_lex::{Tokens, lex};
use ur_parse_con::{MAX_NESTING, MAX_PARENTHESES, read_con, read_kind};
use ur_parse_embed::{read_change, read_query, read_sexp};
use ur_parse_embed_code::Quotes;
use ur_parse_rules::ConPlace;
use ur_syntax::{Con, Kind, SqlChange, SqlExp, SqlQuery};

/// The longest text that is read.
const LONGEST: usize = 1048576;

/// How many operators an expression of SQL may have.
const SIGNS: usize = 1024;

pub fn tokens_of(alloc: Global, text: &str) -> Result<Tokens, Stop> {
    let bytes = text.as_bytes();
    if bytes.len() > LONGEST {
        return Err(Stop::Memory);
    }
    lex(alloc, 1, bytes)
}

pub fn con_of(alloc: Global, text: &str) -> Result<Con, Stop> {
    let tokens = tokens_of(alloc, text)?;
    let parsed = read_con(
        alloc,
        &tokens,
        0,
        MAX_NESTING,
        MAX_PARENTHESES,
        ConPlace::Plain,
    )?;
    Ok(parsed.tree)
}

pub fn kind_of(alloc: Global, text: &str) -> Result<Kind, Stop> {
    let tokens = tokens_of(alloc, text)?;
    let parsed = read_kind(alloc, &tokens, 0, MAX_PARENTHESES)?;
    Ok(parsed.tree)
}

pub fn query_of(alloc: Global, text: &str) -> Result<SqlQuery, Stop> {
    let tokens = tokens_of(alloc, text)?;
    let mut quotes = Quotes::new(alloc);
    let (query, _) = read_query(alloc, &tokens, 0, MAX_NESTING, SIGNS, &mut quotes)?;
    Ok(query)
}

pub fn change_of(alloc: Global, text: &str) -> Result<SqlChange, Stop> {
    let tokens = tokens_of(alloc, text)?;
    let mut quotes = Quotes::new(alloc);
    let (change, _) = read_change(alloc, &tokens, 0, MAX_NESTING, SIGNS, &mut quotes)?;
    Ok(change)
}

/// An expression of SQL, where columns may be bare or not.
pub fn sexp_of(alloc: Global, text: &str, bare: bool) -> Result<SqlExp, Stop> {
    let tokens = tokens_of(alloc, text)?;
    let mut quotes = Quotes::new(alloc);
    let parsed = read_sexp(alloc, &tokens, 0, MAX_NESTING, SIGNS, bare, &mut quotes)?;
    Ok(parsed.tree)
}
