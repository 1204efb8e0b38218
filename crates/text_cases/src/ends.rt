//! Single tokens, and how far trees reach that are too high to be printed.
use crate::subject::Part;
use case_files::{Printer, plain};
use std::alloc::Global;
use ur_base::{Bytes, Stop};
use ur_lex::{Tokens, lex};
use ur_parse_con::{MAX_NESTING, MAX_PARENTHESES, read_con, read_kind};
use ur_parse_embed::{MAX_SIGNS, read_sexp};
use ur_parse_embed_code::Quotes;
use ur_parse_exp::read_exp;
use ur_parse_rules::ConPlace;

/// The longest text that is read.
const LONGEST: usize = 1048576;

fn tokens_of(alloc: Global, bytes: &Bytes) -> Result<Tokens, Stop> {
    if bytes.len() > LONGEST {
        return Err(Stop::Memory);
    }
    lex(alloc, 1, bytes.as_slice())
}

fn sql_end(alloc: Global, tokens: &Tokens) -> Result<usize, Stop> {
    let mut quotes = Quotes::new(alloc);
    Ok(read_sexp(alloc, tokens, 0, MAX_NESTING, MAX_SIGNS, false, &mut quotes)?.end)
}

fn con_end(alloc: Global, tokens: &Tokens) -> Result<usize, Stop> {
    Ok(
        read_con(
            alloc,
            tokens,
            0,
            MAX_NESTING,
            MAX_PARENTHESES,
            ConPlace::Plain,
        )?
        .end,
    )
}

fn end_of(alloc: Global, part: Part, tokens: &Tokens) -> Result<usize, Stop> {
    match part {
        Part::Kind => Ok(read_kind(alloc, tokens, 0, MAX_PARENTHESES)?.end),
        Part::Con => con_end(alloc, tokens),
        Part::Sql => sql_end(alloc, tokens),
        _ => Ok(read_exp(alloc, tokens, 0, MAX_NESTING, MAX_SIGNS)?.end),
    }
}

fn put_end(alloc: Global, part: Part, bytes: &Bytes, p: &mut Printer) -> Result<(), Stop> {
    let tokens = tokens_of(alloc, bytes)?;
    let end = end_of(alloc, part, &tokens)?;
    p.put(b"=");
    p.number(end as u64);
    Ok(())
}

/// How many tokens are read.
pub fn end(alloc: Global, part: Part, text: &str, p: &mut Printer) -> Result<(), Stop> {
    let bytes = plain(alloc, text)?;
    put_end(alloc, part, &bytes, p)
}

// ---- single tokens

fn put_token(tokens: &Tokens, index: usize, p: &mut Printer) {
    if index < tokens.len() {
        let span = tokens.get(index).span;
        p.number(u64::from(span.from));
        p.put(b"-");
        p.count(u64::from(span.to));
        p.put(b" ");
        p.plain(tokens.content(index));
    }
}

fn put_in(alloc: Global, index: usize, bytes: &Bytes, p: &mut Printer) -> Result<(), Stop> {
    let tokens = tokens_of(alloc, bytes)?;
    p.put(b"=");
    put_token(&tokens, index, p);
    Ok(())
}

/// The place of a token and what it stands for, where the text begins with its number.
pub fn token(alloc: Global, text: &str, p: &mut Printer) -> Result<(), Stop> {
    let (index, text) = text.split_once(' ').unwrap_or((text, ""));
    let bytes = plain(alloc, text)?;
    put_in(alloc, index.parse::<usize>().unwrap_or(0), &bytes, p)
}
