//! Texts, read by the public readers and put into text as trees.
use crate::cons::{con, con_param, kind, param};
use crate::decls::{decl, module, signature};
use crate::exps::exp;
use crate::markup::parts;
use crate::names::{binder, field};
use crate::pats::pat;
use crate::sql::{change, query, sexp};
use crate::subject::Part;
use case_files::Printer;
use std::alloc::Global;
use ur_base::Stop;
use ur_lex::{Keyword, TokenKind, Tokens, lex};
use ur_parse::{
    parse, parse_signature, read_con_decl, read_cookie, read_datatype, read_sequence, read_table,
    read_type_decl,
};
use ur_parse_con::{
    MAX_NESTING, MAX_PARENTHESES, read_binder, read_con, read_con_param, read_kind, read_param,
    read_pat, read_removed,
};
use ur_parse_embed::{MAX_SIGNS, Skeleton, read_sexp, sql_change, sql_query, xml};
use ur_parse_embed_code::{Quotes, Range};
use ur_parse_exp::read_exp;
use ur_parse_exp_parts::Line;
use ur_parse_rules::{ConPlace, Parsed, sees, unexpected};
use ur_syntax::{Decl, Module, Signature};

/// The longest text that is read.
const LONGEST: usize = 1048576;

/// Puts the tree of a text, and gives what stands behind it.
pub fn read<'a>(
    alloc: Global,
    part: Part,
    text: &'a str,
    p: &mut Printer,
) -> Result<&'a str, Stop> {
    let tokens = tokens_of(alloc, 1, text)?;
    let end = read_tokens(alloc, part, text, &tokens, p)?;
    Ok(from_token(text, &tokens, end))
}

/// The tokens of the file with this number.
pub fn tokens_of(alloc: Global, file: u32, text: &str) -> Result<Tokens, Stop> {
    let bytes = text.as_bytes();
    if bytes.len() > LONGEST {
        return Err(Stop::Memory);
    }
    lex(alloc, file, bytes)
}

/// The text from a token on.
fn from_token<'a>(text: &'a str, tokens: &Tokens, at: usize) -> &'a str {
    if at < tokens.len() {
        text.get(tokens.get(at).span.from as usize..).unwrap_or("")
    } else {
        ""
    }
}

/// Puts the tree of tokens, and gives the place behind it.
fn read_tokens(
    alloc: Global,
    part: Part,
    text: &str,
    tokens: &Tokens,
    p: &mut Printer,
) -> Result<usize, Stop> {
    match part {
        Part::Kind => kind_in(alloc, tokens, p),
        Part::Con => con_in(alloc, tokens, ConPlace::Plain, p),
        Part::ConBeside => con_in(alloc, tokens, ConPlace::Beside, p),
        Part::ConBeforeKeys => con_in(alloc, tokens, ConPlace::BeforeKeys, p),
        Part::ConParam => con_param_in(alloc, tokens, p),
        Part::Param => param_in(alloc, tokens, p),
        Part::Binder => binder_in(alloc, tokens, p),
        Part::Pat => pat_in(alloc, tokens, p),
        Part::Removed => removed_in(alloc, tokens, p),
        Part::Exp => exp_in(alloc, tokens, p),
        Part::Sql => sexp_in(alloc, text, tokens, false, p),
        Part::SqlBare => sexp_in(alloc, text, tokens, true, p),
        Part::Query => query_in(alloc, text, tokens, p),
        Part::Change => change_in(alloc, text, tokens, p),
        Part::Xml => xml_in(alloc, text, tokens, p),
        Part::Decl => decl_in(alloc, tokens, p),
        Part::Signature => signature_in(alloc, tokens, p),
        Part::Module => module_in(alloc, tokens, p),
    }
}

fn kind_in(alloc: Global, tokens: &Tokens, p: &mut Printer) -> Result<usize, Stop> {
    let parsed = read_kind(alloc, tokens, 0, MAX_PARENTHESES)?;
    kind(p, &parsed.tree);
    Ok(parsed.end)
}

fn con_param_in(alloc: Global, tokens: &Tokens, p: &mut Printer) -> Result<usize, Stop> {
    let parsed = read_con_param(alloc, tokens, 0, MAX_NESTING, MAX_PARENTHESES)?;
    con_param(p, &parsed.tree);
    Ok(parsed.end)
}

fn param_in(alloc: Global, tokens: &Tokens, p: &mut Printer) -> Result<usize, Stop> {
    let parsed = read_param(alloc, tokens, 0, MAX_NESTING, MAX_PARENTHESES)?;
    param(p, &parsed.tree);
    Ok(parsed.end)
}

fn binder_in(alloc: Global, tokens: &Tokens, p: &mut Printer) -> Result<usize, Stop> {
    let (bound, end) = read_binder(alloc, tokens, 0)?;
    binder(p, &bound);
    Ok(end)
}

fn pat_in(alloc: Global, tokens: &Tokens, p: &mut Printer) -> Result<usize, Stop> {
    let parsed = read_pat(alloc, tokens, 0)?;
    pat(p, &parsed.tree);
    Ok(parsed.end)
}

fn removed_in(alloc: Global, tokens: &Tokens, p: &mut Printer) -> Result<usize, Stop> {
    let (removed, end) = read_removed(alloc, tokens, 0)?;
    field(p, &removed.name);
    Ok(end)
}

fn query_in(alloc: Global, text: &str, tokens: &Tokens, p: &mut Printer) -> Result<usize, Stop> {
    let Skeleton { tree, quotes, end } = sql_query(alloc, tokens, 0)?;
    query(p, &tree);
    codes(text, tokens, quotes.exps.as_slice(), p);
    Ok(end)
}

fn change_in(alloc: Global, text: &str, tokens: &Tokens, p: &mut Printer) -> Result<usize, Stop> {
    let Skeleton { tree, quotes, end } = sql_change(alloc, tokens, 0)?;
    change(p, &tree);
    codes(text, tokens, quotes.exps.as_slice(), p);
    Ok(end)
}

fn xml_in(alloc: Global, text: &str, tokens: &Tokens, p: &mut Printer) -> Result<usize, Stop> {
    let Skeleton { tree, quotes, end } = xml(alloc, tokens, 0)?;
    parts(p, tree.parts.as_slice());
    codes(text, tokens, quotes.exps.as_slice(), p);
    codes(text, tokens, quotes.attributes.as_slice(), p);
    Ok(end)
}

fn con_in(alloc: Global, tokens: &Tokens, place: ConPlace, p: &mut Printer) -> Result<usize, Stop> {
    let parsed = read_con(alloc, tokens, 0, MAX_NESTING, MAX_PARENTHESES, place)?;
    con(p, &parsed.tree);
    Ok(parsed.end)
}

fn exp_in(alloc: Global, tokens: &Tokens, p: &mut Printer) -> Result<usize, Stop> {
    let Parsed {
        tree,
        end,
        height: _,
    } = read_exp(alloc, tokens, 0, MAX_NESTING, MAX_SIGNS)?;
    let Line {
        exp: whole,
        takes_semicolon: _,
        takes_bar: _,
    } = tree;
    exp(p, whole.get());
    drop(whole);
    Ok(end)
}

fn sexp_in(
    alloc: Global,
    text: &str,
    tokens: &Tokens,
    bare: bool,
    p: &mut Printer,
) -> Result<usize, Stop> {
    let mut quotes = Quotes::new(alloc);
    let parsed = read_sexp(alloc, tokens, 0, MAX_NESTING, MAX_SIGNS, bare, &mut quotes)?;
    sexp(p, &parsed.tree);
    codes(text, tokens, quotes.exps.as_slice(), p);
    Ok(parsed.end)
}

/// The code of antiquotes as it is written, each behind `|`.
fn codes(text: &str, tokens: &Tokens, ranges: &[Range], p: &mut Printer) {
    for range in ranges {
        p.word(b"|");
        p.word(written(text, tokens, *range).as_bytes());
    }
}

/// The text of code.
fn written<'a>(text: &'a str, tokens: &Tokens, range: Range) -> &'a str {
    let last = range.end.saturating_sub(1);
    if range.begin < tokens.len() && last < tokens.len() {
        let from = tokens.get(range.begin).span.from as usize;
        let to = tokens.get(last).span.to as usize;
        text.get(from..to).unwrap_or("")
    } else {
        ""
    }
}

fn decl_in(alloc: Global, tokens: &Tokens, p: &mut Printer) -> Result<usize, Stop> {
    let Parsed {
        tree,
        end,
        height: _,
    } = read_decl(alloc, tokens)?;
    decl(p, &tree);
    drop(tree);
    Ok(end)
}

/// The declaration without an expression at the begin, by its first word.
fn read_decl(alloc: Global, tokens: &Tokens) -> Result<Parsed<Decl>, Stop> {
    if sees(tokens, 0, TokenKind::Keyword(Keyword::Con)) {
        read_con_decl(alloc, tokens, 0, MAX_NESTING, MAX_PARENTHESES)
    } else if sees(tokens, 0, TokenKind::Keyword(Keyword::Type)) {
        read_type_decl(alloc, tokens, 0, MAX_NESTING, MAX_PARENTHESES)
    } else if sees(tokens, 0, TokenKind::Keyword(Keyword::Datatype)) {
        read_datatype(alloc, tokens, 0, MAX_NESTING, MAX_PARENTHESES)
    } else if sees(tokens, 0, TokenKind::Keyword(Keyword::Table)) {
        read_table(alloc, tokens, 0, MAX_NESTING, MAX_PARENTHESES)
    } else if sees(tokens, 0, TokenKind::Keyword(Keyword::Cookie)) {
        read_cookie(alloc, tokens, 0, MAX_NESTING, MAX_PARENTHESES)
    } else if sees(tokens, 0, TokenKind::Keyword(Keyword::Sequence)) {
        read_sequence(alloc, tokens, 0)
    } else {
        Err(unexpected(alloc, tokens, 0))
    }
}

fn signature_in(alloc: Global, tokens: &Tokens, p: &mut Printer) -> Result<usize, Stop> {
    let Signature { vals } = parse_signature(alloc, tokens)?;
    signature(p, vals.as_slice());
    Ok(tokens.len())
}

fn module_in(alloc: Global, tokens: &Tokens, p: &mut Printer) -> Result<usize, Stop> {
    let Module { decls } = parse(alloc, tokens)?;
    module(p, decls.as_slice());
    drop(decls);
    Ok(tokens.len())
}
