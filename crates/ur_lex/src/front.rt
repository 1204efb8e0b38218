//! What the bytes that are left begin with.
ghost use Rattle.std.specs.Prelude.{◌≡◌, ◌≢◌, ◌||◌, ◌==◌, ◌<◌, ℕ, List, length, drop, slice_index, true, false, MatchOption, IfOk};
ghost use Rattle.std.specs.List.{list_all};
ghost use Rattle.ur_lex.specs.Spelling.{IsSpelled, is_in_name, is_small, is_digit};
ghost use Rattle.ur_lex.specs.Lexing.{IsFront, IsAllowed, opens_comment, may_follow};
ghost use Rattle.ur_lex.specs.Scanning.{starts_name, IsFound, IsFirst, IsClosed, IsUnclosed, OnlySymbols};
ghost use Rattle.ur_lex.specs.declared.mode.Mode.TheVariants as place;

use crate::bytes::{Class, byte_at, is_capital, is_digit, is_small, run};
use crate::mode::Mode;
use crate::pieces::{Alphabet, Reading, read};
use crate::scan::{comment, is_blank, opens_comment, value};
use crate::spelling::{keyword, symbol, symbol_text};
use crate::token::{Symbol, TokenKind};
use std::alloc::Global;
use ur_base::{List, Memory, Text};

/// A token that was found: its kind, what it stands for, and how many bytes it has.
#[derive(Drop)]
pub struct Found {
    pub kind: TokenKind,
    pub content: Text,
    pub len: usize,
}

/// What bytes begin with: a separator of so many bytes, a token, or neither.
#[derive(Drop)]
pub enum Front {
    Gap(usize),
    Token(Found),
    Nothing,
}

/// A token that stands for its own spelling.
fn plain(alloc: Global, kind: TokenKind, spelled: &[u8]) -> Result<Found, Memory>
    ensures kind { IfOk result (λ f. f.kind ≡ kind) }
    ensures content { IfOk result (λ f. f.content ≡ spelled.now) }
    ensures len { IfOk result (λ f. f.len ≡ length spelled.now) }
{
    Ok(Found {
        kind,
        content: List::from_slice(alloc, spelled)?,
        len: spelled.len(),
    })
}

/// The kind of a name.
fn name_kind(name: &[u8]) -> TokenKind
    requires start { starts_name (slice_index name.now 0) ≡ true }
    requires all { list_all is_in_name name.now ≡ true }
    ensures spelled { IsSpelled place.Code result name.now name.now }
    ensures allowed { (rest : List ℕ) → IsAllowed place.Code result rest }
{
    if is_capital(byte_at(name, 0)) {
        return TokenKind::Upper;
    }
    if name == b"_".as_slice() {
        return TokenKind::Symbol(Symbol::Underscore);
    }
    match keyword(name) {
        Some(keyword) => TokenKind::Keyword(keyword),
        None => TokenKind::Lower,
    }
}

fn name(alloc: Global, bytes: &[u8]) -> Result<Found, Memory>
    requires { starts_name (slice_index bytes.now 0) ≡ true }
    ensures { IfOk result (λ f. IsFront place.Code f.kind f.content f.len bytes.now) }
{
    let len = run(Class::Name, bytes);
    let name = &bytes[..len];
    plain(alloc, name_kind(name), name)
}

fn number(alloc: Global, bytes: &[u8]) -> Result<Option<Found>, Memory>
    requires { is_digit (slice_index bytes.now 0) ≡ true }
    ensures { IfOk result (IsFound place.Code bytes.now) }
{
    let len = run(Class::Digit, bytes);
    let digits = &bytes[..len];
    match value(digits) {
        Some(value) => Ok(Some(plain(alloc, TokenKind::Int(value), digits)?)),
        None => Ok(None),
    }
}

/// The pieces between the first byte and the next such byte.
fn quoted(
    alloc: Global,
    alphabet: Alphabet,
    kind: TokenKind,
    bytes: &[u8],
) -> Result<Option<Found>, Memory>
    requires { 0 < length bytes.now }
    ensures { IfOk result (λ o. MatchOption o (IsUnclosed alphabet bytes.now) (λ f. (f.kind ≡ kind) × IsClosed alphabet f.content f.len bytes.now)) }
{
    let rest = &bytes[1..];
    let Reading { content, len } = read(alloc, alphabet, rest)?;
    if byte_at(rest, len) != byte_at(bytes, 0) {
        return Ok(None);
    }
    Ok(Some(Found {
        kind,
        content,
        len: len + 2,
    }))
}

fn string(alloc: Global, bytes: &[u8]) -> Result<Option<Found>, Memory>
    requires { slice_index bytes.now 0 ≡ 34 }
    ensures { IfOk result (IsFound place.Code bytes.now) }
{
    quoted(alloc, Alphabet::Str, TokenKind::Str, bytes)
}

fn sql_text(alloc: Global, bytes: &[u8]) -> Result<Option<Found>, Memory>
    requires { slice_index bytes.now 0 ≡ 39 }
    ensures { IfOk result (IsFound place.Code bytes.now) }
{
    quoted(alloc, Alphabet::Sql, TokenKind::SqlText, bytes)
}

fn attribute(alloc: Global, bytes: &[u8]) -> Result<Option<Found>, Memory>
    requires { slice_index bytes.now 0 ≡ 34 }
    ensures { IfOk result (IsFound place.Tag bytes.now) }
{
    quoted(alloc, Alphabet::Attr, TokenKind::Str, bytes)
}

fn xml_text(alloc: Global, bytes: &[u8]) -> Result<Option<Found>, Memory>
    requires some { 0 < length bytes.now }
    requires start { (slice_index bytes.now 0 == 60 || slice_index bytes.now 0 == 123) ≡ false }
    ensures { IfOk result (IsFound place.Markup bytes.now) }
{
    let Reading { content, len } = read(alloc, Alphabet::Xml, bytes)?;
    if len == 0 {
        return Ok(None);
    }
    let kind = TokenKind::XmlText;
    Ok(Some(Found { kind, content, len }))
}

fn word(alloc: Global, bytes: &[u8]) -> Result<Found, Memory>
    requires { is_small (slice_index bytes.now 0) ≡ true }
    ensures { IfOk result (λ f. IsFront place.Tag f.kind f.content f.len bytes.now) }
{
    let len = run(Class::Word, bytes);
    plain(alloc, TokenKind::Word, &bytes[..len])
}

/// Whether this byte may stand behind a symbol: in XML text a tag's begin has a word directly after it.
fn may_follow(mode: Mode, symbol: Symbol, byte: u8) -> bool
    ensures { result ≡ may_follow mode symbol byte }
{
    match (mode, symbol) {
        (Mode::Markup, Symbol::Lt) => is_small(byte),
        (Mode::Markup, Symbol::TagClose) => is_small(byte),
        _ => true,
    }
}

fn mark(alloc: Global, mode: Mode, bytes: &[u8]) -> Result<Option<Found>, Memory>
    requires only { OnlySymbols mode bytes.now }
    requires no_comment { mode ≡ place.Code → opens_comment bytes.now ≡ false }
    ensures { IfOk result (IsFound mode bytes.now) }
{
    let Some(symbol) = symbol(mode, bytes) else {
        return Ok(None);
    };
    let text = symbol_text(symbol);
    if !may_follow(mode, symbol, byte_at(bytes, text.len())) {
        return Ok(None);
    }
    Ok(Some(plain(alloc, TokenKind::Symbol(symbol), text)?))
}

fn code_token(alloc: Global, bytes: &[u8]) -> Result<Option<Found>, Memory>
    requires some { 0 < length bytes.now }
    requires no_comment { opens_comment bytes.now ≡ false }
    ensures { IfOk result (IsFound place.Code bytes.now) }
{
    let first = byte_at(bytes, 0);
    if is_small(first) || is_capital(first) || first == b'_' {
        return Ok(Some(name(alloc, bytes)?));
    }
    if is_digit(first) {
        return number(alloc, bytes);
    }
    if first == b'"' {
        return string(alloc, bytes);
    }
    if first == b'\'' {
        return sql_text(alloc, bytes);
    }
    mark(alloc, Mode::Code, bytes)
}

fn markup_token(alloc: Global, bytes: &[u8]) -> Result<Option<Found>, Memory>
    requires { 0 < length bytes.now }
    ensures { IfOk result (IsFound place.Markup bytes.now) }
{
    let first = byte_at(bytes, 0);
    if first == b'<' || first == b'{' {
        return mark(alloc, Mode::Markup, bytes);
    }
    xml_text(alloc, bytes)
}

fn tag_token(alloc: Global, bytes: &[u8]) -> Result<Option<Found>, Memory>
    requires { 0 < length bytes.now }
    ensures { IfOk result (IsFound place.Tag bytes.now) }
{
    let first = byte_at(bytes, 0);
    if is_small(first) {
        return Ok(Some(word(alloc, bytes)?));
    }
    if first == b'"' {
        return attribute(alloc, bytes);
    }
    mark(alloc, Mode::Tag, bytes)
}

fn code_front(alloc: Global, bytes: &[u8]) -> Result<Front, Memory>
    requires { 0 < length bytes.now }
    ensures { IfOk result (IsFirst place.Code bytes.now) }
{
    if is_blank(byte_at(bytes, 0)) {
        return Ok(Front::Gap(1));
    }
    if opens_comment(bytes) {
        return match comment(bytes) {
            Some(len) => Ok(Front::Gap(len)),
            None => Ok(Front::Nothing),
        };
    }
    match code_token(alloc, bytes)? {
        Some(found) => Ok(Front::Token(found)),
        None => Ok(Front::Nothing),
    }
}

fn markup_front(alloc: Global, bytes: &[u8]) -> Result<Front, Memory>
    requires { 0 < length bytes.now }
    ensures { IfOk result (IsFirst place.Markup bytes.now) }
{
    match markup_token(alloc, bytes)? {
        Some(found) => Ok(Front::Token(found)),
        None => Ok(Front::Nothing),
    }
}

fn tag_front(alloc: Global, bytes: &[u8]) -> Result<Front, Memory>
    requires { 0 < length bytes.now }
    ensures { IfOk result (IsFirst place.Tag bytes.now) }
{
    if is_blank(byte_at(bytes, 0)) {
        return Ok(Front::Gap(1));
    }
    match tag_token(alloc, bytes)? {
        Some(found) => Ok(Front::Token(found)),
        None => Ok(Front::Nothing),
    }
}

/// What the bytes begin with in this mode.
pub fn begin(alloc: Global, mode: Mode, bytes: &[u8]) -> Result<Front, Memory>
    requires { 0 < length bytes.now }
    ensures { IfOk result (IsFirst mode bytes.now) }
{
    match mode {
        Mode::Code => code_front(alloc, bytes),
        Mode::Markup => markup_front(alloc, bytes),
        Mode::Tag => tag_front(alloc, bytes),
    }
}
