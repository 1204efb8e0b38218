//! Keywords and symbols, and the bytes that spell them.
ghost use Rattle.std.specs.Prelude.{◌≡◌, ◌≤◌, length, true, false, MatchOption};
ghost use Rattle.ur_lex.specs.Spelling.{is_among, keywords, keyword_text, symbol_text, stands_in};
ghost use Rattle.ur_lex.specs.Scanning.{keywords_in, listed_keyword, is_symbol, NoSymbol, IsLongestSymbol};
ghost use Rattle.ur_lex.specs.declared.token.Symbol.{Symbol};

use crate::bytes::begins;
use crate::mode::Mode;
use crate::token::{Keyword, Symbol};

const KEYWORDS: [(&[u8], Keyword); 18] = [
    (b"and", Keyword::And),
    (b"case", Keyword::Case),
    (b"con", Keyword::Con),
    (b"cookie", Keyword::Cookie),
    (b"datatype", Keyword::Datatype),
    (b"else", Keyword::Else),
    (b"end", Keyword::End),
    (b"fn", Keyword::Fn),
    (b"fun", Keyword::Fun),
    (b"if", Keyword::If),
    (b"in", Keyword::In),
    (b"let", Keyword::Let),
    (b"of", Keyword::Of),
    (b"sequence", Keyword::Sequence),
    (b"table", Keyword::Table),
    (b"then", Keyword::Then),
    (b"type", Keyword::Type),
    (b"val", Keyword::Val),
];

/// The longest first.
const SYMBOLS: [Symbol; 40] = [
    Symbol::XmlEmpty,
    Symbol::XmlClose,
    Symbol::XmlOpen,
    Symbol::DoubleColon,
    Symbol::Ne,
    Symbol::Le,
    Symbol::Ge,
    Symbol::Arrow,
    Symbol::FatArrow,
    Symbol::LeftArrow,
    Symbol::DoublePlus,
    Symbol::DoubleMinus,
    Symbol::AndAnd,
    Symbol::OrOr,
    Symbol::TagClose,
    Symbol::TagEmpty,
    Symbol::LParen,
    Symbol::RParen,
    Symbol::LBracket,
    Symbol::RBracket,
    Symbol::LBrace,
    Symbol::RBrace,
    Symbol::Comma,
    Symbol::Semicolon,
    Symbol::Colon,
    Symbol::Eq,
    Symbol::Lt,
    Symbol::Gt,
    Symbol::Tilde,
    Symbol::Plus,
    Symbol::Minus,
    Symbol::Star,
    Symbol::Slash,
    Symbol::Percent,
    Symbol::Caret,
    Symbol::Dot,
    Symbol::Hash,
    Symbol::Dollar,
    Symbol::Underscore,
    Symbol::Bar,
];

pub fn symbol_text(symbol: Symbol) -> &'static [u8]
    ensures { result.now ≡ symbol_text symbol }
{
    match symbol {
        Symbol::LParen => b"(",
        Symbol::RParen => b")",
        Symbol::LBracket => b"[",
        Symbol::RBracket => b"]",
        Symbol::LBrace => b"{",
        Symbol::RBrace => b"}",
        Symbol::Comma => b",",
        Symbol::Semicolon => b";",
        Symbol::Colon => b":",
        Symbol::DoubleColon => b"::",
        Symbol::Eq => b"=",
        Symbol::Ne => b"<>",
        Symbol::Lt => b"<",
        Symbol::Le => b"<=",
        Symbol::Gt => b">",
        Symbol::Ge => b">=",
        Symbol::Arrow => b"->",
        Symbol::FatArrow => b"=>",
        Symbol::LeftArrow => b"<-",
        Symbol::Tilde => b"~",
        Symbol::Plus => b"+",
        Symbol::Minus => b"-",
        Symbol::Star => b"*",
        Symbol::Slash => b"/",
        Symbol::Percent => b"%",
        Symbol::Caret => b"^",
        Symbol::DoublePlus => b"++",
        Symbol::DoubleMinus => b"--",
        Symbol::AndAnd => b"&&",
        Symbol::OrOr => b"||",
        Symbol::Dot => b".",
        Symbol::Hash => b"#",
        Symbol::Dollar => b"$",
        Symbol::Underscore => b"_",
        Symbol::Bar => b"|",
        Symbol::XmlOpen => b"<xml>",
        Symbol::XmlEmpty => b"<xml/>",
        Symbol::XmlClose => b"</xml>",
        Symbol::TagClose => b"</",
        Symbol::TagEmpty => b"/>",
    }
}

/// Whether a symbol is a token of a mode.
fn stands_in(symbol: Symbol, mode: Mode) -> bool
    ensures { result ≡ stands_in symbol mode }
{
    match mode {
        Mode::Code => !matches!(
            symbol,
            Symbol::XmlClose | Symbol::TagClose | Symbol::TagEmpty
        ),
        Mode::Markup => matches!(
            symbol,
            Symbol::LBrace | Symbol::Lt | Symbol::TagClose | Symbol::XmlClose
        ),
        Mode::Tag => matches!(
            symbol,
            Symbol::LBrace | Symbol::Eq | Symbol::Gt | Symbol::TagEmpty
        ),
    }
}

/// What a word stands for by a table.
fn listed(mut table: &[(&[u8], Keyword)], word: &[u8]) -> Option<Keyword>
    ensures { result ≡ listed_keyword (keywords_in table.entry.now) word.now }
{
    while let [row, rest @ ..] = table {
        if word == row.0 {
            return Some(row.1);
        }
        table = rest;
    }
    None
}

/// The keyword that is spelled so.
pub fn keyword(word: &[u8]) -> Option<Keyword>
    ensures { MatchOption result (is_among keywords word.now ≡ false) (λ k. word.now ≡ keyword_text k) }
{
    listed(&KEYWORDS, word)
}

/// Whether a symbol is a token of a mode and the bytes begin with it.
fn is_symbol(mode: Mode, bytes: &[u8], symbol: Symbol) -> bool
    ensures { result ≡ is_symbol mode bytes.now symbol }
{
    stands_in(symbol, mode) && begins(bytes, symbol_text(symbol))
}

/// The longest symbol of a mode with which the bytes begin.
pub fn symbol(mode: Mode, bytes: &[u8]) -> Option<Symbol>
    ensures { MatchOption result (NoSymbol mode bytes.now) (λ s. IsLongestSymbol mode bytes.now s) }
{
    for symbol in SYMBOLS.iter() {
        if is_symbol(mode, bytes, *symbol) {
            return Some(*symbol);
        }
    }
    None
}
