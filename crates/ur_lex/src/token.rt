//! What tokens are.
use ur_base::{Span, Text};

#[derive(Clone, Copy, Debug, PartialEq, Eq)]
pub enum Keyword {
    And,
    Case,
    Con,
    Cookie,
    Datatype,
    Else,
    End,
    Fn,
    Fun,
    If,
    In,
    Let,
    Of,
    Sequence,
    Table,
    Then,
    Type,
    Val,
}

#[derive(Clone, Copy, Debug, PartialEq, Eq)]
pub enum Symbol {
    LParen,
    RParen,
    LBracket,
    RBracket,
    LBrace,
    RBrace,
    Comma,
    Semicolon,
    Colon,
    DoubleColon,
    Eq,
    Ne,
    Lt,
    Le,
    Gt,
    Ge,
    Arrow,
    FatArrow,
    LeftArrow,
    Tilde,
    Plus,
    Minus,
    Star,
    Slash,
    Percent,
    Caret,
    DoublePlus,
    DoubleMinus,
    AndAnd,
    OrOr,
    Dot,
    Hash,
    Dollar,
    Underscore,
    Bar,
    /// `<xml>`
    XmlOpen,
    /// `<xml/>`
    XmlEmpty,
    /// `</xml>`
    XmlClose,
    /// `</`, the begin of a closing tag
    TagClose,
    /// `/>`, the end of a tag without contents
    TagEmpty,
}

/// What a token is. Tags begin with `Lt` or `TagClose` and end with `Gt` or `TagEmpty`.
#[derive(Clone, Copy, Debug, PartialEq, Eq)]
pub enum TokenKind {
    Lower,
    Upper,
    /// a number, with its value
    Int(u64),
    /// a string of the language, or of a tag
    Str,
    SqlText,
    /// a run of XML text
    XmlText,
    /// a word of a tag
    Word,
    Keyword(Keyword),
    Symbol(Symbol),
}

#[derive(Clone, Copy, Debug)]
pub struct Token {
    pub kind: TokenKind,
    pub span: Span,
}

/// A token with what it stands for: the spelling of a name, number, keyword or symbol, a string's bytes
/// without quotes and escapes, XML text without entities.
#[derive(Drop)]
pub struct Lexeme {
    pub kind: TokenKind,
    pub content: Text,
    pub span: Span,
}
