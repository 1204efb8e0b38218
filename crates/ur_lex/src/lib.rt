//! Tokens of a source file.
#![tactic(auto)]

mod bytes;
mod front;
mod lexer;
mod mode;
mod pieces;
mod scan;
mod spelling;
mod token;
mod tokens;

pub use lexer::{lex, one_list_of_tokens};
pub use token::{Keyword, Lexeme, Symbol, Token, TokenKind};
pub use tokens::Tokens;
