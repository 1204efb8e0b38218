//! Where a token stands, and the places that are open around it.
ghost use Rattle.std.specs.Prelude.{◌≡◌, [], ◌∷◌, OnOk};
ghost use Rattle.std.specs.List.{list_all};
ghost use Rattle.ur_lex.specs.Modes.{turn, turned, innermost, is_code};
ghost use Rattle.ur_lex.specs.declared.mode.Mode.TheVariants as place;

use crate::token::{Symbol, TokenKind};
use std::alloc::Global;
use std::marker::Model;
use ur_base::{List, Memory};

/// In the language, in XML text, or in a tag.
#[derive(Clone, Copy, Debug, PartialEq, Eq)]
pub enum Mode {
    Code,
    Markup,
    Tag,
}

/// The modes of a place, innermost first: the mode there and those around it.
#[derive(Drop)]
pub struct Modes {
    inner: Mode,
    outer: List<Mode>,
}

impl Model for Modes {
    ghost use Rattle.std.specs.Prelude.{List, ◌∷◌, reverse};
    ghost use Rattle.ur_lex.specs.declared.mode.Mode.{Mode};

    ghost Value = { List Mode };

    ghost view = { λ modes. modes.inner ∷ reverse modes.outer };
}

/// What a token does to the modes.
#[derive(Clone, Copy)]
pub enum Turn {
    Into(Mode),
    Out,
    Stay,
}

/// What a token of this kind does in this mode.
pub fn turn_of(kind: TokenKind, mode: Mode) -> Turn
    ensures { result ≡ turn kind mode }
{
    let TokenKind::Symbol(symbol) = kind else {
        return Turn::Stay;
    };
    match (symbol, mode) {
        (Symbol::LBrace, _) => Turn::Into(Mode::Code),
        (Symbol::XmlOpen, _) => Turn::Into(Mode::Markup),
        (Symbol::Lt, Mode::Markup) => Turn::Into(Mode::Tag),
        (Symbol::TagClose, Mode::Markup) => Turn::Into(Mode::Tag),
        (Symbol::RBrace, Mode::Code) => Turn::Out,
        (Symbol::XmlClose, Mode::Markup) => Turn::Out,
        (Symbol::Gt, Mode::Tag) => Turn::Out,
        (Symbol::TagEmpty, Mode::Tag) => Turn::Out,
        _ => Turn::Stay,
    }
}

fn is_code(mode: Mode) -> bool
    ensures { result ≡ is_code mode }
{
    matches!(mode, Mode::Code)
}

fn all_code(modes: &[Mode]) -> bool
    ensures { result ≡ list_all is_code modes.now }
{
    modes.iter().all(|mode| is_code(*mode))
}

impl Modes {
    /// Before the first token the language alone is open.
    pub fn new(alloc: Global) -> Modes
        ensures { result ≡ place.Code ∷ [] }
    {
        Modes {
            inner: Mode::Code,
            outer: List::new(alloc),
        }
    }

    /// The innermost mode.
    pub fn inner(&self) -> Mode
        ensures { innermost self.now ≡ result }
    {
        self.inner
    }

    /// Whether no XML text and no tag is open.
    pub fn is_code(&self) -> bool
        ensures { result ≡ list_all is_code self.now }
    {
        is_code(self.inner) && all_code(self.outer.as_slice())
    }

    /// The modes after a token that does this. Without memory they stay.
    pub fn go(&mut self, turn: Turn) -> Result<(), Memory>
        ensures { OnOk result (self.new ≡ turned turn self.old) }
    {
        match turn {
            Turn::Into(mode) => {
                self.outer.push(self.inner)?;
                self.inner = mode;
            }
            Turn::Out => {
                if let Some(outer) = self.outer.pop() {
                    self.inner = outer;
                }
            }
            Turn::Stay => {}
        }
        Ok(())
    }
}
