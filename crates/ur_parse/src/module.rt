//! Modules.
ghost use Rattle.std.specs.Prelude.{◌≡◌, ℕ, IfOk};
ghost use Rattle.ur_syntax.specs.declared.decl.Module.{Module};
ghost use Rattle.ur_parse_rules.specs.Places.{IfRefused};
ghost use Rattle.ur_parse_rules.specs.DeclParts.{whole};
ghost use Rattle.ur_parse_rules.specs.Parts.{of_decl};
ghost use Rattle.ur_parse_rules.specs.Language.{IsModule, max_nesting};
ghost use Rattle.ur_parse.specs.Wholes.{RefusesWhole};

use crate::decl::{read_decl, sees_decl};
use std::alloc::Global;
use ur_base::{List, Stop};
use ur_lex::Tokens;
use ur_parse_con::{MAX_NESTING, MAX_PARENTHESES};
use ur_parse_rules::{pushed, unexpected};
use ur_syntax::{Decl, Module};

/// The module that the tokens spell.
pub fn parse(alloc: Global, tokens: &Tokens) -> Result<Module, Stop>
    ensures found { IfOk result (IsModule max_nesting tokens.now) }
    ensures only { IfOk result (λ m. (n : ℕ) (other : Module) → IsModule n tokens.now other → other ≡ m) }
    ensures refused { IfRefused result (RefusesWhole max_nesting (of_decl whole) tokens.now) }
{
    let mut decls: List<Decl> = List::new(alloc);
    let mut at = 0;
    'decls: while sees_decl(tokens, at) {
        let next = read_decl(alloc, tokens, at, MAX_NESTING, MAX_PARENTHESES)?;
        at = next.end;
        pushed(&mut decls, next.tree)?;
    }
    if at < tokens.len() {
        return Err(unexpected(alloc, tokens, at));
    }
    Ok(Module { decls })
}
