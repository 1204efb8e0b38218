//! The code of antiquotes, read as expressions.
ghost use Rattle.std.specs.Prelude.{◌≡◌, ◌↔◌, ◌<◌, ◌-◌, ◌++◌, ◌∷◌, [], true, IsTrue, IfOk, OnOk};
ghost use Rattle.ur_base.specs.Stopping.{Says};
ghost use Rattle.ur_parse_rules.specs.Places.{Moves, Reads, Refuses, IfRefused};
ghost use Rattle.ur_parse_rules.specs.Quoted.{expressions};
ghost use Rattle.ur_parse_rules.specs.Parts.{of_quote};
ghost use Rattle.ur_parse_rules.specs.Language.{language};
ghost use Rattle.ur_parse_exp.specs.Codes.{IsRaw, Sits, IsNone, CodesRead, CodeRead, NoneRead, Told};

use crate::line::exp;
use std::alloc::Global;
use ur_base::{Boxed, List, Stop};
use ur_lex::Tokens;
use ur_parse_embed_code::{Range, quoted};
use ur_parse_exp_parts::{inner, with_code};
use ur_parse_rules::{Parsed, unexpected};
use ur_syntax::Exp;

/// The expressions of code, and whether code nests too deep, whose expression is then not among them.
#[derive(Drop)]
pub struct Codes {
    pub exps: Parsed<List<Exp>>,
    pub deep: bool,
}

/// Whether two places are the same.
fn same_place(a: usize, b: usize) -> bool
    ensures { IsTrue result ↔ (a ≡ b) }
{
    a == b
}

/// The place behind the raw code at a place. Where no raw code stands the answer is want of memory.
fn raw_end(alloc: Global, tokens: &Tokens, at: usize) -> Result<usize, Stop>
    ensures found { IfOk result (λ end. IsRaw tokens.now at end) }
    ensures refused { IfRefused result (λ r. ⊥) }
{
    match quoted(alloc, tokens, at, 0) {
        Ok(raw) => Ok(raw.end),
        Err(_refused) => Err(Stop::Memory),
    }
}

/// Passes where a range holds raw code behind a place, as the ranges of skeletons do. Elsewhere the answer is want of
/// memory.
fn sits(alloc: Global, tokens: &Tokens, from: usize, range: Range) -> Result<(), Stop>
    ensures behind { OnOk result (from < range.begin) }
    ensures moves { OnOk result (Moves tokens.now range.begin range.end) }
    ensures found { OnOk result (Sits tokens.now from range) }
    ensures refused { IfRefused result (λ r. ⊥) }
{
    if from < range.begin {
        let end = raw_end(alloc, tokens, range.begin)?;
        if same_place(end, range.end) {
            Ok(())
        } else {
            Err(Stop::Memory)
        }
    } else {
        Err(Stop::Memory)
    }
}

/// How many may nest where `less` fewer may.
fn lessened(depth: usize, less: usize) -> usize
    ensures { result ≡ depth - less }
{
    if less < depth { depth - less } else { 0 }
}

/// The expression that raw code is, from one place up to another.
#[cycle(exp)]
fn quote(
    alloc: Global,
    tokens: &Tokens,
    at: usize,
    end: usize,
    depth: usize,
    levels: usize,
) -> Result<Parsed<Boxed<Exp>>, Stop>
    ensures found { IsRaw tokens.now at end → IfOk result (λ p. Reads language depth tokens.now at end (of_quote expressions) p.tree) }
    ensures refused { IsRaw tokens.now at end → IfRefused result (λ r. Refuses language depth tokens.now at (of_quote expressions) r) }
{
    let line = exp(alloc, tokens, at, depth, levels)?;
    if same_place(line.end, end) {
        Ok(inner(line, end))
    } else {
        Err(unexpected(alloc, tokens, line.end))
    }
}

/// What is known of the code of some ranges where that of one more is refused: E05 is passed on.
fn told(before: Codes, refused: Stop) -> Result<Codes, Stop>
    ensures found { IfOk result (λ c. (c.deep ≡ true) × Told refused (λ r. r.code ≡ 5 → ⊥)) }
    ensures refused { IfRefused result (λ q. Told refused (λ r. (q ≡ r) × (r.code ≡ 5))) }
{
    let Codes { exps, deep: _ } = before;
    match refused {
        Stop::Memory => Err(Stop::Memory),
        Stop::Refused(refusal) => {
            if refusal.code == 5 {
                Err(Stop::Refused(refusal))
            } else {
                Ok(Codes { exps, deep: true })
            }
        }
    }
}

/// The code of some ranges, and the expression of one more.
fn added(before: Codes, exp: Parsed<Boxed<Exp>>) -> Result<Codes, Stop>
    ensures found { IfOk result (λ c. (c.deep ≡ before.deep) × (c.exps.tree ≡ before.exps.tree ++ exp.tree ∷ [])) }
    ensures refused { IfRefused result (λ r. ⊥) }
{
    let Codes { exps, deep } = before;
    let exps = with_code(exps, exp)?;
    Ok(Codes { exps, deep })
}

/// The code of a range behind that of others, where `less` fewer expressions may nest than the range says.
#[cycle(exp)]
fn code(
    alloc: Global,
    tokens: &Tokens,
    from: usize,
    range: Range,
    less: usize,
    levels: usize,
    before: Codes,
) -> Result<Codes, Stop>
    ensures found { IfOk result (CodeRead tokens.now less range before) }
    ensures refused { IfRefused result (λ r. Says r 5 [] [] × IsNone tokens.now range) }
{
    sits(alloc, tokens, from, range)?;
    let depth = lessened(range.depth, less);
    match quote(alloc, tokens, range.begin, range.end, depth, levels) {
        Ok(exp) => {
            let made = added(before, exp)?;
            Ok(made)
        }
        Err(refused) => {
            let made = told(before, refused)?;
            Ok(made)
        }
    }
}

/// The code of ranges behind a place, where `less` fewer expressions may nest than each says.
#[cycle(exp)]
pub fn read_codes(
    alloc: Global,
    tokens: &Tokens,
    from: usize,
    ranges: &[Range],
    less: usize,
    levels: usize,
) -> Result<Codes, Stop>
    ensures found { IfOk result (CodesRead tokens.now less ranges.now) }
    ensures refused { IfRefused result (NoneRead tokens.now ranges.now) }
{
    let mut made = Codes {
        exps: Parsed {
            tree: List::new(alloc),
            end: 0,
            height: 0,
        },
        deep: false,
    };
    let mut left = ranges;
    'codes: while let Some((range, rest)) = left.split_first() {
        made = code(alloc, tokens, from, *range, less, levels, made)?;
        left = rest;
    }
    Ok(made)
}
