//! Whether the variables of a form are in scope with the kinds that their places want.
ghost use Rattle.std.specs.Prelude.{◌≡◌, ℕ, suc, Some, IfOk};
ghost use Rattle.ur_rows.specs.Kinded.{kind_at, is_star, is_name, is_row, label_is_in, type_is_in, part_is_in, row_is_in, is_of_kind};
ghost use Rattle.ur_rows_normal.specs.Scope.{within};

use ur_base::{List, Memory};
use ur_rows::{Label, Normal, NormalType, Part, Var};
use ur_syntax::Kind;

fn deeper(depth: u32) -> Result<u32, Memory>
    ensures { IfOk result (λ d. d ≡ suc depth) }
{
    match depth.checked_add(1) {
        Some(d) => Ok(d),
        None => Err(Memory),
    }
}

fn is_of_type(k: &Kind) -> bool
    ensures { result ≡ is_star (Some k.now) }
{
    match k {
        Kind::Star => true,
        _ => false,
    }
}

fn is_of_name(k: &Kind) -> bool
    ensures { result ≡ is_name (Some k.now) }
{
    match k {
        Kind::Name => true,
        _ => false,
    }
}

fn is_of_row(k: &Kind) -> bool
    ensures { result ≡ is_row (Some k.now) }
{
    match k {
        Kind::Row => true,
        _ => false,
    }
}

/// Whether a variable is of kind `Type`, within so many functions of types.
fn is_star(v: &Var, free: &[Kind], depth: u32) -> bool
    ensures { result ≡ is_star (kind_at (within free.now depth) v.now) }
{
    match v {
        Var::Free(n) => match free.get(*n as usize) {
            Some(k) => is_of_type(k),
            None => false,
        },
        Var::Bound(i) => *i < depth,
    }
}

fn is_name(v: &Var, free: &[Kind]) -> bool
    ensures { (depth : ℕ) → result ≡ is_name (kind_at (within free.now depth) v.now) }
{
    match v {
        Var::Free(n) => match free.get(*n as usize) {
            Some(k) => is_of_name(k),
            None => false,
        },
        Var::Bound(_) => false,
    }
}

fn is_row(v: &Var, free: &[Kind]) -> bool
    ensures { (depth : ℕ) → result ≡ is_row (kind_at (within free.now depth) v.now) }
{
    match v {
        Var::Free(n) => match free.get(*n as usize) {
            Some(k) => is_of_row(k),
            None => false,
        },
        Var::Bound(_) => false,
    }
}

/// Whether the variable of a name is in scope as a name, within functions of types as well as outside.
pub fn label_is_in(l: &Label, free: &[Kind]) -> bool
    ensures { (depth : ℕ) → result ≡ label_is_in (within free.now depth) l.now }
{
    match l {
        Label::Literal(_) => true,
        Label::Variable(v) => is_name(v, free),
    }
}

/// Whether the variables of a type are in scope with the kinds that their places want, within so many functions of types.
#[cycle(scoping)]
#[tactic(auto, using(crate::proofs::Scoping::scopes))]
pub fn type_is_in(t: &NormalType, free: &[Kind], depth: u32) -> Result<bool, Memory>
    ensures { IfOk result (λ b. b ≡ type_is_in (within free.now depth) t.now) }
{
    match t {
        NormalType::Variable(v) => Ok(is_star(v, free, depth)),
        NormalType::Opt(x) => type_is_in(x.get(), free, depth),
        NormalType::Many(x) => type_is_in(x.get(), free, depth),
        NormalType::Transaction(x) => type_is_in(x.get(), free, depth),
        NormalType::Arrow(a, b) => {
            let left = type_is_in(a.get(), free, depth)?;
            let right = type_is_in(b.get(), free, depth)?;
            Ok(left && right)
        }
        NormalType::Record(r) => row_is_in(r, free, depth),
        NormalType::Form(r) => row_is_in(r, free, depth),
        NormalType::Int => Ok(true),
        NormalType::Str => Ok(true),
        NormalType::Bool => Ok(true),
        NormalType::Page => Ok(true),
        NormalType::Xbody => Ok(true),
        NormalType::Xtable => Ok(true),
        NormalType::Xtr => Ok(true),
        NormalType::Datatype(_) => Ok(true),
    }
}

/// The same for a row.
#[cycle(scoping)]
#[tactic(auto, using(crate::proofs::Scoping::scopes))]
pub fn row_is_in(r: &List<Part>, free: &[Kind], depth: u32) -> Result<bool, Memory>
    ensures { IfOk result (λ b. b ≡ row_is_in (within free.now depth) r.now) }
{
    let parts = r.as_slice();
    for i in 0..parts.len() {
        let part = part_is_in(&parts[i], free, depth)?;
        if !part {
            return Ok(false);
        }
    }
    Ok(true)
}

#[cycle(scoping)]
#[tactic(auto, using(crate::proofs::Scoping::scopes))]
fn part_is_in(p: &Part, free: &[Kind], depth: u32) -> Result<bool, Memory>
    ensures { IfOk result (λ b. b ≡ part_is_in (within free.now depth) p.now) }
{
    match p {
        Part::Field(l, t) => {
            let of = type_is_in(t.get(), free, depth)?;
            Ok(label_is_in(l, free) && of)
        }
        Part::Piece(v) => Ok(is_row(v, free)),
        Part::Mapped(v, f) => {
            let within = type_is_in(f.get(), free, deeper(depth)?)?;
            Ok(is_row(v, free) && within)
        }
    }
}

/// Whether a constructor is of a kind without arrows, where the free variables have these kinds.
pub fn is_of_kind(n: &Normal, k: &Kind, free: &[Kind]) -> Result<bool, Memory>
    ensures { IfOk result (λ b. b ≡ is_of_kind (within free.now 0) n.now k.now) }
{
    match n {
        Normal::Type(t) => {
            let within = type_is_in(t, free, 0)?;
            Ok(is_of_type(k) && within)
        }
        Normal::Name(l) => Ok(is_of_name(k) && label_is_in(l, free)),
        Normal::Row(r) => {
            let within = row_is_in(r, free, 0)?;
            Ok(is_of_row(k) && within)
        }
        Normal::Fn(_, _) => Ok(false),
    }
}
