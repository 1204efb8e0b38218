//! Whether a function's variable occurs in its body, and whether it stands where nothing that is put in place of other
//! variables takes it away.
ghost use Rattle.std.specs.Prelude.{◌≡◌, suc, IfOk};
ghost use Rattle.ur_rows_reduce.specs.Occurs.{uses_label, uses_type, uses_row, uses_part, uses, is_used, holds_type, holds_row, holds_part, holds};

use ur_base::{List, Memory};
use ur_rows::{Label, Normal, NormalType, Part, is_here};

fn deeper(depth: u32) -> Result<u32, Memory>
    ensures { IfOk result (λ d. d ≡ suc depth) }
{
    match depth.checked_add(1) {
        Some(d) => Ok(d),
        None => Err(Memory),
    }
}

fn uses_label(depth: u32, l: &Label) -> bool
    ensures { result ≡ uses_label depth l.now }
{
    match l {
        Label::Literal(_) => false,
        Label::Variable(v) => is_here(depth, v),
    }
}

/// Whether the variable of the function so many further out occurs in a type.
#[cycle(using)]
#[tactic(auto, using(crate::proofs::Uses::used))]
pub fn uses_type(depth: u32, t: &NormalType) -> Result<bool, Memory>
    ensures { IfOk result (λ b. b ≡ uses_type depth t.now) }
{
    match t {
        NormalType::Variable(v) => Ok(is_here(depth, v)),
        NormalType::Opt(x) => uses_type(depth, x.get()),
        NormalType::Many(x) => uses_type(depth, x.get()),
        NormalType::Transaction(x) => uses_type(depth, x.get()),
        NormalType::Arrow(a, b) => {
            if uses_type(depth, a.get())? {
                return Ok(true);
            }
            uses_type(depth, b.get())
        }
        NormalType::Record(r) => uses_row(depth, r),
        NormalType::Form(r) => uses_row(depth, r),
        _ => Ok(false),
    }
}

#[cycle(using)]
#[tactic(auto, using(crate::proofs::Uses::used))]
fn uses_row(depth: u32, r: &List<Part>) -> Result<bool, Memory>
    ensures { IfOk result (λ b. b ≡ uses_row depth r.now) }
{
    let parts = r.as_slice();
    for i in 0..parts.len() {
        if uses_part(depth, &parts[i])? {
            return Ok(true);
        }
    }
    Ok(false)
}

#[cycle(using)]
#[tactic(auto, using(crate::proofs::Uses::used))]
fn uses_part(depth: u32, p: &Part) -> Result<bool, Memory>
    ensures { IfOk result (λ b. b ≡ uses_part depth p.now) }
{
    match p {
        Part::Field(l, t) => {
            if uses_label(depth, l) {
                return Ok(true);
            }
            uses_type(depth, t.get())
        }
        Part::Piece(v) => Ok(is_here(depth, v)),
        Part::Mapped(v, f) => {
            if is_here(depth, v) {
                return Ok(true);
            }
            uses_type(deeper(depth)?, f.get())
        }
    }
}

#[tactic(auto, using(crate::proofs::Uses::used))]
fn uses(depth: u32, n: &Normal) -> Result<bool, Memory>
    ensures { IfOk result (λ b. b ≡ uses depth n.now) }
{
    match n {
        Normal::Type(t) => uses_type(depth, t),
        Normal::Name(l) => Ok(uses_label(depth, l)),
        Normal::Row(r) => uses_row(depth, r),
        Normal::Fn(_, c) => uses(deeper(depth)?, c.get()),
    }
}

/// Whether a function's variable occurs in its body.
#[tactic(auto, using(crate::proofs::Uses::used))]
pub fn is_used(f: &Normal) -> Result<bool, Memory>
    ensures { IfOk result (λ b. b ≡ is_used f.now) }
{
    match f {
        Normal::Fn(_, c) => uses(0, c.get()),
        _ => Ok(false),
    }
}

/// Whether the variable stands outside all maps: as a row, or else as a type.
#[cycle(holding)]
#[tactic(auto, using(crate::proofs::Uses::held))]
pub fn holds_type(as_row: bool, depth: u32, t: &NormalType) -> bool
    ensures { result ≡ holds_type as_row depth t.now }
{
    match t {
        NormalType::Variable(v) => !as_row && is_here(depth, v),
        NormalType::Opt(x) => holds_type(as_row, depth, x.get()),
        NormalType::Many(x) => holds_type(as_row, depth, x.get()),
        NormalType::Transaction(x) => holds_type(as_row, depth, x.get()),
        NormalType::Arrow(a, b) => {
            holds_type(as_row, depth, a.get()) || holds_type(as_row, depth, b.get())
        }
        NormalType::Record(r) => holds_row(as_row, depth, r),
        NormalType::Form(r) => holds_row(as_row, depth, r),
        _ => false,
    }
}

#[cycle(holding)]
#[tactic(auto, using(crate::proofs::Uses::held))]
fn holds_row(as_row: bool, depth: u32, r: &List<Part>) -> bool
    ensures { result ≡ holds_row as_row depth r.now }
{
    let parts = r.as_slice();
    for i in 0..parts.len() {
        if holds_part(as_row, depth, &parts[i]) {
            return true;
        }
    }
    false
}

#[cycle(holding)]
#[tactic(auto, using(crate::proofs::Uses::held))]
fn holds_part(as_row: bool, depth: u32, p: &Part) -> bool
    ensures { result ≡ holds_part as_row depth p.now }
{
    match p {
        Part::Field(_, t) => holds_type(as_row, depth, t.get()),
        Part::Piece(v) => as_row && is_here(depth, v),
        Part::Mapped(_, _) => false,
    }
}

/// The same for a function's body.
pub fn holds(as_row: bool, n: &Normal) -> bool
    ensures { result ≡ holds as_row n.now }
{
    match n {
        Normal::Type(t) => holds_type(as_row, 0, t),
        Normal::Row(r) => holds_row(as_row, 0, r),
        Normal::Name(_) => false,
        Normal::Fn(_, _) => false,
    }
}
