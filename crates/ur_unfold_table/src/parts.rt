//! Heads with their parts.
ghost use Rattle.std.specs.Prelude.{◌≡◌, [], ◌∷◌, ◌++◌, map};
ghost use Rattle.ur_meaning.specs.declared.head.Head.TheVariants as heads;
ghost use Rattle.ur_unfold_pieces.specs.Keys.{Gives};
ghost use Rattle.ur_unfold_pieces.specs.Told.{told, exp, exps_told, parts_told, held_told};
ghost use Rattle.ur_unfold_table.specs.Opened.{IsOpened};

use std::alloc::Global;
use ur_base::{Boxed, List};
use ur_meaning::{Halt, Head, Opened};
use ur_tree::{Exp, Markup};
use ur_unfold_pieces::Piece;

pub fn leaf<'a>(alloc: Global, head: Head) -> Result<Opened<Piece<'a>>, Halt>
    ensures { IsOpened head [] result }
{
    let parts = List::new(alloc);
    Ok(Opened { head, parts })
}

/// What has no form.
pub fn nothing<'a>(alloc: Global) -> Result<Opened<Piece<'a>>, Halt>
    ensures { IsOpened heads.Nothing [] result }
{
    leaf(alloc, Head::Nothing)
}

pub fn one<'a>(alloc: Global, head: Head, a: Piece<'a>) -> Result<Opened<Piece<'a>>, Halt>
    ensures { IsOpened head (told a.entry ∷ []) result }
{
    let mut parts = List::new(alloc);
    parts.push(a)?;
    Ok(Opened { head, parts })
}

pub fn two<'a>(
    alloc: Global,
    head: Head,
    a: Piece<'a>,
    b: Piece<'a>,
) -> Result<Opened<Piece<'a>>, Halt>
    ensures { IsOpened head (told a.entry ∷ told b.entry ∷ []) result }
{
    let mut parts = List::new(alloc);
    parts.push(a)?;
    parts.push(b)?;
    Ok(Opened { head, parts })
}

pub fn three<'a>(
    alloc: Global,
    head: Head,
    a: Piece<'a>,
    b: Piece<'a>,
    c: Piece<'a>,
) -> Result<Opened<Piece<'a>>, Halt>
    ensures { IsOpened head (told a.entry ∷ told b.entry ∷ told c.entry ∷ []) result }
{
    let mut parts = List::new(alloc);
    parts.push(a)?;
    parts.push(b)?;
    parts.push(c)?;
    Ok(Opened { head, parts })
}

/// Adds expressions to the parts.
pub fn push_exps<'a>(
    parts: &mut List<Piece<'a>>,
    scope: u32,
    exps: &'a List<Exp>,
) -> Result<(), Halt>
    ensures { Gives (λ done. map told parts.new ≡ map told parts.old ++ exps_told scope exps.now) result }
{
    let all = exps.as_slice();
    for i in 0..all.len() {
        parts.push(Piece::Exp(scope, &all[i]))?;
    }
    Ok(())
}

/// Adds parts of XML to the parts.
pub fn push_markups<'a>(
    parts: &mut List<Piece<'a>>,
    scope: u32,
    markups: &'a List<Markup>,
) -> Result<(), Halt>
    ensures { Gives (λ done. map told parts.new ≡ map told parts.old ++ parts_told scope markups.now) result }
{
    let all = markups.as_slice();
    for i in 0..all.len() {
        parts.push(Piece::Part(scope, &all[i]))?;
    }
    Ok(())
}

/// Adds an expression to the parts where there is one.
pub fn push_held<'a>(
    parts: &mut List<Piece<'a>>,
    scope: u32,
    held: &'a Option<Boxed<Exp>>,
) -> Result<(), Halt>
    ensures { Gives (λ done. map told parts.new ≡ map told parts.old ++ held_told scope held.now) result }
{
    match held {
        None => Ok(()),
        Some(e) => {
            parts.push(Piece::Exp(scope, e.get()))?;
            Ok(())
        }
    }
}

/// A head with all these expressions.
pub fn all<'a>(
    alloc: Global,
    head: Head,
    scope: u32,
    exps: &'a List<Exp>,
) -> Result<Opened<Piece<'a>>, Halt>
    ensures { IsOpened head (exps_told scope exps.now) result }
{
    let mut parts = List::new(alloc);
    push_exps(&mut parts, scope, exps)?;
    Ok(Opened { head, parts })
}

/// A head with all these parts of XML.
pub fn kids<'a>(
    alloc: Global,
    head: Head,
    scope: u32,
    markups: &'a List<Markup>,
) -> Result<Opened<Piece<'a>>, Halt>
    ensures { IsOpened head (parts_told scope markups.now) result }
{
    let mut parts = List::new(alloc);
    push_markups(&mut parts, scope, markups)?;
    Ok(Opened { head, parts })
}

/// A head with an expression where there is one.
pub fn held<'a>(
    alloc: Global,
    head: Head,
    scope: u32,
    e: &'a Option<Boxed<Exp>>,
) -> Result<Opened<Piece<'a>>, Halt>
    ensures { IsOpened head (held_told scope e.now) result }
{
    let mut parts = List::new(alloc);
    push_held(&mut parts, scope, e)?;
    Ok(Opened { head, parts })
}

/// A head with one expression.
pub fn boxed_one<'a>(
    alloc: Global,
    head: Head,
    scope: u32,
    e: &'a Boxed<Exp>,
) -> Result<Opened<Piece<'a>>, Halt>
    ensures { IsOpened head (exp scope e.now ∷ []) result }
{
    one(alloc, head, Piece::Exp(scope, e.get()))
}

/// A head with two expressions.
pub fn boxed_two<'a>(
    alloc: Global,
    head: Head,
    scope: u32,
    a: &'a Boxed<Exp>,
    b: &'a Boxed<Exp>,
) -> Result<Opened<Piece<'a>>, Halt>
    ensures { IsOpened head (exp scope a.now ∷ exp scope b.now ∷ []) result }
{
    let first = Piece::Exp(scope, a.get());
    let second = Piece::Exp(scope, b.get());
    two(alloc, head, first, second)
}
