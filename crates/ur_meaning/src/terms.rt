//! The terms of expressions.
ghost use Rattle.std.specs.Prelude.{◌≢◌, [], ◌∷◌};
ghost use Rattle.std.specs.List.{AllZip};
ghost use Rattle.ur_meaning.specs.declared.head.Head.TheVariants as head;
ghost use Rattle.ur_meaning.specs.Making.{state, AllMade, OneMade, Pushed};
ghost use Rattle.ur_meaning.specs.Opening.{OpensTo, Shown, ShowsIt, Lasts};

use crate::build::{close, stuck};
use crate::halt::{Halt, enter, enter_stuck};
use crate::head::Opened;
use crate::table::Table;
use std::alloc::Global;
use ur_base::List;
use ur_terms::Term;

/// How many expressions may be the same, each as the next.
const SAME: u32 = 4_194_304;

/// The term of an expression.
#[cycle(terms)]
pub fn term_of<T: Table>(
    alloc: Global,
    table: &mut T,
    room: &mut u32,
    levels: u32,
    piece: &T::Piece,
) -> Result<Term, Halt>
    ensures made { (i : T.Item) → T.stands table.old piece.now i → OneMade (T.language table.old) T.large T.named (state (T.instances table.old) room.old) levels i (state (T.instances table.new) room.new) result }
    ensures lasts { Lasts T.language T.instances T.stands T.sound table.old table.new }
{
    let opened = whole(alloc, table, piece)?;
    node(alloc, table, room, levels, opened)
}

/// The term of a form.
#[cycle(terms)]
fn node<T: Table>(
    alloc: Global,
    table: &mut T,
    room: &mut u32,
    levels: u32,
    opened: Opened<T::Piece>,
) -> Result<Term, Halt>
    ensures made { (i : T.Item) (before : _) → Shown (T.language table.old) (T.stands table.old) before (T.instances table.old) i opened → opened.head ≢ head.Same → OneMade (T.language table.old) T.large T.named (state before room.old) levels i (state (T.instances table.new) room.new) result }
    ensures lasts { Lasts T.language T.instances T.stands T.sound table.old table.new }
{
    if opened.head.is_nothing() {
        enter_stuck(room, levels)?;
        return stuck(alloc);
    }
    let within = enter(room, levels)?;
    let made = terms_of(alloc, table, room, within, &opened.parts)?;
    close(alloc, opened, made)
}

/// The terms of expressions.
#[cycle(terms)]
fn terms_of<T: Table>(
    alloc: Global,
    table: &mut T,
    room: &mut u32,
    levels: u32,
    parts: &List<T::Piece>,
) -> Result<List<Term>, Halt>
    ensures made { (is : _) → AllZip (T.stands table.old) parts.now is → AllMade (T.language table.old) T.large T.named (state (T.instances table.old) room.old) levels is (state (T.instances table.new) room.new) result }
    ensures lasts { Lasts T.language T.instances T.stands T.sound table.old table.new }
{
    let pieces = parts.as_slice();
    let count = pieces.len();
    let mut made = List::new(alloc);
    for place in 0..count {
        push_term(alloc, table, room, levels, &mut made, &pieces[place])?;
    }
    Ok(made)
}

/// A term more.
#[cycle(terms)]
fn push_term<T: Table>(
    alloc: Global,
    table: &mut T,
    room: &mut u32,
    levels: u32,
    made: &mut List<Term>,
    piece: &T::Piece,
) -> Result<(), Halt>
    ensures made { (i : T.Item) → T.stands table.old piece.now i → Pushed (T.language table.old) T.large T.named (state (T.instances table.old) room.old) levels i (state (T.instances table.new) room.new) made.old made.new result }
    ensures lasts { Lasts T.language T.instances T.stands T.sound table.old table.new }
{
    let term = term_of(alloc, table, room, levels, piece)?;
    made.push(term)?;
    Ok(())
}

/// The form of what an expression is the same as.
fn whole<T: Table>(alloc: Global, table: &mut T, piece: &T::Piece) -> Result<Opened<T::Piece>, Halt>
    ensures shown { (i : T.Item) → T.stands table.old piece.now i → ShowsIt (T.language table.old) T.large T.named (T.stands table.new) (T.instances table.old) (T.instances table.new) i result }
    ensures lasts { Lasts T.language T.instances T.stands T.sound table.old table.new }
{
    let mut opened = table.form(alloc, piece)?;
    for _turn in 0..SAME {
        if !opened.head.is_same() {
            return Ok(opened);
        }
        opened = only_part(alloc, table, &opened)?;
    }
    Err(Halt::Memory)
}

/// The form of the only part.
fn only_part<T: Table>(
    alloc: Global,
    table: &mut T,
    opened: &Opened<T::Piece>,
) -> Result<Opened<T::Piece>, Halt>
    ensures form { (i : T.Item) → AllZip (T.stands table.old) opened.now.parts (i ∷ []) → OpensTo (T.language table.old) T.large T.named (T.stands table.new) (T.instances table.old) (T.instances table.new) i result }
    ensures lasts { Lasts T.language T.instances T.stands T.sound table.old table.new }
{
    match opened.parts.get(0) {
        Some(piece) => table.form(alloc, piece),
        None => Err(Halt::Memory),
    }
}
