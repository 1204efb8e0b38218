//! An empty store under its first schema.
ghost use Rattle.std.specs.Prelude.{◌≡◌, ◌≢◌, ◌∷◌, ℕ, ◌+◌, ◌<◌, ◌≤◌, pos, [], true, None, IfOk, OnOk, OnErr};
ghost use Rattle.ur_base.specs.Counts.{HasCause};
ghost use Rattle.ur_base.specs.Told.{WhereTold};
ghost use Rattle.ur_keeper_bodies.specs.Bodies.{IsOpened, body_at, bodies_of};
ghost use Rattle.ur_keeper_bodies.specs.declared.bodies.BodyChange.TheVariants as change;
ghost use Rattle.ur_keeper_kept.specs.Laid.{text_at, table_tab, HasShortNames};
ghost use Rattle.ur_keeper_kept.specs.Faults.{Finds, IsFaultyStore};
ghost use Rattle.ur_keeper_kept.specs.Attach.{Starts, ones};

use crate::reading::table_tab;
use crate::stock::Stock;
use std::alloc::Global;
use ur_base::{List, Memory, Text};
use ur_keeper::KeeperEnd;
use ur_keeper_bodies::{Bodies, BodyChange, number_bytes, stored_text};
use ur_values::Schema;

/// Keeps the schema in an empty store.
pub(crate) fn start<B: Bodies>(
    alloc: Global,
    stock: &mut Stock<B>,
    schema: &Schema,
) -> Result<(), KeeperEnd>
    requires opened { B.opened stock.old.bodies ≡ true }
    requires short { HasShortNames schema.now }
    requires none { WhereTold (B.bodies stock.old.bodies) (λ m. None ≡ text_at m) }
    ensures starts { OnOk result (Starts schema.now (B.bodies stock.old.bodies) (B.bodies stock.new.bodies)) }
    ensures same { OnErr result (B.bodies stock.new.bodies ≡ B.bodies stock.old.bodies) }
    ensures stays_open { B.opened stock.new.bodies ≡ true }
    ensures first { B.tells_at_first stock.new.bodies ≡ B.tells_at_first stock.old.bodies }
    ensures found { Finds result stock.old.found stock.new.found (B.bodies stock.old.bodies) (IsFaultyStore schema.now) }
    ensures cause { HasCause KeeperEnd.Failed (B.faults stock.old.bodies + stock.old.found) (B.faults stock.new.bodies + stock.new.found) result }
{
    let text = stored_text(alloc, schema)?;
    let tables = schema.tables.len();
    let sequences = schema.sequences.len();
    no_rows(stock, tables)?;
    no_numbers(stock, sequences)?;
    let changes = first_changes(alloc, text, sequences)?;
    stock.write(changes.as_slice())?;
    Ok(())
}

/// That the tables have no rows. More tables than `u32` has numbers take memory that is not had.
fn no_rows<B: Bodies>(stock: &mut Stock<B>, tables: usize) -> Result<(), KeeperEnd>
    requires opened { B.opened stock.old.bodies ≡ true }
    ensures empty { OnOk result (WhereTold (B.bodies stock.old.bodies) (λ m. (i : ℕ) → i < tables → bodies_of m (table_tab i) ≡ [])) }
    ensures same { IsOpened (B.bodies stock.old.bodies) (B.bodies stock.new.bodies) (B.opened stock.new.bodies) }
    ensures first { B.tells_at_first stock.new.bodies ≡ B.tells_at_first stock.old.bodies }
    ensures found { Finds result stock.old.found stock.new.found (B.bodies stock.old.bodies) (λ m. ((i : ℕ) → i < tables → bodies_of m (table_tab i) ≡ []) → ⊥) }
    ensures cause { HasCause KeeperEnd.Failed (B.faults stock.old.bodies + stock.old.found) (B.faults stock.new.bodies + stock.new.found) result }
{
    for place in 0..tables {
        no_row(stock, place)?;
    }
    Ok(())
}

fn no_row<B: Bodies>(stock: &mut Stock<B>, place: usize) -> Result<(), KeeperEnd>
    requires opened { B.opened stock.old.bodies ≡ true }
    ensures empty { OnOk result (WhereTold (B.bodies stock.old.bodies) (λ m. bodies_of m (table_tab place) ≡ [])) }
    ensures same { IsOpened (B.bodies stock.old.bodies) (B.bodies stock.new.bodies) (B.opened stock.new.bodies) }
    ensures first { B.tells_at_first stock.new.bodies ≡ B.tells_at_first stock.old.bodies }
    ensures found { Finds result stock.old.found stock.new.found (B.bodies stock.old.bodies) (λ m. bodies_of m (table_tab place) ≢ []) }
    ensures cause { HasCause KeeperEnd.Failed (B.faults stock.old.bodies + stock.old.found) (B.faults stock.new.bodies + stock.new.found) result }
{
    let Ok(table) = u32::try_from(place) else {
        return Err(KeeperEnd::Memory);
    };
    let found = stock.read(table_tab(table))?;
    if found.is_empty() {
        return Ok(());
    }
    Err(stock.fault())
}

/// That the sequences have no numbers. More of them than `u32` has numbers take memory that is not had.
fn no_numbers<B: Bodies>(stock: &mut Stock<B>, sequences: usize) -> Result<(), KeeperEnd>
    requires opened { B.opened stock.old.bodies ≡ true }
    ensures empty { OnOk result (WhereTold (B.bodies stock.old.bodies) (λ m. (i : ℕ) → i < sequences → body_at m (pos 1) (pos i) ≡ None)) }
    ensures low { OnOk result (sequences ≤ 4294967296) }
    ensures same { IsOpened (B.bodies stock.old.bodies) (B.bodies stock.new.bodies) (B.opened stock.new.bodies) }
    ensures first { B.tells_at_first stock.new.bodies ≡ B.tells_at_first stock.old.bodies }
    ensures found { Finds result stock.old.found stock.new.found (B.bodies stock.old.bodies) (λ m. ((i : ℕ) → i < sequences → body_at m (pos 1) (pos i) ≡ None) → ⊥) }
    ensures cause { HasCause KeeperEnd.Failed (B.faults stock.old.bodies + stock.old.found) (B.faults stock.new.bodies + stock.new.found) result }
{
    for place in 0..sequences {
        no_number(stock, place)?;
    }
    Ok(())
}

fn no_number<B: Bodies>(stock: &mut Stock<B>, place: usize) -> Result<(), KeeperEnd>
    requires opened { B.opened stock.old.bodies ≡ true }
    ensures empty { OnOk result (WhereTold (B.bodies stock.old.bodies) (λ m. body_at m (pos 1) (pos place) ≡ None)) }
    ensures low { OnOk result (place < 4294967296) }
    ensures same { IsOpened (B.bodies stock.old.bodies) (B.bodies stock.new.bodies) (B.opened stock.new.bodies) }
    ensures first { B.tells_at_first stock.new.bodies ≡ B.tells_at_first stock.old.bodies }
    ensures found { Finds result stock.old.found stock.new.found (B.bodies stock.old.bodies) (λ m. body_at m (pos 1) (pos place) ≢ None) }
    ensures cause { HasCause KeeperEnd.Failed (B.faults stock.old.bodies + stock.old.found) (B.faults stock.new.bodies + stock.new.found) result }
{
    let Ok(sequence) = u32::try_from(place) else {
        return Err(KeeperEnd::Memory);
    };
    let found = stock.one(1, i64::from(sequence))?;
    match found {
        None => Ok(()),
        Some(_) => Err(stock.fault()),
    }
}

/// The text, and each sequence at 1.
fn first_changes(alloc: Global, text: Text, sequences: usize) -> Result<List<BodyChange>, Memory>
    requires { sequences ≤ 4294967296 }
    ensures { IfOk result (λ changes. changes ≡ change.Add (pos 0) (pos 0) text ∷ ones 0 sequences) }
{
    let mut changes = List::new(alloc);
    changes.push(BodyChange::Add(0, 0, text))?;
    for place in 0..sequences {
        let one = number_bytes(alloc, 1)?;
        changes.push(BodyChange::Add(1, place as i64, one))?;
    }
    Ok(changes)
}
