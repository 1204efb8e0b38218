//! Taking a store for a schema.
ghost use Rattle.std.specs.Prelude.{◌≡◌, ◌≢◌, ◌+◌, ◌≤◌, true, All, Some, None, IsSome, IfOk, OnErr, IfSome, IfNone, IsTrue};
ghost use Rattle.ur_base.specs.Counts.{HasCause};
ghost use Rattle.ur_base.specs.Told.{WhereTold};
ghost use Rattle.ur_values.specs.declared.schema.Schema.{Schema as SchemaOf};
ghost use Rattle.ur_values.specs.Named.{IsNamed};
ghost use Rattle.ur_values.specs.SchemaText.{schema_text};
ghost use Rattle.ur_keeper.specs.Keeper.{IsReadAs};
ghost use Rattle.ur_keeper_bodies.specs.Columns.{IsShort};
ghost use Rattle.ur_keeper_bodies.specs.Stored.{stored_text};
ghost use Rattle.ur_keeper_kept.specs.Laid.{text_at, HasShortNames};
ghost use Rattle.ur_keeper_kept.specs.Kept.{no_changes, IsGoodFor};
ghost use Rattle.ur_keeper_kept.specs.Faults.{Finds, IsFaultyStore};
ghost use Rattle.ur_keeper_kept.specs.Attach.{IsSame, IsAnswer, Again, First, Reads, kept_after};

use crate::growing::grow;
use crate::starting::start;
use crate::stock::Stock;
use std::alloc::Global;
use ur_base::{Bytes, Memory};
use ur_keeper::{Attached, KeeperEnd};
use ur_keeper_bodies::{Bodies, Layout, parted, read_schema, stored_text};
use ur_values::{Schema, TableShape};

/// Takes the store for this schema. Names of columns that 4 bytes do not count take memory that is not had.
pub(crate) fn attach_to<B: Bodies>(
    alloc: Global,
    stock: &mut Stock<B>,
    kept: &mut Option<Schema>,
    schema: &Schema,
) -> Result<Attached, KeeperEnd>
    requires opens { IsSome kept.old → B.opened stock.old.bodies ≡ true }
    requires good { IsGoodFor kept.old (B.bodies stock.old.bodies) no_changes }
    ensures answer { IfOk result (λ answer. IsAnswer schema.now answer (B.tells_at_first stock.old.bodies) (B.tells_at_first stock.new.bodies) (B.bodies stock.old.bodies) (B.bodies stock.new.bodies) kept.old kept.new) }
    ensures same { OnErr result (IsSame (B.tells_at_first stock.old.bodies) (B.tells_at_first stock.new.bodies) (B.bodies stock.old.bodies) (B.bodies stock.new.bodies) kept.old kept.new) }
    ensures opens { IsSome kept.new → B.opened stock.new.bodies ≡ true }
    ensures found { Finds result stock.old.found stock.new.found (B.bodies stock.new.bodies) (IsFaultyStore schema.now) }
    ensures cause { HasCause KeeperEnd.Failed (B.faults stock.old.bodies + stock.old.found) (B.faults stock.new.bodies + stock.new.found) result }
{
    if !has_short_names(schema) {
        return Err(KeeperEnd::Memory);
    }
    stock.open()?;
    match &*kept {
        Some(known) => {
            let known = known.copy(alloc)?;
            let answer = attach_known(alloc, stock, kept, &known, schema)?;
            Ok(answer)
        }
        None => {
            let answer = attach_new(alloc, stock, kept, schema)?;
            Ok(answer)
        }
    }
}

/// Whether 4 bytes count each name of a column.
fn has_short_names(schema: &Schema) -> bool
    ensures { IsTrue result → HasShortNames schema.now }
{
    for shape in schema.tables.as_slice() {
        if !are_short(shape) {
            return false;
        }
    }
    true
}

fn are_short(shape: &TableShape) -> bool
    ensures { IsTrue result → All (λ c. IsShort c.0) shape.now.columns }
{
    for column in shape.columns.as_slice() {
        if column.0.len() > u32::MAX as usize {
            return false;
        }
    }
    true
}

/// Takes a store that had no `attach` that was Ready.
fn attach_new<B: Bodies>(
    alloc: Global,
    stock: &mut Stock<B>,
    kept: &mut Option<Schema>,
    schema: &Schema,
) -> Result<Attached, KeeperEnd>
    requires opened { B.opened stock.old.bodies ≡ true }
    requires short { HasShortNames schema.now }
    requires none { kept.old ≡ None }
    ensures answer { IfOk result (λ answer. First schema.now answer (B.bodies stock.old.bodies) (B.bodies stock.new.bodies)) }
    ensures kept { IfOk result (λ answer. kept.new ≡ kept_after schema.now None answer) }
    ensures same { OnErr result ((B.bodies stock.new.bodies ≡ B.bodies stock.old.bodies) × (kept.new ≡ None)) }
    ensures stays_open { B.opened stock.new.bodies ≡ true }
    ensures first { B.tells_at_first stock.new.bodies ≡ B.tells_at_first stock.old.bodies }
    ensures found { Finds result stock.old.found stock.new.found (B.bodies stock.old.bodies) (IsFaultyStore schema.now) }
    ensures cause { HasCause KeeperEnd.Failed (B.faults stock.old.bodies + stock.old.found) (B.faults stock.new.bodies + stock.new.found) result }
{
    let copy = schema.copy(alloc)?;
    let answer = attach_first(alloc, stock, schema)?;
    match answer {
        Attached::Ready => {
            *kept = Some(copy);
            Ok(Attached::Ready)
        }
        Attached::Differs(other) => Ok(Attached::Differs(other)),
    }
}

/// Takes a store that has had an `attach` that was Ready.
fn attach_known<B: Bodies>(
    alloc: Global,
    stock: &mut Stock<B>,
    kept: &mut Option<Schema>,
    known: &Schema,
    schema: &Schema,
) -> Result<Attached, KeeperEnd>
    requires opened { B.opened stock.old.bodies ≡ true }
    requires short { HasShortNames schema.now }
    requires known { kept.old ≡ Some known.now }
    requires text { WhereTold (B.bodies stock.old.bodies) (λ m. text_at m ≡ Some (stored_text known.now)) }
    ensures answer { IfOk result (λ answer. Again known.now schema.now answer (B.bodies stock.old.bodies) (B.bodies stock.new.bodies)) }
    ensures kept { IfOk result (λ answer. kept.new ≡ kept_after schema.now (Some known.now) answer) }
    ensures same { OnErr result ((B.bodies stock.new.bodies ≡ B.bodies stock.old.bodies) × (kept.new ≡ Some known.now)) }
    ensures stays_open { B.opened stock.new.bodies ≡ true }
    ensures first { B.tells_at_first stock.new.bodies ≡ B.tells_at_first stock.old.bodies }
    ensures found { Finds result stock.old.found stock.new.found (B.bodies stock.old.bodies) (IsFaultyStore schema.now) }
    ensures cause { HasCause KeeperEnd.Failed (B.faults stock.old.bodies + stock.old.found) (B.faults stock.new.bodies + stock.new.found) result }
{
    let copy = schema.copy(alloc)?;
    let answer = attach_again(alloc, stock, known, schema)?;
    match answer {
        Attached::Ready => {
            *kept = Some(copy);
            Ok(Attached::Ready)
        }
        Attached::Differs(other) => Ok(Attached::Differs(other)),
    }
}

/// Takes a store with a known schema.
fn attach_again<B: Bodies>(
    alloc: Global,
    stock: &mut Stock<B>,
    known: &Schema,
    schema: &Schema,
) -> Result<Attached, KeeperEnd>
    requires opened { B.opened stock.old.bodies ≡ true }
    requires short { HasShortNames schema.now }
    requires text { WhereTold (B.bodies stock.old.bodies) (λ m. text_at m ≡ Some (stored_text known.now)) }
    ensures answer { IfOk result (λ answer. Again known.now schema.now answer (B.bodies stock.old.bodies) (B.bodies stock.new.bodies)) }
    ensures same { OnErr result (B.bodies stock.new.bodies ≡ B.bodies stock.old.bodies) }
    ensures stays_open { B.opened stock.new.bodies ≡ true }
    ensures first { B.tells_at_first stock.new.bodies ≡ B.tells_at_first stock.old.bodies }
    ensures found { Finds result stock.old.found stock.new.found (B.bodies stock.old.bodies) (IsFaultyStore schema.now) }
    ensures cause { HasCause KeeperEnd.Failed (B.faults stock.old.bodies + stock.old.found) (B.faults stock.new.bodies + stock.new.found) result }
{
    if !schema.extends(known) {
        let copy = known.copy(alloc)?;
        return Ok(Attached::Differs(copy));
    }
    let text = stored_text(alloc, known)?;
    let stored = stock.one(0, 0)?;
    if stored != Some(text) {
        return Err(stock.fault());
    }
    grow(alloc, stock, Layout::Two, schema, known)?;
    Ok(Attached::Ready)
}

/// Takes a store of which nothing is known.
fn attach_first<B: Bodies>(
    alloc: Global,
    stock: &mut Stock<B>,
    schema: &Schema,
) -> Result<Attached, KeeperEnd>
    requires opened { B.opened stock.old.bodies ≡ true }
    requires short { HasShortNames schema.now }
    ensures answer { IfOk result (λ answer. First schema.now answer (B.bodies stock.old.bodies) (B.bodies stock.new.bodies)) }
    ensures same { OnErr result (B.bodies stock.new.bodies ≡ B.bodies stock.old.bodies) }
    ensures stays_open { B.opened stock.new.bodies ≡ true }
    ensures first { B.tells_at_first stock.new.bodies ≡ B.tells_at_first stock.old.bodies }
    ensures found { Finds result stock.old.found stock.new.found (B.bodies stock.old.bodies) (IsFaultyStore schema.now) }
    ensures cause { HasCause KeeperEnd.Failed (B.faults stock.old.bodies + stock.old.found) (B.faults stock.new.bodies + stock.new.found) result }
{
    let stored = stock.one(0, 0)?;
    match stored {
        None => {
            start(alloc, stock, schema)?;
            Ok(Attached::Ready)
        }
        Some(stored) => {
            let answer = attach_text(alloc, stock, schema, &stored)?;
            Ok(answer)
        }
    }
}

/// Takes a store that has this text.
fn attach_text<B: Bodies>(
    alloc: Global,
    stock: &mut Stock<B>,
    schema: &Schema,
    stored: &Bytes,
) -> Result<Attached, KeeperEnd>
    requires opened { B.opened stock.old.bodies ≡ true }
    requires short { HasShortNames schema.now }
    requires stored { WhereTold (B.bodies stock.old.bodies) (λ m. Some stored.now ≡ text_at m) }
    ensures answer { IfOk result (λ answer. Reads schema.now stored.now answer (B.bodies stock.old.bodies) (B.bodies stock.new.bodies)) }
    ensures same { OnErr result (B.bodies stock.new.bodies ≡ B.bodies stock.old.bodies) }
    ensures stays_open { B.opened stock.new.bodies ≡ true }
    ensures first { B.tells_at_first stock.new.bodies ≡ B.tells_at_first stock.old.bodies }
    ensures found { Finds result stock.old.found stock.new.found (B.bodies stock.old.bodies) (IsFaultyStore schema.now) }
    ensures cause { HasCause KeeperEnd.Failed (B.faults stock.old.bodies + stock.old.found) (B.faults stock.new.bodies + stock.new.found) result }
{
    let (layout, text) = parted(stored.as_slice());
    let Some(kept) = read_as(alloc, schema, text)? else {
        return Err(stock.fault());
    };
    if !schema.extends(&kept) {
        return Ok(Attached::Differs(kept));
    }
    grow(alloc, stock, layout, schema, &kept)?;
    Ok(Attached::Ready)
}

/// The schema that a text is read as: the given one where the text is its own, and otherwise one with this text, where one is found.
fn read_as(alloc: Global, schema: &Schema, text: &[u8]) -> Result<Option<Schema>, Memory>
    ensures found { IfOk result (λ found. IfSome found (IsReadAs schema.now text.now)) }
    ensures none { IfOk result (λ found. IfNone found ((text.now ≢ schema_text schema.now) × ((s : SchemaOf) → IsNamed s → text.now ≢ schema_text s))) }
{
    let own = schema.text(alloc)?;
    if own.as_slice() == text {
        let copy = schema.copy(alloc)?;
        return Ok(Some(copy));
    }
    let found = read_schema(alloc, text)?;
    Ok(found)
}
