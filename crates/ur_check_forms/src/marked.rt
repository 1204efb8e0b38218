//! What parts of XML give.
ghost use Rattle.std.specs.Prelude.{◌≡◌, ◌++◌, true, false, [], IfOk, OnOk, Some};
ghost use Rattle.std.specs.List.{list_all};
ghost use Rattle.ur_base.specs.Stopping.{IfRefused};
ghost use Rattle.ur_values.specs.declared.value.Tag.TheVariants as tag;
ghost use Rattle.ur_rows.specs.Made.{record_of};
ghost use Rattle.ur_tree.specs.declared.exp.Markup.TheVariants as markup;
ghost use Rattle.ur_typed_rules.specs.Tests.{same_type, are_apart};
ghost use Rattle.ur_typed_rules.specs.Faults.{TellsType, types_differ};
ghost use Rattle.ur_typed.specs.Rules.{Sites as GhostSites};
ghost use Rattle.ur_typed.specs.Markups as markups;
ghost use Rattle.ur_typed.specs.Markups.{Marked as GhostMarked};
ghost use Rattle.ur_check_scopes.specs.Views.{Refuses, env_in};
ghost use Rattle.ur_check_forms.specs.Promises.{TellsForm};
ghost use Rattle.ur_check_forms.specs.Views.{records_in, marks_with, marked_with};
ghost use Rattle.ur_check_forms.specs.Marking.{IsNotTaken, BreaksForm};

use std::alloc::Global;
use ur_base::{List, Memory, Span, Stop};
use ur_check_scopes::{Around, fields_apart, types_differ};
use ur_rows::{NormalType, Part, copy_row, equal_types, joined};
use ur_tree::Markup;
use ur_values::Tag;

/// A button waits for the form around it: its function wants this record of the form's fields.
#[derive(Drop)]
pub struct Waiting {
    pub span: Span,
    pub wanted: NormalType,
}

/// The fields of parts, the records that the buttons among them want, and the resolved parts.
#[derive(Drop)]
pub struct Marked {
    pub row: List<Part>,
    pub waiting: List<Waiting>,
    pub marks: List<Markup>,
}

pub fn no_marks(alloc: Global) -> Marked
    ensures none { (st : GhostSites) → marked_with result st ≡ markups.no_marks st }
    ensures front { (st : GhostSites) (d : GhostMarked) → markups.and_marks (marked_with result st) d ≡ d }
{
    let row = List::new(alloc);
    let waiting = List::new(alloc);
    let marks = List::new(alloc);
    Marked {
        row,
        waiting,
        marks,
    }
}

/// One part.
#[tactic(auto, using(crate::proofs::Marking::marks))]
pub fn mark_of(
    alloc: Global,
    row: List<Part>,
    waiting: List<Waiting>,
    mark: Markup,
) -> Result<Marked, Memory>
    ensures { IfOk result (λ m. (st : GhostSites) → markups.one_mark row (records_in waiting) mark st ≡ Some (marked_with m st)) }
{
    let mut marks = List::new(alloc);
    marks.push(mark)?;
    Ok(Marked {
        row,
        waiting,
        marks,
    })
}

fn both<T: Drop>(mut front: List<T>, more: List<T>) -> Result<List<T>, Memory>
    ensures { IfOk result (λ l. l ≡ front ++ more) }
{
    front.append(more)?;
    Ok(front)
}

/// Parts, and more behind them. Their fields stand in written order until the parts end.
pub fn and_marks(front: Marked, more: Marked) -> Result<Marked, Memory>
    ensures { IfOk result (λ m. (between after : GhostSites) (d : GhostMarked) → markups.and_marks (marked_with m after) d ≡ markups.and_marks (marked_with front between) (markups.and_marks (marked_with more after) d)) }
{
    let row = both(front.row, more.row)?;
    let waiting = both(front.waiting, more.waiting)?;
    let marks = both(front.marks, more.marks)?;
    Ok(Marked {
        row,
        waiting,
        marks,
    })
}

/// Parts to their end: their fields make a row.
pub fn all_marks(alloc: Global, marked: Marked) -> Result<Marked, Memory>
    ensures { IfOk result (λ m. (st : GhostSites) → markups.and_marks (marked_with marked st) (markups.no_marks st) ≡ marked_with m st) }
{
    let none = List::new(alloc);
    let row = joined(marked.row, none)?;
    Ok(Marked {
        row,
        waiting: marked.waiting,
        marks: marked.marks,
    })
}

pub fn same(a: &NormalType, b: &NormalType) -> bool
    ensures { result ≡ same_type a.now b.now }
{
    equal_types(a, b)
}

/// The button takes the record.
fn is_taken(
    alloc: Global,
    around: &Around,
    whole: &NormalType,
    waiting: &Waiting,
) -> Result<(), Stop>
    ensures ok { OnOk result (same_type whole.now waiting.now.wanted ≡ true) }
    ensures refused { IfRefused result (λ r. (same_type whole.now waiting.now.wanted ≡ false) × TellsType around.now.world.now.datatype_names r (types_differ around.now.world.now.datatype_names whole.now waiting.now.wanted)) }
{
    if same(whole, &waiting.wanted) {
        return Ok(());
    }
    let names = around.world.datatype_names.as_slice();
    Err(types_differ(alloc, names, waiting.span, whole, &waiting.wanted))
}

/// Each button takes the record.
fn are_taken(
    alloc: Global,
    around: &Around,
    whole: &NormalType,
    waiting: &[Waiting],
) -> Result<(), Stop>
    ensures ok { OnOk result (list_all (same_type whole.now) (records_in waiting.now) ≡ true) }
    ensures refused { IfRefused result (Refuses around.now.world.now.datatype_names (IsNotTaken around.now.world.now.datatype_names whole.now (records_in waiting.now))) }
{
    for i in 0..waiting.len() {
        is_taken(alloc, around, whole, &waiting[i])?;
    }
    Ok(())
}

#[tactic(auto, using(crate::proofs::Marking::marks))]
fn record_type(alloc: Global, row: &List<Part>) -> Result<NormalType, Memory>
    ensures { IfOk result (λ t. t ≡ record_of row.now) }
{
    let copy = copy_row(alloc, row)?;
    Ok(NormalType::Record(copy))
}

/// The fields are apart, and each button wants the record of them.
fn form_fits(
    alloc: Global,
    around: &Around,
    span: Span,
    row: &List<Part>,
    waiting: &[Waiting],
) -> Result<(), Stop>
    ensures apart { OnOk result (are_apart (env_in around.now.scope.cons).known row.now ≡ true) }
    ensures taken { OnOk result (list_all (same_type (record_of row.now)) (records_in waiting.now) ≡ true) }
    ensures refused { IfRefused result (Refuses around.now.world.now.datatype_names (BreaksForm around.now.world.now.datatype_names (env_in around.now.scope.cons).known row.now (records_in waiting.now))) }
{
    fields_apart(alloc, around, span, row.as_slice())?;
    let whole = record_type(alloc, row)?;
    are_taken(alloc, around, &whole, waiting)?;
    Ok(())
}

fn form_mark(alloc: Global, marks: List<Markup>) -> Result<Marked, Memory>
    ensures { IfOk result (λ m. (st : GhostSites) → markups.one_mark [] [] (markup.Element' tag.Form (marks_with marks).0 (marks_with marks).1) st ≡ Some (marked_with m st)) }
{
    let row = List::new(alloc);
    let waiting = List::new(alloc);
    mark_of(alloc, row, waiting, Markup::Element(Tag::Form, marks))
}

/// A form with these parts: its fields are apart, and each button in it wants the record of them.
pub fn form_out(alloc: Global, around: &Around, span: Span, inner: Marked) -> Result<Marked, Stop>
    ensures form { IfOk result (λ m. (st : GhostSites) → markups.form_out (env_in around.now.scope.cons).known (marked_with inner st) ≡ Some (marked_with m st)) }
    ensures refused { IfRefused result (TellsForm around.now inner) }
{
    form_fits(alloc, around, span, &inner.row, inner.waiting.as_slice())?;
    let made = form_mark(alloc, inner.marks)?;
    Ok(made)
}
