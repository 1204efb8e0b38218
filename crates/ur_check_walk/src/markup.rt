//! Literals of XML.
ghost use Rattle.std.specs.Prelude.{◌≡◌, Some, None, IfOk, OnOk, true, codes};
ghost use Rattle.std.specs.Option.{option_copied};
ghost use Rattle.ur_base.specs.Stopping.{IfRefused};
ghost use Rattle.ur_syntax.specs.declared.exp.ExpForm.TheVariants as e;
ghost use Rattle.ur_syntax.specs.declared.xml.XmlForm.TheVariants as form;
ghost use Rattle.ur_rows.specs.declared.normal.NormalType.{NormalType as GhostType};
ghost use Rattle.ur_rows.specs.Normal.{known_in};
ghost use Rattle.ur_tree.specs.Places as places;
ghost use Rattle.ur_tree.specs.Places.{Place as GhostPlace};
ghost use Rattle.ur_tree.specs.Text as texts;
ghost use Rattle.ur_typed_rules.specs.Scopes.{World as GhostWorld, Scope as GhostScope};
ghost use Rattle.ur_typed_rules.specs.Arguments.{BreaksFields};
ghost use Rattle.ur_typed_rules.specs.Faults as faults;
ghost use Rattle.ur_xmltype.specs.Tags as tags;
ghost use Rattle.ur_xmltype.specs.Literal as literals;
ghost use Rattle.ur_xmltype.specs.Views.{place_in, sort_in, node_in};
ghost use Rattle.ur_tree.specs.declared.exp.Exp.TheVariants as exp;
ghost use Rattle.ur_typed.specs.Rules as rules;
ghost use Rattle.ur_typed.specs.Rules.{Sites as GhostSites};
ghost use Rattle.ur_typed.specs.Markups as markups;
ghost use Rattle.ur_check_scopes.specs.Views.{Stands, StopIs, Refuses, env_in, mode_of};
ghost use Rattle.ur_check_rules.specs.Views.{out_with};
ghost use Rattle.ur_check_forms.specs.Views.{marks_with, marked_with};
ghost use Rattle.ur_check_walk.specs.Promises.{StandsSomewhere, Gives, Tells};
ghost use Rattle.ur_check_walk.specs.Marking.{GivesParts, TellsParts, GivesPart, TellsPart, GivesNode, TellsNode};

use crate::splices::{shown, spliced, text_out};
use crate::targets::{input, link, submit};
use std::alloc::Global;
use ur_base::{List, Memory, Span, Stop};
use ur_check_forms::{Marked, all_marks, and_marks, form_out, mark_of, no_marks};
use ur_check_rules::{Out, Sites, gives};
use ur_check_scopes::{Around, deeper, fields_apart, label_at, mismatch};
use ur_rows::{Label, NormalType, Part, copy_row, copy_text};
use ur_syntax::{Attr, Exp, FieldName, Tag as WrittenTag, TagField, Xml, XmlForm, XmlPart};
use ur_tree::{Exp as Resolved, Markup, type_text};
use ur_values::Tag;
use ur_xmltype::{Node, Place, Sort, framed, literal_sort, node_at, place_of, sort_type};

/// The expressions that are spliced into a literal, and those of its attributes.
#[derive(Clone, Copy)]
pub struct Within<'a> {
    pub splices: &'a [Exp],
    pub attributes: &'a [Exp],
}

/// A literal of XML.
#[cycle(walk)]
pub fn literal(
    alloc: Global,
    around: &Around,
    sites: &mut Sites,
    span: Span,
    xml: &Xml,
    splices: &List<Exp>,
    attributes: &List<Exp>,
    wanted: Option<&NormalType>,
) -> Result<Out, Stop>
    requires { StandsSomewhere around.now }
    ensures typed { IfOk result (λ o. Gives around.now sites.old (e.Xml xml.now splices.now attributes.now) (mode_of (option_copied wanted.entry)) o sites.new) }
    ensures refused { IfRefused result (Tells around.now sites.old (e.Xml xml.now splices.now attributes.now) (mode_of (option_copied wanted.entry))) }
{
    let parts = xml.parts.as_slice();
    let sort = sort_at(alloc, around, span, parts, wanted)?;
    framed(alloc, span, sort, parts)?;
    let within = Within {
        splices: splices.as_slice(),
        attributes: attributes.as_slice(),
    };
    let place = place_of(sort);
    let marked = parts_out(alloc, around, sites, &within, parts, place)?;
    let made = literal_out(alloc, around, span, sort, marked)?;
    Ok(made)
}

/// The sort of a literal.
fn sort_at(
    alloc: Global,
    around: &Around,
    span: Span,
    parts: &[XmlPart],
    wanted: Option<&NormalType>,
) -> Result<Sort, Stop>
    ensures sort { IfOk result (λ s. literals.sort_of_literal parts.now (option_copied wanted.entry) ≡ Some (sort_in s)) }
    ensures refused { IfRefused result (λ r. (t : GhostType) × (option_copied wanted.entry ≡ Some t) × (places.sort_of t ≡ None) × faults.TellsType around.now.world.now.datatype_names r (faults.mismatch (codes "xml") (texts.type_text around.now.world.now.datatype_names t))) }
{
    match literal_sort(parts, wanted) {
        Some(sort) => Ok(sort),
        None => Err(no_sort(alloc, around, span, wanted)),
    }
}

/// A literal where a type is wanted that none has.
fn no_sort(alloc: Global, around: &Around, span: Span, wanted: Option<&NormalType>) -> Stop
    ensures { (t : GhostType) → option_copied wanted.entry ≡ Some t → StopIs around.now.world.now.datatype_names (faults.mismatch (codes "xml") (texts.type_text around.now.world.now.datatype_names t)) result }
{
    match wanted {
        Some(of) => no_xml(alloc, around, span, of),
        None => Stop::Memory,
    }
}

fn no_xml(alloc: Global, around: &Around, span: Span, of: &NormalType) -> Stop
    ensures { StopIs around.now.world.now.datatype_names (faults.mismatch (codes "xml") (texts.type_text around.now.world.now.datatype_names of.now)) result }
{
    match type_text(alloc, around.world.datatype_names.as_slice(), of) {
        Ok(text) => mismatch(alloc, span, b"xml", text.as_slice()),
        Err(_) => Stop::Memory,
    }
}

/// The fields of a literal that is spliced into forms are apart.
fn sort_fits(
    alloc: Global,
    around: &Around,
    span: Span,
    sort: Sort,
    row: &[Part],
) -> Result<(), Stop>
    ensures fits { OnOk result (markups.sort_fits (env_in around.now.scope.cons).known (sort_in sort) row.now ≡ true) }
    ensures refused { IfRefused result (λ r. (sort_in sort ≡ places.fields) × Refuses around.now.world.now.datatype_names (BreaksFields (env_in around.now.scope.cons).known row.now) r) }
{
    match sort {
        Sort::Fields => fields_apart(alloc, around, span, row),
        _ => Ok(()),
    }
}

/// A literal of a sort with these parts.
fn literal_out(
    alloc: Global,
    around: &Around,
    span: Span,
    sort: Sort,
    marked: Marked,
) -> Result<Out, Stop>
    ensures fits { IfOk result (λ o. markups.sort_fits (env_in around.now.scope.cons).known (sort_in sort) marked.row ≡ true) }
    ensures made { IfOk result (λ o. (st : GhostSites) → rules.gives (literals.sort_type (sort_in sort) marked.row) (exp.Xml' (literals.sort_type (sort_in sort) marked.row) (marks_with marked.marks).0 (marks_with marked.marks).1) st ≡ Some (out_with o st)) }
    ensures refused { IfRefused result (λ r. (sort_in sort ≡ places.fields) × Refuses around.now.world.now.datatype_names (BreaksFields (env_in around.now.scope.cons).known marked.row) r) }
{
    sort_fits(alloc, around, span, sort, marked.row.as_slice())?;
    let made = xml_of(alloc, sort, marked)?;
    Ok(made)
}

fn xml_of(alloc: Global, sort: Sort, marked: Marked) -> Result<Out, Memory>
    ensures { IfOk result (λ o. (st : GhostSites) → rules.gives (literals.sort_type (sort_in sort) marked.row) (exp.Xml' (literals.sort_type (sort_in sort) marked.row) (marks_with marked.marks).0 (marks_with marked.marks).1) st ≡ Some (out_with o st)) }
{
    let row = copy_row(alloc, &marked.row)?;
    let at = sort_type(sort, row);
    let of = sort_type(sort, marked.row);
    let made = gives(alloc, of, Resolved::Xml(at, marked.marks))?;
    Ok(made)
}

/// What parts at a place give.
#[cycle(walk)]
pub fn parts_out(
    alloc: Global,
    around: &Around,
    sites: &mut Sites,
    within: &Within,
    parts: &[XmlPart],
    place: Place,
) -> Result<Marked, Stop>
    requires { StandsSomewhere around.now }
    ensures typed { IfOk result (λ d. GivesParts around.now sites.old within.now (place_in place) parts.now d sites.new) }
    ensures refused { IfRefused result (TellsParts around.now sites.old within.now (place_in place) parts.now) }
{
    let mut marked = no_marks(alloc);
    for i in 0..parts.len() {
        let part = &parts[i];
        let one = part_out(alloc, around, sites, within, part, place)?;
        marked = and_marks(marked, one)?;
    }
    let made = all_marks(alloc, marked)?;
    Ok(made)
}

/// What one part gives.
#[cycle(walk)]
fn part_out(
    alloc: Global,
    around: &Around,
    sites: &mut Sites,
    within: &Within,
    part: &XmlPart,
    place: Place,
) -> Result<Marked, Stop>
    requires { StandsSomewhere around.now }
    ensures typed { IfOk result (λ d. GivesPart around.now sites.old within.now (place_in place) part.now.form d sites.new) }
    ensures refused { IfRefused result (TellsPart around.now sites.old within.now (place_in place) part.now.form) }
{
    match &part.form {
        XmlForm::Text(text) => text_out(alloc, part.span, place, text.as_slice()),
        XmlForm::Show(n) => shown(alloc, around, sites, within, part.span, *n, place),
        XmlForm::Splice(n) => spliced(alloc, around, sites, within, part.span, *n, place),
        XmlForm::Element(tag, attrs, parts) => {
            let inner = deeper(around, 1)?;
            element(
                alloc,
                &inner,
                sites,
                within,
                part.span,
                tag,
                attrs.as_slice(),
                parts.as_slice(),
                place,
            )
        }
    }
}

/// The label of a tag's field, where it names one.
fn tag_label(alloc: Global, around: &Around, field: &TagField) -> Result<Option<Label>, Memory>
    ensures { IfOk result (λ l. (w : GhostWorld) (s : GhostScope) → Stands around.now w s → l ≡ tags.label_at (known_in s.names.cons) field.now) }
{
    match field {
        TagField::None => Ok(None),
        TagField::Literal(a) => {
            let name = copy_text(alloc, a)?;
            Ok(Some(Label::Literal(name)))
        }
        TagField::Variable(x) => {
            let name = copy_text(alloc, x)?;
            let label = label_at(alloc, &around.scope.cons, &FieldName::Variable(name))?;
            Ok(Some(label))
        }
    }
}

/// A tag with its attributes and parts.
#[cycle(walk)]
fn element(
    alloc: Global,
    around: &Around,
    sites: &mut Sites,
    within: &Within,
    span: Span,
    tag: &WrittenTag,
    attrs: &[Attr],
    parts: &[XmlPart],
    place: Place,
) -> Result<Marked, Stop>
    requires { StandsSomewhere around.now }
    ensures typed { IfOk result (λ d. GivesPart around.now sites.old within.now (place_in place) (form.Element tag.now attrs.now parts.now) d sites.new) }
    ensures refused { IfRefused result (TellsPart around.now sites.old within.now (place_in place) (form.Element tag.now attrs.now parts.now)) }
{
    let label = tag_label(alloc, around, &tag.field)?;
    let node = node_at(alloc, span, label, place, tag, attrs, parts.is_empty())?;
    let made = node_out(alloc, around, sites, within, span, node, parts, place)?;
    Ok(made)
}

/// A tag by what it is at its place.
#[cycle(walk)]
fn node_out(
    alloc: Global,
    around: &Around,
    sites: &mut Sites,
    within: &Within,
    span: Span,
    node: Node,
    parts: &[XmlPart],
    place: Place,
) -> Result<Marked, Stop>
    requires { StandsSomewhere around.now }
    ensures typed { IfOk result (λ d. GivesNode around.now sites.old within.now (place_in place) parts.now (node_in node.entry) d sites.new) }
    ensures refused { IfRefused result (TellsNode around.now sites.old within.now (place_in place) parts.now (node_in node.entry)) }
{
    match node {
        Node::Element(word, inner) => held(alloc, around, sites, within, word, parts, inner),
        Node::Form => form(alloc, around, sites, within, span, parts),
        Node::Link(n) => link(alloc, around, sites, within, n, parts, place),
        Node::Input(kind, name, value) => {
            input(alloc, around, sites, within, span, kind, name, value)
        }
        Node::Submit(n, value) => submit(alloc, around, sites, within, span, n, value),
    }
}

/// An element with its parts at their place.
#[cycle(walk)]
fn held(
    alloc: Global,
    around: &Around,
    sites: &mut Sites,
    within: &Within,
    word: Tag,
    parts: &[XmlPart],
    inner: Place,
) -> Result<Marked, Stop>
    requires { StandsSomewhere around.now }
    ensures typed { IfOk result (λ d. (p : GhostPlace) → GivesNode around.now sites.old within.now p parts.now (tags.element word (place_in inner)) d sites.new) }
    ensures refused { IfRefused result (λ r. (p : GhostPlace) → TellsNode around.now sites.old within.now p parts.now (tags.element word (place_in inner)) r) }
{
    let marked = parts_out(alloc, around, sites, within, parts, inner)?;
    let made = element_mark(alloc, word, marked)?;
    Ok(made)
}

fn element_mark(alloc: Global, word: Tag, inner: Marked) -> Result<Marked, Memory>
    ensures { IfOk result (λ d. (st : GhostSites) → markups.element_out word (marked_with inner st) ≡ Some (marked_with d st)) }
{
    let Marked {
        row,
        waiting,
        marks,
    } = inner;
    let made = mark_of(alloc, row, waiting, Markup::Element(word, marks))?;
    Ok(made)
}

/// A form with its parts.
#[cycle(walk)]
fn form(
    alloc: Global,
    around: &Around,
    sites: &mut Sites,
    within: &Within,
    span: Span,
    parts: &[XmlPart],
) -> Result<Marked, Stop>
    requires { StandsSomewhere around.now }
    ensures typed { IfOk result (λ d. (p : GhostPlace) → GivesNode around.now sites.old within.now p parts.now tags.form d sites.new) }
    ensures refused { IfRefused result (λ r. (p : GhostPlace) → TellsNode around.now sites.old within.now p parts.now tags.form r) }
{
    let inner = parts_out(alloc, around, sites, within, parts, Place::Form)?;
    let made = form_out(alloc, around, span, inner)?;
    Ok(made)
}
