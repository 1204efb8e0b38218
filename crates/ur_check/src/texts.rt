//! The names in queries and in XML.
ghost use Rattle.std.specs.Prelude.{◌≡◌, [], ◌∷◌, ◌++◌, OnOk, IfOk, flat_map};
ghost use Rattle.ur_tree.specs.FieldNames.{capital, capital_byte, alias_of, as_names, of_query, of_tag, of_xml_form, of_xml};
ghost use Rattle.ur_check.specs.Parts.{of_selected, of_item, of_xml_part};

use crate::cons::add;
use std::alloc::Global;
use ur_base::{List, Memory, Text};
use ur_rows::copy_text;
use ur_syntax::{
    DeclName, FromItem, Selected, Selection, SqlQuery, TagField, Xml, XmlForm, XmlPart,
};

fn capital_byte(byte: u8) -> u8
    ensures { result ≡ capital_byte byte }
{
    if byte >= 97 && byte <= 122 {
        byte - 32
    } else {
        byte
    }
}

fn capital(alloc: Global, name: &Text) -> Result<Text, Memory>
    ensures { IfOk result (λ text. text ≡ capital name.now) }
{
    let mut text = List::new(alloc);
    if let Some((first, rest)) = name.as_slice().split_first() {
        text.push(capital_byte(*first))?;
        text.extend_from_slice(rest)?;
    }
    Ok(text)
}

fn alias_of(alloc: Global, alias: &Option<Text>, table: &DeclName) -> Result<Text, Memory>
    ensures { IfOk result (λ text. text ≡ alias_of alias.now table.now) }
{
    match alias {
        Some(a) => {
            let text = copy_text(alloc, a)?;
            Ok(text)
        }
        None => {
            let text = capital(alloc, &table.name)?;
            Ok(text)
        }
    }
}

fn item(alloc: Global, out: &mut List<Text>, item: &FromItem) -> Result<(), Memory>
    ensures { OnOk result (out.new ≡ out.old ++ of_item item.now) }
{
    let text = alias_of(alloc, &item.alias, &item.table)?;
    out.push(text)?;
    Ok(())
}

fn items(alloc: Global, out: &mut List<Text>, from: &[FromItem]) -> Result<(), Memory>
    ensures { OnOk result (out.new ≡ out.old ++ flat_map of_item from.now) }
{
    for i in from {
        item(alloc, out, i)?;
    }
    Ok(())
}

fn selected(alloc: Global, out: &mut List<Text>, s: &Selected) -> Result<(), Memory>
    ensures { OnOk result (out.new ≡ out.old ++ of_selected s.now) }
{
    match s {
        Selected::Column(_) => Ok(()),
        Selected::Named(_, a) => {
            add(alloc, out, a)?;
            Ok(())
        }
        Selected::Aggregate(_, _, a) => {
            add(alloc, out, a)?;
            Ok(())
        }
    }
}

fn all_selected(alloc: Global, out: &mut List<Text>, list: &[Selected]) -> Result<(), Memory>
    ensures { OnOk result (out.new ≡ out.old ++ flat_map of_selected list.now) }
{
    for s in list {
        selected(alloc, out, s)?;
    }
    Ok(())
}

fn selection(alloc: Global, out: &mut List<Text>, s: &Selection) -> Result<(), Memory>
    ensures { OnOk result (out.new ≡ out.old ++ as_names s.now) }
{
    match s {
        Selection::All => Ok(()),
        Selection::Items(list) => {
            all_selected(alloc, out, list.as_slice())?;
            Ok(())
        }
    }
}

/// The names in a query: those of its tables, and those after AS.
pub fn query(alloc: Global, out: &mut List<Text>, q: &SqlQuery) -> Result<(), Memory>
    ensures { OnOk result (out.new ≡ out.old ++ of_query q.now) }
{
    selection(alloc, out, &q.selection)?;
    items(alloc, out, q.from.as_slice())?;
    Ok(())
}

fn tag(alloc: Global, out: &mut List<Text>, field: &TagField) -> Result<(), Memory>
    ensures { OnOk result (out.new ≡ out.old ++ of_tag field.now) }
{
    match field {
        TagField::Literal(a) => {
            add(alloc, out, a)?;
            Ok(())
        }
        TagField::Variable(_) => Ok(()),
        TagField::None => Ok(()),
    }
}

#[cycle(parts)]
fn part(alloc: Global, out: &mut List<Text>, p: &XmlPart) -> Result<(), Memory>
    ensures { OnOk result (out.new ≡ out.old ++ of_xml_part p.now) }
{
    match &p.form {
        XmlForm::Text(_) => Ok(()),
        XmlForm::Splice(_) => Ok(()),
        XmlForm::Show(_) => Ok(()),
        XmlForm::Element(t, _, inner) => {
            tag(alloc, out, &t.field)?;
            parts(alloc, out, inner.as_slice())?;
            Ok(())
        }
    }
}

#[cycle(parts)]
fn parts(alloc: Global, out: &mut List<Text>, xs: &[XmlPart]) -> Result<(), Memory>
    ensures { OnOk result (out.new ≡ out.old ++ flat_map of_xml_part xs.now) }
{
    for x in xs {
        part(alloc, out, x)?;
    }
    Ok(())
}

/// The names in XML: those of the fields of its forms.
pub fn xml(alloc: Global, out: &mut List<Text>, x: &Xml) -> Result<(), Memory>
    ensures { OnOk result (out.new ≡ out.old ++ of_xml x.now) }
{
    parts(alloc, out, x.parts.as_slice())?;
    Ok(())
}
