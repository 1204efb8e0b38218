//! What stands in the text of SQL and of XML.
ghost use Rattle.std.specs.Prelude.{◌≡◌, [], ◌∷◌, ◌++◌, OnOk, flat_map};
ghost use Rattle.ur_names.specs.declared.event.Mark.TheVariants as mark;
ghost use Rattle.ur_names.specs.Skeletons.{in_name, in_table, if_there, in_sql, in_sql_exp, in_aggregate, in_selected, in_selection, in_item, in_key, in_limit, in_query, in_assignment, in_change, in_tag_field, in_attr, in_part, in_xml_part};

use crate::event::{Mark, Sort};
use crate::log::copy;
use std::alloc::Global;
use ur_base::{List, Memory, Span};
use ur_syntax::{
    Aggregate, Assignment, Attr, AttrValue, DeclName, FromItem, Limit, OrderKey, Selected,
    Selection, SqlChange, SqlExp, SqlForm, SqlQuery, TagField, XmlForm, XmlPart,
};

fn table(alloc: Global, out: &mut List<Mark>, x: &DeclName) -> Result<(), Memory>
    ensures { OnOk result (out.new ≡ out.old ++ in_table x.now) }
{
    let name = copy(alloc, &x.name)?;
    match &x.module {
        None => {
            out.push(Mark::Own(Sort::Table, x.span, name))?;
            Ok(())
        }
        Some(m) => {
            let home = copy(alloc, m)?;
            out.push(Mark::Member(Sort::Table, x.span, home, name))?;
            Ok(())
        }
    }
}

/// The antiquotes of an expression of SQL.
fn sql(out: &mut List<Mark>, e: &SqlExp) -> Result<(), Memory>
    ensures { OnOk result (out.new ≡ out.old ++ in_sql e.now.form) }
{
    match &e.form {
        SqlForm::Binary(_, a, b) => {
            sql(out, a.get())?;
            sql(out, b.get())?;
            Ok(())
        }
        SqlForm::Not(a) => {
            sql(out, a.get())?;
            Ok(())
        }
        SqlForm::Negative(a) => {
            sql(out, a.get())?;
            Ok(())
        }
        SqlForm::IsNull(a) => {
            sql(out, a.get())?;
            Ok(())
        }
        SqlForm::IsNotNull(a) => {
            sql(out, a.get())?;
            Ok(())
        }
        SqlForm::Some(a) => {
            sql(out, a.get())?;
            Ok(())
        }
        SqlForm::Anti(n) => {
            out.push(Mark::Splice(*n))?;
            Ok(())
        }
        _ => Ok(()),
    }
}

fn if_sql(out: &mut List<Mark>, e: &Option<SqlExp>) -> Result<(), Memory>
    ensures { OnOk result (out.new ≡ out.old ++ if_there in_sql_exp e.now) }
{
    match e {
        None => Ok(()),
        Some(e) => {
            sql(out, e)?;
            Ok(())
        }
    }
}

fn sqls(out: &mut List<Mark>, es: &[SqlExp]) -> Result<(), Memory>
    ensures { OnOk result (out.new ≡ out.old ++ flat_map in_sql_exp es.now) }
{
    for e in es {
        sql(out, e)?;
    }
    Ok(())
}

fn aggregate(out: &mut List<Mark>, a: &Aggregate) -> Result<(), Memory>
    ensures { OnOk result (out.new ≡ out.old ++ in_aggregate a.now) }
{
    match a {
        Aggregate::Count => Ok(()),
        Aggregate::Sum(e) => {
            sql(out, e)?;
            Ok(())
        }
        Aggregate::Min(e) => {
            sql(out, e)?;
            Ok(())
        }
        Aggregate::Max(e) => {
            sql(out, e)?;
            Ok(())
        }
    }
}

fn selected(out: &mut List<Mark>, s: &Selected) -> Result<(), Memory>
    ensures { OnOk result (out.new ≡ out.old ++ in_selected s.now) }
{
    match s {
        Selected::Column(e) => {
            sql(out, e)?;
            Ok(())
        }
        Selected::Named(e, _) => {
            sql(out, e)?;
            Ok(())
        }
        Selected::Aggregate(_, a, _) => {
            aggregate(out, a)?;
            Ok(())
        }
    }
}

fn all_selected(out: &mut List<Mark>, items: &[Selected]) -> Result<(), Memory>
    ensures { OnOk result (out.new ≡ out.old ++ flat_map in_selected items.now) }
{
    for item in items {
        selected(out, item)?;
    }
    Ok(())
}

fn selection(out: &mut List<Mark>, s: &Selection) -> Result<(), Memory>
    ensures { OnOk result (out.new ≡ out.old ++ in_selection s.now) }
{
    match s {
        Selection::All => Ok(()),
        Selection::Items(items) => {
            all_selected(out, items.as_slice())?;
            Ok(())
        }
    }
}

fn item(alloc: Global, out: &mut List<Mark>, i: &FromItem) -> Result<(), Memory>
    ensures { OnOk result (out.new ≡ out.old ++ in_item i.now) }
{
    table(alloc, out, &i.table)?;
    if_sql(out, &i.on)?;
    Ok(())
}

fn items(alloc: Global, out: &mut List<Mark>, from: &[FromItem]) -> Result<(), Memory>
    ensures { OnOk result (out.new ≡ out.old ++ flat_map in_item from.now) }
{
    for i in from {
        item(alloc, out, i)?;
    }
    Ok(())
}

fn keys(out: &mut List<Mark>, order: &[OrderKey]) -> Result<(), Memory>
    ensures { OnOk result (out.new ≡ out.old ++ flat_map in_key order.now) }
{
    for key in order {
        sql(out, &key.key)?;
    }
    Ok(())
}

fn limit(out: &mut List<Mark>, l: &Option<Limit>) -> Result<(), Memory>
    ensures { OnOk result (out.new ≡ out.old ++ if_there in_limit l.now) }
{
    match l {
        None => Ok(()),
        Some(Limit::Int(_)) => Ok(()),
        Some(Limit::Anti(n)) => {
            out.push(Mark::Splice(*n))?;
            Ok(())
        }
    }
}

/// The tables and antiquotes of a query.
pub fn query(alloc: Global, out: &mut List<Mark>, q: &SqlQuery) -> Result<(), Memory>
    ensures { OnOk result (out.new ≡ out.old ++ in_query q.now) }
{
    selection(out, &q.selection)?;
    items(alloc, out, q.from.as_slice())?;
    if_sql(out, &q.filter)?;
    sqls(out, q.group.as_slice())?;
    keys(out, q.order.as_slice())?;
    limit(out, &q.limit)?;
    limit(out, &q.offset)?;
    Ok(())
}

fn assignments(out: &mut List<Mark>, sets: &[Assignment]) -> Result<(), Memory>
    ensures { OnOk result (out.new ≡ out.old ++ flat_map in_assignment sets.now) }
{
    for set in sets {
        sql(out, &set.value)?;
    }
    Ok(())
}

/// The table and the antiquotes of a change.
pub fn change(alloc: Global, out: &mut List<Mark>, c: &SqlChange) -> Result<(), Memory>
    ensures { OnOk result (out.new ≡ out.old ++ in_change c.now) }
{
    match c {
        SqlChange::Insert(_, t, _, values) => {
            table(alloc, out, t)?;
            sqls(out, values.as_slice())?;
            Ok(())
        }
        SqlChange::Update(_, t, sets, filter) => {
            table(alloc, out, t)?;
            assignments(out, sets.as_slice())?;
            if_sql(out, filter)?;
            Ok(())
        }
        SqlChange::Delete(_, t, filter) => {
            table(alloc, out, t)?;
            if_sql(out, filter)?;
            Ok(())
        }
    }
}

fn tag_field(
    alloc: Global,
    out: &mut List<Mark>,
    span: Span,
    field: &TagField,
) -> Result<(), Memory>
    ensures { OnOk result (out.new ≡ out.old ++ in_tag_field span field.now) }
{
    match field {
        TagField::Variable(x) => {
            let name = copy(alloc, x)?;
            out.push(Mark::Own(Sort::Con, span, name))?;
            Ok(())
        }
        _ => Ok(()),
    }
}

fn attributes(out: &mut List<Mark>, attrs: &[Attr]) -> Result<(), Memory>
    ensures { OnOk result (out.new ≡ out.old ++ flat_map in_attr attrs.now) }
{
    for attr in attrs {
        attribute(out, attr)?;
    }
    Ok(())
}

fn attribute(out: &mut List<Mark>, attr: &Attr) -> Result<(), Memory>
    ensures { OnOk result (out.new ≡ out.old ++ in_attr attr.now) }
{
    match &attr.value {
        AttrValue::Text(_) => Ok(()),
        AttrValue::Exp(n) => {
            out.push(Mark::Attribute(*n))?;
            Ok(())
        }
    }
}

/// The variables and expressions of parts of XML.
#[cycle(parts)]
pub fn parts(alloc: Global, out: &mut List<Mark>, xs: &[XmlPart]) -> Result<(), Memory>
    ensures { OnOk result (out.new ≡ out.old ++ flat_map in_xml_part xs.now) }
{
    for x in xs {
        part(alloc, out, x)?;
    }
    Ok(())
}

#[cycle(parts)]
fn part(alloc: Global, out: &mut List<Mark>, x: &XmlPart) -> Result<(), Memory>
    ensures { OnOk result (out.new ≡ out.old ++ in_part x.now.span x.now.form) }
{
    match &x.form {
        XmlForm::Text(_) => Ok(()),
        XmlForm::Splice(n) => {
            out.push(Mark::Splice(*n))?;
            Ok(())
        }
        XmlForm::Show(n) => {
            out.push(Mark::Splice(*n))?;
            Ok(())
        }
        XmlForm::Element(tag, attrs, inner) => {
            tag_field(alloc, out, x.span, &tag.field)?;
            attributes(out, attrs.as_slice())?;
            parts(alloc, out, inner.as_slice())?;
            Ok(())
        }
    }
}
