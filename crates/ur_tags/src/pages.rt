//! Pages as bytes.
ghost use Rattle.std.specs.Prelude.{◌≡◌, ◌++◌, IfOk, OnOk};
ghost use Rattle.std.specs.List.{flat_map};
ghost use Rattle.ur_tags.specs.Show as shown;

use crate::Handlers;
use crate::marks::push_text;
use crate::nodes::push_nodes;
use std::alloc::Global;
use ur_base::{Bytes, List, Memory};
use ur_values::Value;

/// The bytes of a page.
pub fn show(alloc: Global, handlers: &Handlers, page: &Value) -> Result<Bytes, Memory>
    ensures { IfOk result (λ bytes. bytes ≡ shown.show handlers.now page.now) }
{
    let mut out = List::from_slice(alloc, b"<!DOCTYPE html>\n<html>")?;
    push_markup(alloc, handlers, &mut out, page)?;
    out.extend_from_slice(b"</html>")?;
    Ok(out)
}

/// The bytes of a page whose parts have these bytes.
pub fn document(alloc: Global, parts: &[u8]) -> Result<Bytes, Memory>
    ensures { IfOk result (λ bytes. bytes ≡ shown.document parts.now) }
{
    let mut out = List::from_slice(alloc, b"<!DOCTYPE html>\n<html>")?;
    out.extend_from_slice(parts)?;
    out.extend_from_slice(b"</html>")?;
    Ok(out)
}

/// The bytes of the page of a program error, whose body this is.
pub fn show_error(alloc: Global, handlers: &Handlers, body: &Value) -> Result<Bytes, Memory>
    ensures { IfOk result (λ bytes. bytes ≡ shown.show_error handlers.now body.now) }
{
    let mut out = titled(alloc, b"Error")?;
    push_markup(alloc, handlers, &mut out, body)?;
    out.extend_from_slice(b"</body></html>")?;
    Ok(out)
}

/// The bytes of a page of a title and a text.
pub fn show_text(alloc: Global, title: &[u8], text: &[u8]) -> Result<Bytes, Memory>
    ensures { IfOk result (λ bytes. bytes ≡ shown.show_text title.now text.now) }
{
    let mut out = titled(alloc, title)?;
    push_text(&mut out, text)?;
    out.extend_from_slice(b"</body></html>")?;
    Ok(out)
}

/// The beginning of a page with this title, up to what is in its body.
fn titled(alloc: Global, title: &[u8]) -> Result<Bytes, Memory>
    ensures { IfOk result (λ bytes. bytes ≡ shown.before_body (flat_map shown.escape title.now)) }
{
    let mut out = List::from_slice(alloc, b"<!DOCTYPE html>\n<html><head><title>")?;
    push_text(&mut out, title)?;
    out.extend_from_slice(b"</title></head><body>")?;
    Ok(out)
}

/// Adds the nodes of markup, and nothing where the value is no markup.
#[tactic(auto, using(crate::proofs::Equations::shown))]
fn push_markup(
    alloc: Global,
    handlers: &Handlers,
    out: &mut Bytes,
    value: &Value,
) -> Result<(), Memory>
    ensures { OnOk result (out.new ≡ out.old ++ shown.show_markup handlers.now value.now) }
{
    match value {
        Value::Markup(nodes) => push_nodes(alloc, handlers, out, nodes.as_slice()),
        _ => Ok(()),
    }
}
