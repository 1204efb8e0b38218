//! The fields of forms.
ghost use Rattle.std.specs.Prelude.{◌≡◌, ◌++◌, OnOk};
ghost use Rattle.ur_tags.specs.Show as shown;

use crate::marks::{push_attribute, push_attribute_if_any, push_close, push_open};
use ur_base::{Bytes, List, Memory, Text};
use ur_values::FieldKind;

/// Adds a form's field. A text area and a checkbox show no value.
pub fn push_field(
    out: &mut Bytes,
    kind: FieldKind,
    name: &[u8],
    value: &Option<Text>,
) -> Result<(), Memory>
    ensures { OnOk result (out.new ≡ out.old ++ shown.show_field kind name.now value.now) }
{
    match kind {
        FieldKind::Textbox => push_named_input(out, b"text", name, value),
        FieldKind::Password => push_named_input(out, b"password", name, value),
        FieldKind::Checkbox => push_named_input(out, b"checkbox", name, &None),
        FieldKind::Textarea => push_textarea(out, name),
    }
}

fn push_named_input(
    out: &mut Bytes,
    kind: &[u8],
    name: &[u8],
    value: &Option<Text>,
) -> Result<(), Memory>
    ensures { OnOk result (out.new ≡ out.old ++ shown.named_input kind.now name.now value.now) }
{
    push_open(out, b"input")?;
    push_attribute(out, b"type", kind)?;
    push_attribute(out, b"name", name)?;
    push_attribute_if_any(out, b"value", value)?;
    out.extend_from_slice(b"/>")?;
    Ok(())
}

fn push_textarea(out: &mut Bytes, name: &[u8]) -> Result<(), Memory>
    ensures { OnOk result (out.new ≡ out.old ++ shown.show_field FieldKind.Textarea name.now None) }
{
    push_open(out, b"textarea")?;
    push_attribute(out, b"name", name)?;
    out.push(b'>')?;
    push_close(out, b"textarea")?;
    Ok(())
}
