//! Fields of variables, read where they stand.
ghost use Rattle.std.specs.Prelude.{◌≡◌, IfSome, Some, option_and_then};
ghost use Rattle.std.specs.Option.{option_copied};
ghost use Rattle.ur_terms.specs.declared.term.Op.TheVariants as op;
ghost use Rattle.ur_terms.specs.declared.term.Term.TheVariants as term;
ghost use Rattle.ur_terms.specs.Values.{as_fields, field_at};
ghost use Rattle.ur_machine_frames.specs.Fields.{ReadsAs};

use crate::stack::Stack;
use ur_base::Name;
use ur_terms::{Op, Term};
use ur_values::Value;

/// The int, bool or text that a variable, or a field within one, holds.
pub(crate) fn atom_at<'v>(term: &Term, values: &'v Stack<Value>) -> Option<&'v Value>
    ensures { IfSome result (λ x. ReadsAs values.now term.now x.now) }
{
    match value_at(term, values) {
        Some(value) => { if value.is_basic() { Some(value) } else { None } }
        None => None,
    }
}

/// The value that a variable, or a field within one, holds.
#[cycle(fields)]
fn value_at<'v>(term: &Term, values: &'v Stack<Value>) -> Option<&'v Value>
    ensures { IfSome result (λ x. ReadsAs values.now term.now x.now) }
{
    match term {
        Term::Variable(number) => values.get(*number as usize),
        Term::Make(op, args) => match op {
            Op::Project(name) => projected(args.as_slice(), *name, values),
            _ => None,
        },
        _ => None,
    }
}

/// The same of the field with this name of the one argument.
#[cycle(fields)]
fn projected<'v>(args: &[Term], name: Name, values: &'v Stack<Value>) -> Option<&'v Value>
    ensures { IfSome result (λ x. ReadsAs values.now (term.Make (op.Project name) args.now) x.now) }
{
    match args {
        [record] => match value_at(record, values) {
            Some(value) => field_of(value, name),
            None => None,
        },
        _ => None,
    }
}

/// The first field of this name, where the value is a record.
fn field_of(value: &Value, name: Name) -> Option<&Value>
    ensures { IfSome result (λ x. option_and_then (field_at name) (as_fields value.now) ≡ Some x.now) }
{
    match value {
        Value::Row(fields) => field_in(fields.as_slice(), name),
        _ => None,
    }
}

/// The first field of this name.
fn field_in(fields: &[(Name, Value)], name: Name) -> Option<&Value>
    ensures { option_copied result ≡ field_at name fields.now }
{
    match fields.iter().find(|field| field.0.0 == name.0) {
        Some(field) => Some(&field.1),
        None => None,
    }
}
