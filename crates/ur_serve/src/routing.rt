//! Which call a request makes, or how it is turned away.
ghost use Rattle.std.specs.Prelude.{◌≡◌, ◌↔◌, ◌<◌, ◌^◌, All, IfOk, IfSome, IsTrue, IsUtf8, length, slice_get};
ghost use Rattle.ur_http.specs.Answers.{is_sent, phrases};
ghost use Rattle.ur_http.specs.Texts.{IsText, IsTextPair};
ghost use Rattle.ur_tags.specs.Paths.{route_path};
ghost use Rattle.ur_tags.specs.Routes.{IsCallOf};
ghost use Rattle.ur_code.specs.RouteTypes.{IsRequestOf};
ghost use Rattle.ur_machine.specs.Cookies as pairs_words;
ghost use Rattle.ur_serve.specs.Replies as words;
ghost use Rattle.ur_serve.specs.Routes.{IsBare, AreBare};
ghost use Rattle.ur_serve.specs.Served.{IsRoutedAs, IfHandled, IfAway};

use crate::Routed;
use std::alloc::Global;
use std::str;
use ur_base::{List, Memory, Name, Text};
use ur_http::{HttpRequest, Method};
use ur_machine::first_value;
use ur_tags::{FormField, Handlers, Route, route};
use ur_values::{Call, Value};

/// The call that a request makes, or the status with which it is turned away: 501 for a method that is not known, 404 for
/// a path that routes nowhere, 405 for a route without the method, and 400 for a form without a text field of the route.
pub fn route_request(
    alloc: Global,
    handlers: &Handlers,
    request: &HttpRequest,
) -> Result<Routed, Memory>
    requires text { IsText request.now }
    requires few { length handlers.now.routes < 2 ^ 32 }
    requires bare { AreBare handlers.now }
    ensures routed { IfOk result (IsRoutedAs (words.routed handlers.now request.now)) }
    ensures call { IfOk result (λ r. IfHandled r (IsRequestOf handlers.now)) }
    ensures status { IfOk result (λ r. IfAway r (λ status methods. IsTrue (is_sent phrases status))) }
{
    let routed = by_path(alloc, handlers, request)?;
    Ok(routed)
}

fn by_path(alloc: Global, handlers: &Handlers, request: &HttpRequest) -> Result<Routed, Memory>
    requires text { IsText request.now }
    requires few { length handlers.now.routes < 2 ^ 32 }
    requires bare { AreBare handlers.now }
    ensures routed { IfOk result (IsRoutedAs (words.routed handlers.now request.now)) }
    ensures call { IfOk result (λ r. IfHandled r (IsRequestOf handlers.now)) }
{
    if is_other(request.method) {
        return Ok(Routed::Away(501, ""));
    }
    match call_at(alloc, handlers, &request.path)? {
        None => Ok(Routed::Away(404, "")),
        Some(call) => {
            let routed = routed_at(alloc, handlers, request, call)?;
            Ok(routed)
        }
    }
}

/// Whether the method is none of those that are told apart.
fn is_other(method: Method) -> bool
    ensures { IsTrue result ↔ (method ≡ Method.Other) }
{
    match method {
        Method::Other => true,
        _ => false,
    }
}

/// The call that a path names.
fn call_at(alloc: Global, handlers: &Handlers, path: &Text) -> Result<Option<Call>, Memory>
    requires text { IsUtf8 path.now }
    requires few { length handlers.now.routes < 2 ^ 32 }
    ensures call { IfOk result (λ call. call ≡ route_path handlers.now path.now) }
    ensures own { IfOk result (λ found. IfSome found (IsCallOf handlers.now)) }
{
    let Ok(path) = str::from_utf8(path.as_slice()) else {
        unreachable!()
    };
    let call = route(alloc, handlers, path)?;
    Ok(call)
}

/// What is done with a request whose path names this call.
fn routed_at(
    alloc: Global,
    handlers: &Handlers,
    request: &HttpRequest,
    call: Call,
) -> Result<Routed, Memory>
    requires own { IsCallOf handlers.now call }
    requires bare { AreBare handlers.now }
    requires text { All IsTextPair request.now.form }
    ensures routed { IfOk result (IsRoutedAs (words.routed_at request.now call (slice_get handlers.now.routes call.route))) }
    ensures call { IfOk result (λ r. IfHandled r (IsRequestOf handlers.now)) }
{
    match handlers.routes.get(call.route as usize) {
        None => Ok(Routed::Away(404, "")),
        Some(route) => {
            let routed = by_method(alloc, route, request, call)?;
            Ok(routed)
        }
    }
}

fn by_method(
    alloc: Global,
    route: &Route,
    request: &HttpRequest,
    call: Call,
) -> Result<Routed, Memory>
    ensures { IfOk result (IsRoutedAs (words.by_method request.now.method route.now request.now.form call)) }
{
    match request.method {
        Method::Get => Ok(answered(route.get, route, call)),
        Method::Head => Ok(answered(route.get, route, call)),
        Method::Post => {
            if !route.post {
                return Ok(Routed::Away(405, allow(route)));
            }
            let made = with_form(alloc, route.form.as_slice(), request.form.as_slice(), call)?;
            Ok(called(made))
        }
        Method::Other => Ok(Routed::Away(501, "")),
    }
}

/// The call is handled where the route answers the method.
fn answered(answers: bool, route: &Route, call: Call) -> Routed
    ensures { IsRoutedAs (words.if_answered answers route.now call) result }
{
    if answers {
        Routed::Handled(call)
    } else {
        Routed::Away(405, allow(route))
    }
}

/// A call that was made of a form is handled.
fn called(made: Option<Call>) -> Routed
    ensures { IsRoutedAs (words.called made) result }
{
    match made {
        Some(call) => Routed::Handled(call),
        None => Routed::Away(400, ""),
    }
}

/// The methods that a route answers.
fn allow(route: &Route) -> &'static str
    ensures { result.now ≡ words.allow route.now }
{
    if route.get {
        if route.post {
            "GET, HEAD, POST"
        } else {
            "GET, HEAD"
        }
    } else {
        "POST"
    }
}

// ---- forms

/// The call with the form's record as its last argument, where the route has a form.
fn with_form(
    alloc: Global,
    fields: &[FormField],
    pairs: &[(Text, Text)],
    call: Call,
) -> Result<Option<Call>, Memory>
    ensures { IfOk result (λ made. made ≡ words.with_form fields.now pairs.now call) }
{
    if fields.is_empty() {
        return Ok(Some(call));
    }
    match form_record(alloc, fields, pairs)? {
        None => Ok(None),
        Some(record_fields) => {
            let made = with_record(call, record_fields)?;
            Ok(Some(made))
        }
    }
}

fn with_record(call: Call, fields: List<(Name, Value)>) -> Result<Call, Memory>
    ensures { IfOk result (λ made. made ≡ words.with_record call fields) }
{
    let Call { route, mut args } = call;
    args.push(Value::Row(fields))?;
    Ok(Call { route, args })
}

/// The fields of a form's record, if no text is missing.
fn form_record(
    alloc: Global,
    fields: &[FormField],
    pairs: &[(Text, Text)],
) -> Result<Option<List<(Name, Value)>>, Memory>
    ensures { IfOk result (λ made. made ≡ words.fields_of fields.now pairs.now) }
{
    let mut made = List::new(alloc);
    for field in fields {
        let Some(value) = field_value(alloc, field, pairs)? else {
            return Ok(None);
        };
        made.push((field.number, value))?;
    }
    Ok(Some(made))
}

/// A field's text, or whether a checkbox is among the pairs.
fn field_value(
    alloc: Global,
    field: &FormField,
    pairs: &[(Text, Text)],
) -> Result<Option<Value>, Memory>
    ensures { IfOk result (λ value. value ≡ words.field_value field.now (pairs_words.first_value field.now.name pairs.now)) }
{
    let given = first_value(&field.name, pairs);
    if field.checkbox {
        return Ok(Some(Value::Bool(given.is_some())));
    }
    match given {
        None => Ok(None),
        Some(text) => {
            let text = List::from_slice(alloc, text.as_slice())?;
            Ok(Some(Value::Str(text)))
        }
    }
}
