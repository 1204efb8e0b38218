//! Texts that are made in a run.
ghost use Rattle.std.specs.Prelude.{◌≡◌, ◌++◌, IfOk, OnOk, decimal};
ghost use Rattle.ur_words.specs.Texts as texts;

use crate::counts::LoadReport;
use std::alloc::Global;
use ur_base::{Bytes, List, Memory, Refusal};
use ur_values::Schema;

/// The line of a refusal, with the name of its file.
pub fn refusal_line(alloc: Global, file: &[u8], refusal: &Refusal) -> Result<Bytes, Memory>
    ensures { IfOk result (λ line. line ≡ texts.refusal_line file.now refusal.now) }
{
    let code = refusal.code;
    let from = refusal.span.from;
    let to = refusal.span.to;
    let place = format!(in alloc; ":{from}-{to} ")?;
    let mut line = List::new(alloc);
    line.extend_from_slice(&[b'E', b'0' + code / 10, b'0' + code % 10, b' '])?;
    line.extend_from_slice(file)?;
    line.extend_from_slice(place.as_bytes())?;
    line.extend_from_slice(refusal.left.as_slice())?;
    line.extend_from_slice(b" | ")?;
    line.extend_from_slice(refusal.right.as_slice())?;
    line.push(b'\n')?;
    Ok(line)
}

/// The schema that a store keeps and the application's.
pub fn schema_report(alloc: Global, kept: &Schema, application: &Schema) -> Result<Bytes, Memory>
    ensures { IfOk result (λ text. text ≡ texts.schema_report kept.now application.now) }
{
    let kept = kept.text(alloc)?;
    let application = application.text(alloc)?;
    let mut text = List::new(alloc);
    text.extend_from_slice(b"schema differs\nkept:\n")?;
    text.extend_from_slice(kept.as_slice())?;
    text.extend_from_slice(b"application:\n")?;
    text.extend_from_slice(application.as_slice())?;
    Ok(text)
}

/// Of an accepted project with so many routes.
pub fn check_report(alloc: Global, routes: usize) -> Result<Bytes, Memory>
    ensures { IfOk result (λ text. text ≡ texts.check_report routes) }
{
    let line = format!(in alloc; "ok {routes} routes\n")?;
    let mut text = List::new(alloc);
    text.extend_from_slice(line.as_bytes())?;
    Ok(text)
}

/// Of a server that is about to serve.
pub fn serving_line(alloc: Global, port: u16) -> Result<Bytes, Memory>
    ensures { IfOk result (λ text. text ≡ texts.serving_line port) }
{
    let line = format!(in alloc; "serving on 127.0.0.1:{port}\n")?;
    let mut text = List::new(alloc);
    text.extend_from_slice(line.as_bytes())?;
    Ok(text)
}

/// Of a run of generated requests.
pub fn load_report(alloc: Global, report: &LoadReport) -> Result<Bytes, Memory>
    ensures { IfOk result (λ text. text ≡ texts.load_report report.now) }
{
    let mut text = List::new(alloc);
    write_count(alloc, &mut text, b"requests ", u64::from(report.requests))?;
    write_count(alloc, &mut text, b"capacity 0 reads ", report.plain)?;
    write_count(alloc, &mut text, b"capacity 64 reads ", report.cached)?;
    Ok(text)
}

/// Writes a line that ends in a count.
fn write_count(alloc: Global, out: &mut Bytes, words: &[u8], count: u64) -> Result<(), Memory>
    ensures { OnOk result (out.new ≡ out.old ++ texts.line (words.now ++ decimal count)) }
{
    let digits = format!(in alloc; "{count}")?;
    out.extend_from_slice(words)?;
    out.extend_from_slice(digits.as_bytes())?;
    out.push(b'\n')?;
    Ok(())
}
