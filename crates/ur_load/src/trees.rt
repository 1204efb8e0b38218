//! The trees that the bytes of a project's files spell.
ghost use Rattle.std.specs.Prelude.{◌≡◌, ◌≤◌, length, IfOk};
ghost use Rattle.ur_parse_rules.specs.Places.{IfRefused};
ghost use Rattle.ur_lex.specs.Lexing.{IsTokens};
ghost use Rattle.ur_parse_rules.specs.DeclParts.{whole, signature};
ghost use Rattle.ur_load.specs.Sources.{HasTree, HaveTrees, HasSignatureTree, IsSignatureTree, file_limit};
ghost use Rattle.ur_load.specs.Refuses.{RefusesTokens, RefusesSource};
ghost use Rattle.ur_load.specs.Loads.{IfRefusedIn, OnShelf, RefusesModules, RefusesSignature, AreSmall, IsSmall, SaysText, IsStopAt};

use crate::load_end::LoadEnd;
use crate::source::Source;
use std::alloc::Global;
use std::str;
use ur_base::{List, Refusal, Span, Stop, Text};
use ur_lex::{Tokens, lex};
use ur_parse::{parse, parse_signature};
use ur_syntax::{Module, Signature};

/// The refusal of a file that is not UTF-8.
fn not_text(alloc: Global, source: &Source) -> Stop
    ensures { SaysText source.now result }
{
    match Text::from_slice(alloc, source.file.as_slice()) {
        Ok(left) => Stop::Refused(Refusal {
            code: 3,
            span: Span {
                file: source.number,
                from: 0,
                to: 0,
            },
            left,
            right: List::new(alloc),
        }),
        Err(_) => Stop::Memory,
    }
}

/// The tokens of the bytes.
fn tokens_of(alloc: Global, source: &Source) -> Result<Tokens, Stop>
    requires { length source.now.bytes ≤ file_limit }
    ensures tokens { IfOk result (IsTokens source.now.number source.now.bytes) }
    ensures refused { IfRefused result (RefusesTokens source.now) }
{
    let bytes = source.bytes.as_slice();
    match str::from_utf8(bytes) {
        Ok(_) => lex(alloc, source.number, bytes),
        Err(_) => Err(not_text(alloc, source)),
    }
}

/// The tree of a module.
fn tree_of(alloc: Global, source: &Source) -> Result<Module, Stop>
    requires { length source.now.bytes ≤ file_limit }
    ensures tree { IfOk result (HasTree source.now) }
    ensures refused { IfRefused result (RefusesSource whole source.now) }
{
    match tokens_of(alloc, source) {
        Ok(tokens) => parse(alloc, &tokens),
        Err(stop) => Err(stop),
    }
}

/// The tree of a signature.
fn signature_of(alloc: Global, source: &Source) -> Result<Signature, Stop>
    requires { length source.now.bytes ≤ file_limit }
    ensures tree { IfOk result (HasSignatureTree source.now) }
    ensures refused { IfRefused result (RefusesSource signature source.now) }
{
    match tokens_of(alloc, source) {
        Ok(tokens) => parse_signature(alloc, &tokens),
        Err(stop) => Err(stop),
    }
}

/// The place of a refusal in the source: the end of the file where the refusal names none in it.
fn placed(source: &Source, span: Span) -> Span
    requires { length source.now.bytes ≤ file_limit }
    ensures kept { span.file ≡ source.now.number → result ≡ span }
{
    if span.file == source.number {
        span
    } else {
        let end = source.bytes.len() as u32;
        Span {
            file: source.number,
            from: end,
            to: end,
        }
    }
}

/// The stop in the file of this source.
fn refused_at(alloc: Global, source: &Source, stop: Stop) -> LoadEnd
    requires { length source.now.bytes ≤ file_limit }
    ensures { IsStopAt source.now stop result }
{
    match stop {
        Stop::Refused(refusal) => match List::from_slice(alloc, source.file.as_slice()) {
            Ok(file) => {
                let Refusal {
                    code,
                    span,
                    left,
                    right,
                } = refusal;
                let span = placed(source, span);
                let refusal = Refusal {
                    code,
                    span,
                    left,
                    right,
                };
                LoadEnd::Refused { file, refusal }
            }
            Err(_) => LoadEnd::Memory,
        },
        Stop::Memory => LoadEnd::Memory,
    }
}

/// The trees of the modules, in order. Refused with the first that has none.
pub fn trees_of(alloc: Global, sources: &[Source]) -> Result<List<Module>, LoadEnd>
    requires { AreSmall sources.now }
    ensures trees { IfOk result (HaveTrees sources.now) }
    ensures refused { IfRefusedIn result (RefusesModules sources.now) }
    ensures no_shelf { OnShelf result ⊥ }
{
    let mut trees = List::new(alloc);
    for source in sources {
        match tree_of(alloc, source) {
            Ok(tree) => trees.push(tree)?,
            Err(stop) => return Err(refused_at(alloc, source, stop)),
        }
    }
    Ok(trees)
}

/// The tree of the signature, where there is one.
pub fn signature_tree(alloc: Global, found: &Option<Source>) -> Result<Option<Signature>, LoadEnd>
    requires { IsSmall found.now }
    ensures tree { IfOk result (IsSignatureTree found.now) }
    ensures refused { IfRefusedIn result (RefusesSignature found.now) }
    ensures no_shelf { OnShelf result ⊥ }
{
    let Some(source) = found else {
        return Ok(None);
    };
    match signature_of(alloc, source) {
        Ok(tree) => Ok(Some(tree)),
        Err(stop) => Err(refused_at(alloc, source, stop)),
    }
}
