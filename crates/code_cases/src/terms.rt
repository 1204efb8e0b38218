//! Terms, as cases write them: words in postfix order. A word is a name, behind `:` what it is of, and behind `/` how many of the terms
//! before it it takes.
use crate::sorts::sort;
use crate::words::{number, text};
use std::alloc::Global;
use ur_base::{Boxed, List, Memory, Name};
use ur_terms::{AnswerForm, Branch, Op, Pattern, Term};
use ur_values::{FieldKind, Tag, ValueType};

/// The last operand.
fn last(stack: &mut Vec<Term>) -> Result<Term, Memory> {
    match stack.pop() {
        Some(term) => Ok(term),
        None => Err(Memory),
    }
}

fn boxed(alloc: Global, stack: &mut Vec<Term>) -> Result<Boxed<Term>, Memory> {
    let term = last(stack)?;
    Boxed::new(alloc, term)
}

/// So many of the last terms, in their order.
fn taken(stack: &mut Vec<Term>, count: u32) -> Result<List<Term>, Memory> {
    let from = stack.len().saturating_sub(count as usize);
    let terms = stack.split_off(from)?;
    Ok(List::from_vec(terms))
}

// ---- what holds terms

fn choice(alloc: Global, stack: &mut Vec<Term>) -> Result<Term, Memory> {
    let no = boxed(alloc, stack)?;
    let yes = boxed(alloc, stack)?;
    let test = boxed(alloc, stack)?;
    Ok(Term::If(test, yes, no))
}

fn bound(alloc: Global, stack: &mut Vec<Term>, count: u32) -> Result<Term, Memory> {
    let body = boxed(alloc, stack)?;
    let values = taken(stack, count)?;
    Ok(Term::Let(values, body))
}

fn each(alloc: Global, stack: &mut Vec<Term>) -> Result<Term, Memory> {
    let body = boxed(alloc, stack)?;
    let rows = boxed(alloc, stack)?;
    Ok(Term::Each(rows, body))
}

/// `_` is any value, `n` and `s` are nothing and something of an option, `e` and `c` lists without an item and with one, `T` is a bool, a
/// digit an int, and `A` to `H` are constructors.
pub fn pattern(byte: u8) -> Pattern {
    match byte {
        b'_' => Pattern::Any,
        b'n' => Pattern::Absent,
        b's' => Pattern::Present,
        b'e' => Pattern::Empty,
        b'c' => Pattern::Cons,
        b'0'..=b'9' => Pattern::Int(i64::from(byte - b'0')),
        b'A'..=b'H' => Pattern::Tagged(u32::from(byte - b'A')),
        _ => Pattern::Bool(true),
    }
}

fn push_branch(branches: &mut List<Branch>, stack: &mut Vec<Term>, byte: u8) -> Result<(), Memory> {
    let body = last(stack)?;
    let pattern = pattern(byte);
    branches.push(Branch { pattern, body })
}

/// A branch for each of the patterns. The body of the first one stands last.
fn case(alloc: Global, stack: &mut Vec<Term>, patterns: &str) -> Result<Term, Memory> {
    let branches = branches(alloc, stack, patterns)?;
    let of = boxed(alloc, stack)?;
    Ok(Term::Case(of, branches))
}

fn branches(alloc: Global, stack: &mut Vec<Term>, patterns: &str) -> Result<List<Branch>, Memory> {
    let mut branches = List::new(alloc);
    for byte in patterns.as_bytes() {
        push_branch(&mut branches, stack, *byte)?;
    }
    Ok(branches)
}

// ---- operations

/// Operators, and what is done with records, options, lists and texts.
fn operator(name: &str) -> Option<Op> {
    match name {
        "add" => Some(Op::Add),
        "sub" => Some(Op::Sub),
        "div" => Some(Op::Div),
        "neg" => Some(Op::Neg),
        "eq" => Some(Op::Equal),
        "less" => Some(Op::Less),
        "shown" => Some(Op::Shown),
        "page" => Some(Op::Markup(ValueType::Page)),
        "body" => Some(Op::Markup(ValueType::Xbody)),
        "fail" => Some(Op::Fail(ValueType::Page)),
        _ => None,
    }
}

/// What is done with what the program declares, by its number.
fn declared(name: &str, n: u32) -> Option<Op> {
    match name {
        "ask" => Some(Op::Ask(AnswerForm::All, n)),
        "one" => Some(Op::Ask(AnswerForm::One, n)),
        "write" => Some(Op::Write(n)),
        "next" => Some(Op::Next(n)),
        "get" => Some(Op::GetCookie(n)),
        "set" => Some(Op::SetCookie(n)),
        "of" => Some(Op::Project(Name(n))),
        "tag" => Some(Op::Tagged(n)),
        _ => None,
    }
}

/// The element of this word, `br` where there is none.
pub fn element(word: &str) -> Tag {
    match word {
        "head" => Tag::Head,
        "title" => Tag::Title,
        "body" => Tag::Body,
        "h1" => Tag::H1,
        "p" => Tag::P,
        "div" => Tag::Div,
        "td" => Tag::Td,
        "form" => Tag::Form,
        _ => Tag::Br,
    }
}

/// A record with these names, by their numbers.
fn record(alloc: Global, names: &str) -> Result<Op, Memory> {
    let mut numbers = List::new(alloc);
    for name in names.split(',') {
        numbers.push(Name(number(name)))?;
    }
    Ok(Op::Record(numbers))
}

/// A text field of the first name, which is written so.
fn input(alloc: Global, name: &str) -> Result<Op, Memory> {
    let text = text(alloc, name)?;
    Ok(Op::Input {
        kind: FieldKind::Textbox,
        name: Name(0),
        text,
    })
}

/// A route and how many arguments it has, with `u` where a unit is the last of them.
fn called(of: &str) -> (u32, u32, bool) {
    let (route, args) = of.split_once(',').unwrap_or((of, ""));
    let count = args.strip_suffix('u').unwrap_or(args);
    (number(route), number(count), count.len() < args.len())
}

fn link(of: &str) -> Op {
    let (route, args, _unit) = called(of);
    Op::Link { route, args }
}

fn submit(of: &str) -> Op {
    let (route, args, unit) = called(of);
    Op::Submit { route, args, unit }
}

/// The operation of this name, and of what stands behind `:`.
pub fn operation(alloc: Global, name: &str, of: &str) -> Result<Op, Memory> {
    match name {
        "text" => return Ok(Op::Text(text(alloc, of)?)),
        "record" => return record(alloc, of),
        "input" => return input(alloc, of),
        "link" => return Ok(link(of)),
        "submit" => return Ok(submit(of)),
        "element" => return Ok(Op::Element(element(of))),
        "none" => return Ok(Op::Absent(sort(alloc, of)?)),
        _ => {}
    }
    match operator(name) {
        Some(op) => Ok(op),
        None => declared(name, number(of)).ok_or(Memory),
    }
}

fn made(
    alloc: Global,
    stack: &mut Vec<Term>,
    name: &str,
    of: &str,
    count: u32,
) -> Result<Term, Memory> {
    let op = operation(alloc, name, of)?;
    let args = taken(stack, count)?;
    Ok(Term::Make(op, args))
}

// ---- terms

/// `v:0` is a variable, `i:1` an int, `s:a` a string, and `true` a bool.
fn leaf(alloc: Global, name: &str, of: &str) -> Result<Option<Term>, Memory> {
    match name {
        "v" => Ok(Some(Term::Variable(number(of)))),
        "i" => Ok(Some(Term::Int(of.parse::<i64>().unwrap_or(0)))),
        "s" => Ok(Some(Term::Str(text(alloc, of)?))),
        "true" => Ok(Some(Term::Bool(true))),
        _ => Ok(None),
    }
}

/// `if` has three terms before it, `let` its values and a body, `each` a list and a body, `case` what it is of and the bodies of its
/// branches, and `call` the arguments of a function.
fn around(
    alloc: Global,
    stack: &mut Vec<Term>,
    name: &str,
    of: &str,
    count: u32,
) -> Result<Term, Memory> {
    match name {
        "if" => choice(alloc, stack),
        "let" => bound(alloc, stack, count),
        "each" => each(alloc, stack),
        "case" => case(alloc, stack, of),
        "call" => Ok(Term::Call(number(of), taken(stack, count)?)),
        _ => made(alloc, stack, name, of, count),
    }
}

fn step(alloc: Global, stack: &mut Vec<Term>, word: &str) -> Result<(), Memory> {
    let (word, count) = word.split_once('/').unwrap_or((word, ""));
    let (name, of) = word.split_once(':').unwrap_or((word, ""));
    let next = match leaf(alloc, name, of)? {
        Some(term) => term,
        None => around(alloc, stack, name, of, number(count))?,
    };
    stack.push(next)?;
    Ok(())
}

/// The term of these words.
pub fn term(alloc: Global, words: &str) -> Result<Term, Memory> {
    let mut stack = Vec::new(alloc);
    for word in words.split_ascii_whitespace() {
        step(alloc, &mut stack, word)?;
    }
    last(&mut stack)
}
