//! First-order code that runs without tables: a list that is gone through by calls, and sums that nest.
ghost use Rattle.std.specs.Prelude.{◌≡◌, ◌∷◌, [], pos, IfOk};
ghost use Rattle.bench.specs.Running as running;
ghost use Rattle.bench.specs.Running.{IsOneList, IsSum, AreSums, IsSafeCall};

use std::alloc::Global;
use ur_base::{Boxed, List, Memory, Name};
use ur_machine_frames::{Pause, Stopped, run_call};
use ur_machine_operations::Operators;
use ur_terms::{Branch, Function, Op, Pattern, Term};
use ur_values::{Value, ValueType};

/// The greatest number of levels: a taller term outgrows the stack.
pub const MOST_LEVELS: u32 = 4_000;

/// The greatest number of times that a sum is taken.
pub const MOST_TIMES: u32 = 1_000_000;

/// The units that a call may take.
const UNITS: u32 = u32::MAX;

/// Counts the rows of a list by a call each, within the call before.
pub fn count_rows(alloc: Global, rows: u32) -> Result<usize, Memory> {
    let functions = counting(alloc)?;
    let args = args(alloc, rows)?;
    number(call(alloc, &functions, args)?)
}

/// Takes a sum of so many ones, each within the one before, so many times.
pub fn sum_nested(alloc: Global, levels: u32, times: u32) -> Result<usize, Memory> {
    let functions = summing(alloc, levels)?;
    sums(alloc, &functions, times)
}

/// The sum of what so many calls give.
fn sums(alloc: Global, functions: &List<Function>, times: u32) -> Result<usize, Memory>
    requires { AreSums functions.now }
{
    let mut all: usize = 0;
    for _ in 0..times {
        let value = call(alloc, functions, List::new(alloc))?;
        all = all.saturating_add(number(value)?);
    }
    Ok(all)
}

/// What a call of the first function gives.
fn call(alloc: Global, functions: &List<Function>, args: List<Value>) -> Result<Value, Memory>
    requires { IsSafeCall functions.now args }
{
    let operations = Operators { alloc };
    let carried = List::new(alloc);
    let Stopped { pause, .. } = run_call(alloc, &operations, functions, 0, args, carried, UNITS);
    match pause {
        Pause::Page(value) => Ok(value),
        _ => Err(Memory),
    }
}

fn number(value: Value) -> Result<usize, Memory> {
    match value {
        Value::Int(number) => match usize::try_from(number) {
            Ok(number) => Ok(number),
            Err(_) => Err(Memory),
        },
        _ => Err(Memory),
    }
}

// ---- rows that are counted

/// One list of so many rows, each of an int and a text.
fn args(alloc: Global, count: u32) -> Result<List<Value>, Memory>
    ensures { IfOk result IsOneList }
{
    let mut rows = List::new(alloc);
    for number in 0..count {
        let row = row(alloc, i64::from(number))?;
        rows.push(row)?;
    }
    let mut args = List::new(alloc);
    args.push(Value::Many(rows))?;
    Ok(args)
}

fn row(alloc: Global, number: i64) -> Result<Value, Memory> {
    let text = List::from_slice(alloc, b"a text")?;
    let mut row = List::new(alloc);
    row.push((Name(0), Value::Int(number)))?;
    row.push((Name(1), Value::Str(text)))?;
    Ok(Value::Row(row))
}

/// The function that counts.
fn counting(alloc: Global) -> Result<List<Function>, Memory>
    ensures { IfOk result (λ functions. functions ≡ running.counting) }
{
    let rows = Boxed::new(alloc, Term::Variable(0))?;
    let branches = branches(alloc)?;
    only(alloc, function(alloc, Term::Case(rows, branches)))
}

fn branches(alloc: Global) -> Result<List<Branch>, Memory>
    ensures { IfOk result (λ branches. branches ≡ running.branches) }
{
    let body = one_and_rest(alloc)?;
    let mut branches = only(alloc, branch(Pattern::Empty, Term::Int(0)))?;
    branches.push(branch(Pattern::Cons, body))?;
    Ok(branches)
}

fn branch(pattern: Pattern, body: Term) -> Branch
    ensures pattern { result.pattern ≡ pattern }
    ensures body { result.body ≡ body }
{
    Branch { pattern, body }
}

fn one_and_rest(alloc: Global) -> Result<Term, Memory>
    ensures { IfOk result (λ term. term ≡ running.one_and_rest) }
{
    let rest = only(alloc, Term::Variable(1))?;
    one_and(alloc, Term::Call(0, rest))
}

// ---- sums that nest

/// The function that is a sum.
fn summing(alloc: Global, levels: u32) -> Result<List<Function>, Memory>
    ensures { IfOk result AreSums }
{
    let body = sum(alloc, levels)?;
    only(alloc, function(alloc, body))
}

fn sum(alloc: Global, levels: u32) -> Result<Term, Memory>
    ensures { IfOk result IsSum }
{
    let mut sum = Term::Int(0);
    for _ in 0..levels {
        sum = one_and(alloc, sum)?;
    }
    Ok(sum)
}

// ---- terms

/// The sum of one and a term.
fn one_and(alloc: Global, term: Term) -> Result<Term, Memory>
    ensures { IfOk result (λ sum. sum ≡ Term.Make Op.Add (Term.Int (pos 1) ∷ term ∷ [])) }
{
    let mut args = only(alloc, Term::Int(1))?;
    args.push(term)?;
    Ok(Term::Make(Op::Add, args))
}

fn function(alloc: Global, body: Term) -> Function
    ensures { result ≡ running.function body }
{
    Function {
        name: List::new(alloc),
        params: List::new(alloc),
        result: ValueType::Int,
        runs: false,
        body,
    }
}

fn only<T: Drop>(alloc: Global, item: T) -> Result<List<T>, Memory>
    ensures { IfOk result (λ list. list ≡ item ∷ []) }
{
    let mut list = List::new(alloc);
    list.push(item)?;
    Ok(list)
}
