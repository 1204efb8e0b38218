//! Functions, queries, changes, tables and cookies that fit.
ghost use Rattle.std.specs.Prelude.{◌≡◌, ◌↔◌, IsTrue, IsUtf8, All};
ghost use Rattle.ur_sql.specs.Typing.{QueryFits, ChangeFits};
ghost use Rattle.ur_terms.specs.Types.{FitsFunction};
ghost use Rattle.ur_code.specs.Fits.{IsBasicCookie, signature};
ghost use Rattle.ur_verify_operations.specs.Answering.{Answers, Says};
ghost use Rattle.ur_verify.specs.Misfits.{ChangesMisfit, CookiesMisfit, FunctionMisfit, FunctionsMisfit, QueriesMisfit, TablesMisfit};

use crate::environment::Environment;
use crate::infer::type_of;
use crate::{change_fits, query_fits};
use std::alloc::Global;
use std::str;
use ur_code::{Code, Cookie};
use ur_terms::Function;
use ur_values::{TableShape, same_type};
use ur_verify_operations::{Untyped, mismatch, no_type};

/// A function's body has its result's type.
fn function_fits(alloc: Global, code: &Code, function: &Function) -> Result<(), Untyped>
    ensures fits { Answers (λ u. FitsFunction (signature code.now) function.now) result }
    ensures told { Says (FunctionMisfit (signature code.now) function.now) result }
{
    let env = Environment::Parameters(function.params.as_slice());
    let found = type_of(alloc, code, &env, &function.body)?;
    if same_type(&found, &function.result) {
        return Ok(());
    }
    Err(Untyped::Misfit(mismatch(alloc, code, &found, &function.result)?))
}

pub fn functions_fit(alloc: Global, code: &Code) -> Result<(), Untyped>
    ensures fits { Answers (λ u. All (FitsFunction (signature code.now)) code.now.functions) result }
    ensures told { Says (FunctionsMisfit code.now) result }
{
    for function in code.functions.as_slice() {
        function_fits(alloc, code, function)?;
    }
    Ok(())
}

pub fn queries_fit(alloc: Global, code: &Code) -> Result<(), Untyped>
    ensures fits { Answers (λ u. All (QueryFits code.now.schema) code.now.queries) result }
    ensures told { Says (QueriesMisfit code.now) result }
{
    for query in code.queries.as_slice() {
        if !query_fits(alloc, &code.schema, query)? {
            return Err(Untyped::Misfit(no_type(alloc, b"a query of the tables")?));
        }
    }
    Ok(())
}

pub fn changes_fit(alloc: Global, code: &Code) -> Result<(), Untyped>
    ensures fits { Answers (λ u. All (ChangeFits code.now.schema) code.now.changes) result }
    ensures told { Says (ChangesMisfit code.now) result }
{
    for change in code.changes.as_slice() {
        if !change_fits(alloc, &code.schema, change)? {
            return Err(Untyped::Misfit(no_type(alloc, b"a change of a table")?));
        }
    }
    Ok(())
}

fn is_named(table: &TableShape) -> bool
    ensures { IsTrue result ↔ IsUtf8 table.now.name }
{
    match str::from_utf8(table.name.as_slice()) {
        Err(_) => false,
        Ok(_) => true,
    }
}

pub fn tables_fit(alloc: Global, code: &Code) -> Result<(), Untyped>
    ensures fits { Answers (λ u. All (λ shape. IsUtf8 shape.name) code.now.schema.tables) result }
    ensures told { Says (TablesMisfit code.now) result }
{
    for table in code.schema.tables.as_slice() {
        if !is_named(table) {
            return Err(Untyped::Misfit(no_type(alloc, b"the name of a table")?));
        }
    }
    Ok(())
}

fn is_basic(cookie: &Cookie) -> bool
    ensures { IsTrue result ↔ IsBasicCookie cookie.now }
{
    match cookie.of.inside() {
        None => true,
        Some(_) => false,
    }
}

/// No cookie holds an option.
pub fn cookies_fit(alloc: Global, code: &Code) -> Result<(), Untyped>
    ensures fits { Answers (λ u. All IsBasicCookie code.now.cookies) result }
    ensures told { Says (CookiesMisfit code.now) result }
{
    for cookie in code.cookies.as_slice() {
        if !is_basic(cookie) {
            return Err(Untyped::Misfit(no_type(alloc, b"a cookie of int, string or bool")?));
        }
    }
    Ok(())
}
