//! The types of a fold at rows.
ghost use Rattle.std.specs.Prelude.{◌≡◌, ◌<◌, true, IfOk, Some, codes};
ghost use Rattle.ur_base.specs.Stopping.{IfRefused};
ghost use Rattle.ur_rows.specs.Nodes.{type_nodes, most_nodes};
ghost use Rattle.ur_rows.specs.Normal.{as_function};
ghost use Rattle.ur_rows.specs.Put.{as_type, argument, put_type};
ghost use Rattle.ur_rows.specs.Types.{at_row};
ghost use Rattle.ur_tree.specs.Env.{row_is_plain};
ghost use Rattle.ur_typed_rules.specs.Scopes.{World as GhostWorld, Scope as GhostScope};
ghost use Rattle.ur_typed_rules.specs.Rules.{written_row};
ghost use Rattle.ur_check_scopes.specs.Views.{Stands, StopIs, IsLarge};
ghost use Rattle.ur_tree.specs.Text as texts;
ghost use Rattle.ur_typed_rules.specs.Faults as faults;
ghost use Rattle.ur_check_cases.specs.Steps.{TellsFoldRow, TellsLarge};

use std::alloc::Global;
use ur_base::{List, Span, Stop, Text};
use ur_check_scopes::{Around, not_so, row_at, too_large};
use ur_rows::{Argument, Normal, NormalType, Part, unit};
use ur_rows_normal::row_of_values;
use ur_rows_reduce::{Halt, applied_is_low, put_type_within};
use ur_syntax::Con;
use ur_tree::row_text;

/// What halts the making of a type is a refusal where it is too large.
fn halted(alloc: Global, span: Span, halt: Halt) -> Stop
    ensures { TellsLarge halt result }
{
    match halt {
        Halt::Memory => Stop::Memory,
        Halt::TooLarge => too_large(alloc, span),
    }
}

fn at_argument(alloc: Global, span: Span, of: &NormalType, arg: &Normal) -> Result<NormalType, Stop>
    ensures form { IfOk result (λ t. t ≡ put_type (argument arg.now) 0 of.now) }
    ensures refused { IfRefused result (λ r. IsLarge r × (most_nodes < type_nodes (put_type (argument arg.now) 0 of.now))) }
{
    match put_type_within(alloc, &Argument { of: arg }, 0, of, 65536) {
        Ok(made) => Ok(made.0),
        Err(halt) => Err(halted(alloc, span, halt)),
    }
}

fn in_body(alloc: Global, span: Span, body: &Normal, arg: &Normal) -> Result<NormalType, Stop>
    ensures form { IfOk result (λ t. t ≡ put_type (argument arg.now) 0 (as_type body.now)) }
    ensures refused { IfRefused result (λ r. IsLarge r × (most_nodes < type_nodes (put_type (argument arg.now) 0 (as_type body.now)))) }
{
    match body {
        Normal::Type(of) => at_argument(alloc, span, of, arg),
        Normal::Name(_) => Ok(unit(alloc)),
        Normal::Row(_) => Ok(unit(alloc)),
        Normal::Fn(_, _) => Ok(unit(alloc)),
    }
}

/// The type of a fold with this function at a row. There is no memory for one that is too high.
pub fn fold_type(
    alloc: Global,
    span: Span,
    function: &Normal,
    row: List<Part>,
) -> Result<NormalType, Stop>
    ensures form { IfOk result (λ t. t ≡ at_row (as_function function.now) row) }
    ensures refused { IfRefused result (λ r. IsLarge r × (most_nodes < type_nodes (at_row (as_function function.now) row))) }
{
    let arg = Normal::Row(row);
    applied_is_low(function, &arg)?;
    match function {
        Normal::Fn(_, body) => in_body(alloc, span, body.get(), &arg),
        Normal::Type(_) => Ok(unit(alloc)),
        Normal::Name(_) => Ok(unit(alloc)),
        Normal::Row(_) => Ok(unit(alloc)),
    }
}

fn not_plain(alloc: Global, names: &[Text], span: Span, row: &[Part]) -> Stop
    ensures { StopIs names.now (faults.not_so (texts.row_text names.now row.now) (codes "a row without arrows and transactions")) result }
{
    match row_text(alloc, names, row) {
        Ok(text) => not_so(
            alloc,
            span,
            text.as_slice(),
            b"a row without arrows and transactions",
        ),
        Err(_want) => Stop::Memory,
    }
}

/// The row of a fold, in which neither an arrow nor `transaction` stands.
pub fn fold_row(alloc: Global, around: &Around, con: &Con) -> Result<List<Part>, Stop>
    ensures row { IfOk result (λ row. (w : GhostWorld) (s : GhostScope) → Stands around.now w s → written_row w s con.now ≡ Some row) }
    ensures plain { IfOk result (λ row. row_is_plain row ≡ true) }
    ensures refused { IfRefused result (TellsFoldRow around.now con.now) }
{
    let row = row_at(alloc, around, con)?;
    if row_of_values(&row) {
        return Ok(row);
    }
    let names = around.world.datatype_names.as_slice();
    Err(not_plain(alloc, names, con.span, row.as_slice()))
}
