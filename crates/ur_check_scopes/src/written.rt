//! Written constructors where an expression stands.
ghost use Rattle.std.specs.Prelude.{◌≡◌, ◌≤◌, ◌<◌, true, IfOk, Some};
ghost use Rattle.ur_base.specs.Stopping.{IfRefused};
ghost use Rattle.ur_syntax.specs.declared.con.ConEnv.{ConEnv as GhostEnv};
ghost use Rattle.ur_rows.specs.IsNormal.{is_normal};
ghost use Rattle.ur_rows.specs.Nodes.{nodes, most_nodes};
ghost use Rattle.ur_rows.specs.Normal.{nf, known_in, label_of};
ghost use Rattle.ur_rows_normal.specs.Preparing.{Reads};
ghost use Rattle.ur_typed_rules.specs.Scopes.{World as GhostWorld, Scope as GhostScope};
ghost use Rattle.ur_typed_rules.specs.Rules.{written_type, written_row};
ghost use Rattle.ur_typed_rules.specs.Arguments.{BreaksType, BreaksRow};
ghost use Rattle.ur_check_scopes.specs.Views.{Stands, Refuses, IsLarge};

use crate::apart::{is_row, is_type};
use crate::around::{Around, Cons};
use std::alloc::Global;
use ur_base::{List, Memory, Stop};
use ur_rows::{Label, Normal, NormalType, Part, as_row, as_type};
use ur_rows_normal::{label_in, normal_in};
use ur_syntax::{Con, FieldName};

/// The normal form of a written constructor.
pub fn normal_at(alloc: Global, cons: &Cons, con: &Con) -> Result<Normal, Stop>
    ensures form { IfOk result (λ n. (env : GhostEnv) → Reads cons.now.names env → n ≡ nf env con.now) }
    ensures small { IfOk result (λ n. (env : GhostEnv) → Reads cons.now.names env → nodes n ≤ most_nodes) }
    ensures in_order { IfOk result (λ n. (env : GhostEnv) → Reads cons.now.names env → is_normal n ≡ true) }
    ensures refused { IfRefused result (λ r. IsLarge r × ((env : GhostEnv) → Reads cons.now.names env → most_nodes < nodes (nf env con.now))) }
{
    let form = normal_in(alloc, &cons.names, con)?;
    Ok(form)
}

/// A written type that may stand in the scope.
pub fn type_at(alloc: Global, around: &Around, con: &Con) -> Result<NormalType, Stop>
    ensures typed { IfOk result (λ t. (w : GhostWorld) (s : GhostScope) → Stands around.now w s → written_type w s con.now ≡ Some t) }
    ensures refused { IfRefused result (λ r. (w : GhostWorld) (s : GhostScope) → Stands around.now w s → Refuses around.now.world.now.datatype_names (BreaksType w s con.now) r) }
{
    let form = normal_at(alloc, &around.scope.cons, con)?;
    let of = as_type(alloc, form);
    is_type(alloc, around, con, &of)?;
    Ok(of)
}

/// A written row that may stand in the scope.
pub fn row_at(alloc: Global, around: &Around, con: &Con) -> Result<List<Part>, Stop>
    ensures row { IfOk result (λ row. (w : GhostWorld) (s : GhostScope) → Stands around.now w s → written_row w s con.now ≡ Some row) }
    ensures refused { IfRefused result (λ r. (w : GhostWorld) (s : GhostScope) → Stands around.now w s → Refuses around.now.world.now.datatype_names (BreaksRow w s con.now) r) }
{
    let form = normal_at(alloc, &around.scope.cons, con)?;
    let row = as_row(alloc, form);
    is_row(alloc, around, con, &row)?;
    Ok(row)
}

/// The name of a field: a literal, or what the variable stands for.
pub fn label_at(alloc: Global, cons: &Cons, name: &FieldName) -> Result<Label, Memory>
    ensures { IfOk result (λ l. (env : GhostEnv) → Reads cons.now.names env → l ≡ label_of (known_in env) name.now) }
{
    label_in(alloc, &cons.names, name)
}
