//! The entries: the names of the signature, or else the page functions of the main module whose parameters may stand in a path.
ghost use Rattle.std.specs.Prelude.{◌≡◌, ◌++◌, ℕ, true, nat_le, [], Some, map, option_map, IfOk, OnOk, List as GhostList};
ghost use Rattle.std.specs.Option.{option_copied};
ghost use Rattle.ur_base.specs.Stopping.{IfRefused};
ghost use Rattle.ur_syntax.specs.Names.{looked_up};
ghost use Rattle.ur_syntax.specs.declared.decl.Signature.{Signature as GhostSignature};
ghost use Rattle.ur_rows.specs.Made.{arrow_of};
ghost use Rattle.ur_rows.specs.Nodes.{nodes, most_nodes};
ghost use Rattle.ur_rows.specs.Types.{arrows_of};
ghost use Rattle.ur_sqltype.specs.Lists.{all_of};
ghost use Rattle.ur_tree.specs.Heads.{function_type};
ghost use Rattle.ur_tree.specs.Typing.{types_of};
ghost use Rattle.ur_typed_rules.specs.Names as here;
ghost use Rattle.ur_typed_rules.specs.Tests.{same_type};
ghost use Rattle.ur_check_scopes.specs.Views.{Refuses, head_in, means_in};
ghost use Rattle.ur_typed.specs.Project.{at};
ghost use Rattle.ur_typed.specs.Declaring.{Sofar, datatype_names, is_entry, is_signed, entry_out, if_entry, entries_of, entries_out};
ghost use Rattle.ur_typed.specs.DeclFaults.{form_of, type_of, BreaksEntry, EntriesHaveFault};
ghost use Rattle.ur_check_heads.specs.Views.{Sees, function_in};
ghost use Rattle.ur_check_heads.specs.Entries.{NoEntry, OtherType, Unfit, is_own};

use crate::forms::number;
use crate::{Project, top};
use std::alloc::Global;
use ur_base::{List, Memory, Span, Stop};
use ur_check_forms::{are_linkable, is_page};
use ur_check_scopes::{
    FunctionHead, Head, Key, Means, function_at, normal_at, not_so, seen, types_differ, unknown,
};
use ur_rows::{NormalType, as_type, boxed, copy_type, equal_types};
use ur_syntax::{Con, Signature, ValDecl};
use ur_tree::Param;

/// The type of a function of one parameter.
#[tactic(auto, using(crate::proofs::RoutesEntering::arrows))]
fn arrow(alloc: Global, param: &Param, of: NormalType) -> Result<NormalType, Memory>
    ensures { IfOk result (λ t. t ≡ arrow_of param.now.of of) }
{
    let copied = copy_type(alloc, &param.of)?;
    let from = boxed(alloc, copied)?;
    let to = boxed(alloc, of)?;
    let made = NormalType::Arrow(from, to);
    Ok(made)
}

/// The type of a function with these parameters.
fn arrows(alloc: Global, params: &[Param], last_of: &NormalType) -> Result<NormalType, Memory>
    ensures { IfOk result (λ t. t ≡ arrows_of (types_of params.now) last_of.now) }
{
    let mut of = copy_type(alloc, last_of)?;
    let mut left = params;
    while let Some((last, rest)) = left.split_last() {
        let made = arrow(alloc, last, of)?;
        of = made;
        left = rest;
    }
    Ok(of)
}

fn same_type(a: &NormalType, b: &NormalType) -> bool
    ensures { result ≡ same_type a.now b.now }
{
    equal_types(a, b)
}

/// The function has the type that the signature writes.
fn is_of_type(alloc: Global, project: &Project, con: &Con, head: &Head) -> Result<(), Stop>
    ensures small { OnOk result ((home : ℕ) (z : Sofar) → Sees project.now home z → nat_le (nodes (form_of z con.now)) most_nodes ≡ true) }
    ensures same { OnOk result ((home : ℕ) (z : Sofar) → Sees project.now home z → same_type (function_type (head_in head.now)) (type_of z con.now) ≡ true) }
    ensures refused { IfRefused result (λ r. (home : ℕ) (z : Sofar) → Sees project.now home z → Refuses (datatype_names z) (OtherType z con.now (head_in head.now)) r) }
{
    let around = top(project);
    let form = normal_at(alloc, &around.scope.cons, con)?;
    let wanted = as_type(alloc, form);
    let of = arrows(alloc, head.params.as_slice(), &head.result)?;
    if same_type(&of, &wanted) {
        return Ok(());
    }
    let names = project.world.datatype_names.as_slice();
    Err(types_differ(alloc, names, con.span, &of, &wanted))
}

/// The function is a page function whose parameters may stand in a path.
fn may_enter(alloc: Global, span: Span, head: &Head) -> Result<(), Stop>
    ensures ok { OnOk result (is_entry (head_in head.now) ≡ true) }
    ensures refused { IfRefused result (λ r. (names : GhostList (GhostList ℕ)) → Refuses names (NoEntry (head_in head.now)) r) }
{
    if !is_page(head) {
        return Err(not_so(alloc, span, b"an entry", b"a page function"));
    }
    if are_linkable(head.params.as_slice()) {
        return Ok(());
    }
    Err(not_so(alloc, span, b"a parameter", b"int, string, bool or unit"))
}

/// The function with this head may be the entry.
fn fits(alloc: Global, project: &Project, val: &ValDecl, head: &Head) -> Result<(), Stop>
    ensures small { OnOk result ((home : ℕ) (z : Sofar) → Sees project.now home z → nat_le (nodes (form_of z val.now.con)) most_nodes ≡ true) }
    ensures signed { OnOk result ((home : ℕ) (z : Sofar) → Sees project.now home z → is_signed z val.now.con (head_in head.now) ≡ true) }
    ensures refused { IfRefused result (λ r. (home : ℕ) (z : Sofar) → Sees project.now home z → Refuses (datatype_names z) (Unfit z val.now.con (head_in head.now)) r) }
{
    is_of_type(alloc, project, &val.con, head)?;
    may_enter(alloc, val.span, head)?;
    Ok(())
}

/// What a name of the main module stands for.
fn meaning(project: &Project, name: &[u8]) -> Option<Means>
    ensures { (home : ℕ) (z : Sofar) → Sees project.now home z → option_map means_in result ≡ looked_up (at z.place name.now) z.place.globals.values }
{
    let home = project.world.env.home.as_slice();
    seen(home, project.world.values.as_slice(), &Key::Own(name))
}

/// A function that a name of the signature stands for.
fn function_fits(alloc: Global, project: &Project, val: &ValDecl, number: u32) -> Result<(), Stop>
    ensures ok { OnOk result ((home : ℕ) (z : Sofar) → Sees project.now home z → looked_up (at z.place val.now.name) z.place.globals.values ≡ Some (here.function number) → entry_out most_nodes z val.now ≡ Some number) }
    ensures refused { IfRefused result (λ r. (home : ℕ) (z : Sofar) → Sees project.now home z → looked_up (at z.place val.now.name) z.place.globals.values ≡ Some (here.function number) → Refuses (datatype_names z) (BreaksEntry most_nodes z val.now) r) }
{
    match function_at(&project.world, number) {
        Some(head) => {
            fits(alloc, project, val, head)?;
            Ok(())
        }
        None => Err(Stop::Memory),
    }
}

/// The function of an entry, by its number.
fn entry(alloc: Global, project: &Project, val: &ValDecl) -> Result<u32, Stop>
    ensures ok { IfOk result (λ n. (home : ℕ) (z : Sofar) → Sees project.now home z → entry_out most_nodes z val.now ≡ Some n) }
    ensures refused { IfRefused result (λ r. (home : ℕ) (z : Sofar) → Sees project.now home z → Refuses (datatype_names z) (BreaksEntry most_nodes z val.now) r) }
{
    match meaning(project, val.name.as_slice()) {
        Some(means) => match means {
            Means::Function(number) => {
                function_fits(alloc, project, val, number)?;
                Ok(number)
            }
            Means::Val(_) => Err(not_so(alloc, val.span, b"an entry", b"a page function")),
        },
        None => Err(unknown(alloc, val.span, val.name.as_slice())),
    }
}

/// The functions that the signature names.
fn signed(alloc: Global, project: &Project, vals: &[ValDecl]) -> Result<List<u32>, Stop>
    ensures ok { IfOk result (λ list. (home : ℕ) (z : Sofar) → Sees project.now home z → all_of (entry_out most_nodes z) vals.now ≡ Some list) }
    ensures refused { IfRefused result (λ r. (home : ℕ) (z : Sofar) → Sees project.now home z → EntriesHaveFault most_nodes z r vals.now) }
{
    let mut list = List::new(alloc);
    for i in 0..vals.len() {
        let number = entry(alloc, project, &vals[i])?;
        list.push(number)?;
    }
    Ok(list)
}

/// A function of the module that may be an entry.
fn is_own(home: u32, function: &FunctionHead) -> bool
    ensures { result ≡ is_own home (function_in function.now) }
{
    if function.module != home {
        return false;
    }
    if !is_page(&function.head) {
        return false;
    }
    are_linkable(function.head.params.as_slice())
}

/// The function with that number, where it may be an entry of the module.
fn add_own(
    list: &mut List<u32>,
    home: u32,
    at: usize,
    function: &FunctionHead,
) -> Result<(), Memory>
    ensures { OnOk result (list.new ≡ list.old ++ if_entry (is_own home (function_in function.now)) at []) }
{
    if !is_own(home, function) {
        return Ok(());
    }
    let found = number(at)?;
    list.push(found)?;
    Ok(())
}

/// The functions of the module with that number that may be entries.
fn unsigned(alloc: Global, home: u32, functions: &[FunctionHead]) -> Result<List<u32>, Memory>
    ensures { IfOk result (λ list. list ≡ entries_of home 0 (map function_in functions.now)) }
{
    let mut list = List::new(alloc);
    for i in 0..functions.len() {
        add_own(&mut list, home, i, &functions[i])?;
    }
    Ok(list)
}

/// The entries of a project, behind all its declarations.
pub fn entries(
    alloc: Global,
    project: &Project,
    signature: Option<&Signature>,
) -> Result<List<u32>, Stop>
    ensures ok { IfOk result (λ list. (home : ℕ) (z : Sofar) → Sees project.now home z → entries_out most_nodes z home (option_copied signature.entry) ≡ Some list) }
    ensures refused { IfRefused result (λ r. (home : ℕ) (z : Sofar) → Sees project.now home z → (s : GhostSignature) × (option_copied signature.entry ≡ Some s) × EntriesHaveFault most_nodes z r s.vals) }
{
    match signature {
        Some(s) => signed(alloc, project, s.vals.as_slice()),
        None => {
            let functions = project.world.functions.as_slice();
            let list = unsigned(alloc, project.world.module, functions)?;
            Ok(list)
        }
    }
}
