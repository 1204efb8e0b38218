//! Names in XML.
ghost use Rattle.std.specs.Prelude.{◌≡◌, IfOk};
ghost use Rattle.ur_unfold_static.specs.Words.{part_of_xml_names, xml_names};

use crate::cons::in_label;
use crate::mentions_exps::{in_exp, in_exps, in_held};
use crate::sought::{Sought, either};
use ur_base::{List, Memory};
use ur_tree::Markup;

#[cycle(exp)]
#[tactic(auto, using(crate::proofs::Words::in_lists))]
pub fn in_markups(parts: &List<Markup>, depth: u32, of: Sought) -> Result<bool, Memory>
    ensures { IfOk result (λ b. b ≡ xml_names of depth parts.now) }
{
    let all = parts.as_slice();
    for i in 0..all.len() {
        if in_markup(&all[i], depth, of)? {
            return Ok(true);
        }
    }
    Ok(false)
}

#[cycle(exp)]
#[tactic(auto, using(crate::proofs::Words::in_parts_of_xml))]
fn in_markup(part: &Markup, depth: u32, of: Sought) -> Result<bool, Memory>
    ensures { IfOk result (λ b. b ≡ part_of_xml_names of depth part.now) }
{
    match part {
        Markup::Text(_) => Ok(false),
        Markup::Shown(e) => {
            let named = in_exp(e, depth, of)?;
            Ok(named)
        }
        Markup::Splice(e) => {
            let named = in_exp(e, depth, of)?;
            Ok(named)
        }
        Markup::Element(_, kids) => {
            let named = in_markups(kids, depth, of)?;
            Ok(named)
        }
        Markup::Link(_, args, kids) => {
            let first = in_exps(args, depth, of)?;
            let second = in_markups(kids, depth, of)?;
            Ok(either(first, second))
        }
        Markup::Input(_, l, e) => {
            let first = in_label(l, of);
            let second = in_held(e, depth, of)?;
            Ok(either(first, second))
        }
        Markup::Submit(_, args, e) => {
            let first = in_exps(args, depth, of)?;
            let second = in_held(e, depth, of)?;
            Ok(either(first, second))
        }
    }
}
