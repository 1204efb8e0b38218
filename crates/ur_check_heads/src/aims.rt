//! The methods of functions.
ghost use Rattle.std.specs.Prelude.{◌≡◌, false, map, IfOk};
ghost use Rattle.ur_check_heads.specs.Aims.{no_method, with_get, with_post, marked, linked_by};

use std::alloc::Global;
use ur_base::{List, Memory};
use ur_check_scopes::FunctionHead;

/// Which methods a function answers.
#[derive(Clone, Copy)]
pub struct Aim {
    pub get: bool,
    pub post: bool,
}

/// The methods of each function, and whether there was none with a number that was marked.
#[derive(Drop)]
pub struct Aims {
    pub of: List<Aim>,
    pub lost: bool,
}

/// No function answers any.
pub fn no_aims(alloc: Global, functions: &[FunctionHead]) -> Result<Aims, Memory>
    ensures of { IfOk result (λ a. a.of ≡ map (λ f. no_method) functions.now) }
    ensures lost { IfOk result (λ a. a.lost ≡ false) }
{
    let mut of = List::new(alloc);
    for _i in 0..functions.len() {
        of.push(Aim {
            get: false,
            post: false,
        })?;
    }
    Ok(Aims { of, lost: false })
}

/// The function with that number answers GET.
pub fn mark_get(aims: &mut Aims, number: u32)
    ensures { aims.new ≡ marked with_get number aims.old }
{
    match aims.of.get(number as usize).copied() {
        Some(aim) => aims.of.set(
            number as usize,
            Aim {
                get: true,
                post: aim.post,
            },
        ),
        None => aims.lost = true,
    }
}

/// The function with that number answers POST.
pub fn mark_post(aims: &mut Aims, number: u32)
    ensures { aims.new ≡ marked with_post number aims.old }
{
    match aims.of.get(number as usize).copied() {
        Some(aim) => aims.of.set(
            number as usize,
            Aim {
                get: aim.get,
                post: true,
            },
        ),
        None => aims.lost = true,
    }
}

/// The functions with these numbers answer GET.
pub fn mark_all(aims: &mut Aims, numbers: &[u32])
    ensures { aims.new ≡ linked_by numbers.now aims.old }
{
    for i in 0..numbers.len() {
        mark_get(aims, numbers[i]);
    }
}
