//! Whether routes with GET write.
ghost use Rattle.std.specs.Prelude.{◌≡◌, ◌++◌, IfOk, OnOk, codes, slice_get, flat_map};
ghost use Rattle.ur_base.specs.Stopping.{IfRefused};
ghost use Rattle.ur_effects.specs.Acts.{write_deed};
ghost use Rattle.ur_effects.specs.Writes.{GetWrites};
ghost use Rattle.ur_effects.specs.Refused.{GetNeverWrites, ExplainsWrite, chain_text, name_of};

use crate::act::write_text;
use crate::chain::{Chain, writing_chain};
use std::alloc::Global;
use ur_base::{List, Memory, Refusal, Span, Stop, Text};
use ur_code::Code;
use ur_terms::Function;

/// Whether no route with GET writes. Where one does, the refusal has the names of a chain of functions, each called in the
/// body of the one before, from a route's function to one that writes, and how that writes. It names no place.
pub fn effects(alloc: Global, code: &Code) -> Result<(), Stop>
    ensures none { OnOk result (GetNeverWrites code.now) }
    ensures refused { IfRefused result (ExplainsWrite code.now) }
{
    match writing_chain(alloc, code)? {
        None => Ok(()),
        Some(chain) => {
            let refusal = refusal(alloc, code, &chain)?;
            Err(Stop::Refused(refusal))
        }
    }
}

fn refusal(alloc: Global, code: &Code, chain: &Chain) -> Result<Refusal, Memory>
    requires { GetWrites code.now chain.now.functions (write_deed chain.now.write) }
    ensures { IfOk result (ExplainsWrite code.now) }
{
    let left = chain_text(alloc, &code.functions, &chain.functions)?;
    let right = List::from_slice(alloc, write_text(chain.write))?;
    let span = Span {
        file: 0,
        from: 0,
        to: 0,
    };
    Ok(Refusal {
        code: 14,
        span,
        left,
        right,
    })
}

/// The names of functions with ` > ` between each two.
fn chain_text(alloc: Global, functions: &List<Function>, chain: &List<u32>) -> Result<Text, Memory>
    ensures { IfOk result (λ text. text ≡ chain_text functions.now chain.now) }
{
    match chain.as_slice().split_first() {
        None => Ok(List::new(alloc)),
        Some((first, rest)) => {
            let mut text = with_name(List::new(alloc), functions, *first)?;
            for function in rest {
                text.extend_from_slice(b" > ")?;
                text = with_name(text, functions, *function)?;
            }
            Ok(text)
        }
    }
}

/// A text, and then the name of a function, if there is one of this number.
fn with_name(text: Text, functions: &List<Function>, number: u32) -> Result<Text, Memory>
    ensures { IfOk result (λ more. more ≡ text ++ name_of (slice_get functions.now number)) }
{
    let mut more = text;
    match functions.get(number as usize) {
        None => Ok(more),
        Some(function) => {
            more.extend_from_slice(function.name.as_slice())?;
            Ok(more)
        }
    }
}
