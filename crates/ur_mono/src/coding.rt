//! The code of instances.
ghost use Rattle.std.specs.Prelude.{◌≡◌, map, IfOk};
ghost use Rattle.ur_mono.specs.Mono.{cookie_of, IsCodeOf, KeepsOutcomes};

use std::alloc::Global;
use ur_base::{List, Memory, Text};
use ur_code::{Code, Cookie};
use ur_tree::Closed;
use ur_values::ColumnKind;

fn code_cookies(alloc: Global, cookies: &List<(Text, ColumnKind)>) -> Result<List<Cookie>, Memory>
    ensures { IfOk result (λ made. made ≡ map cookie_of cookies.now) }
{
    let mut made = List::new(alloc);
    for cookie in cookies.as_slice() {
        let name = List::from_slice(alloc, cookie.0.as_slice())?;
        made.push(Cookie { name, of: cookie.1 })?;
    }
    Ok(made)
}

/// The code of instances, which comes to what they come to.
pub fn mono(alloc: Global, closed: Closed) -> Result<Code, Memory>
    ensures code { IfOk result (IsCodeOf closed) }
    ensures meaning { IfOk result (KeepsOutcomes closed) }
{
    let cookies = code_cookies(alloc, &closed.cookies)?;
    let code = Code {
        schema: closed.schema,
        handlers: closed.handlers,
        targets: closed.targets,
        names: closed.names,
        variants: closed.variants,
        cookies,
        functions: closed.functions,
        queries: closed.queries,
        changes: closed.changes,
    };
    Ok(code)
}
