//! The answer to a request.
ghost use Rattle.std.specs.Prelude.{◌≡◌, ◌≤◌, ◌<◌, ◌^◌, false, [], length};
ghost use Rattle.ur_base.specs.Counts.{Rose};
ghost use Rattle.ur_base.specs.Told.{WhereTold};
ghost use Rattle.ur_keeper.specs.Tables.{Keeps, NumbersUpTo};
ghost use Rattle.ur_code.specs.Fits.{Fits};
ghost use Rattle.ur_code.specs.RouteTypes.{IsRequestOf};
ghost use Rattle.ur_machine.specs.Answers.{ArePatternsOf, AreSavedAnswers};
ghost use Rattle.ur_serve.specs.Finishing.{IsAnswered};
ghost use Rattle.ur_serve.specs.Pages.{ArePagesOf};
ghost use Rattle.ur_serve.specs.Remembering.{AreTouching};
ghost use Rattle.ur_serve.specs.Replies as words;
ghost use Rattle.ur_http.specs.Texts.{IsText};
ghost use Rattle.ur_serve.specs.Serving.{AreServable};

use crate::finishing::{closes, finish, give_up, is_head};
use crate::handling::handle;
use crate::remembering::{before_asking, recall, renew};
use crate::routing::route_request;
use crate::{Reply, Routed};
use std::alloc::Global;
use ur_cache::Cache;
use ur_code::Code;
use ur_conditions::Patterns;
use ur_http::{HttpRequest, status_answer};
use ur_keeper::Keeper;
use ur_machine::Machine;
use ur_pages::Pages;
use ur_values::Call;

/// Answers a request, from a page that is remembered where there is one. Nothing of the keeper is touched before the call is known.
pub(crate) fn answer_request<K: Keeper>(
    alloc: Global,
    code: &Code,
    patterns: &Patterns,
    cache: &mut Cache,
    pages: &mut Pages,
    touching: &[bool],
    steps: u32,
    keeper: &mut K,
    request: &HttpRequest,
    close: bool,
) -> Reply
    requires fits { Fits code.now }
    requires few { length code.now.handlers.routes < 2 ^ 32 }
    requires patterns { ArePatternsOf code.now patterns.now }
    requires masks { cache.old.masks ≡ [] }
    requires saved { AreSavedAnswers code.now (K.saved keeper.old) cache.old }
    requires kept { K.kept keeper.old ≡ Keeps code.now.schema }
    requires at_rest { K.under_way keeper.old ≡ false }
    requires tables { WhereTold (K.saved keeper.old) (AreServable code.now.schema) }
    requires numbers { WhereTold (K.saved keeper.old) (NumbersUpTo 9223300000000000000) }
    requires pages { ArePagesOf code.now steps (K.saved keeper.old) pages.old.list }
    requires touching { AreTouching code.now touching.now }
    requires text { IsText request.now }
    ensures answered { IsAnswered code.now patterns.now steps request.now close cache.old cache.new pages.new.list (K.saved keeper.old) (K.saved keeper.new) (K.kept keeper.new) (K.under_way keeper.new) (K.reads keeper.old) (K.reads keeper.new) result }
    ensures later { K.faults keeper.old ≤ K.faults keeper.new }
    ensures cause { result ≡ Reply.Keeper → Rose (K.faults keeper.old) (K.faults keeper.new) × words.ReachesHandler code.now.handlers request.now }
{
    match recall(alloc, cache, pages, request, close) {
        Some(reply) => reply,
        None => answer_routed(
            alloc, code, patterns, cache, pages, touching, steps, keeper, request, close,
        ),
    }
}

/// Answers a request by its route.
fn answer_routed<K: Keeper>(
    alloc: Global,
    code: &Code,
    patterns: &Patterns,
    cache: &mut Cache,
    pages: &mut Pages,
    touching: &[bool],
    steps: u32,
    keeper: &mut K,
    request: &HttpRequest,
    close: bool,
) -> Reply
    requires fits { Fits code.now }
    requires few { length code.now.handlers.routes < 2 ^ 32 }
    requires patterns { ArePatternsOf code.now patterns.now }
    requires masks { cache.old.masks ≡ [] }
    requires saved { AreSavedAnswers code.now (K.saved keeper.old) cache.old }
    requires kept { K.kept keeper.old ≡ Keeps code.now.schema }
    requires at_rest { K.under_way keeper.old ≡ false }
    requires tables { WhereTold (K.saved keeper.old) (AreServable code.now.schema) }
    requires numbers { WhereTold (K.saved keeper.old) (NumbersUpTo 9223300000000000000) }
    requires pages { ArePagesOf code.now steps (K.saved keeper.old) pages.old.list }
    requires touching { AreTouching code.now touching.now }
    requires text { IsText request.now }
    ensures answered { IsAnswered code.now patterns.now steps request.now close cache.old cache.new pages.new.list (K.saved keeper.old) (K.saved keeper.new) (K.kept keeper.new) (K.under_way keeper.new) (K.reads keeper.old) (K.reads keeper.new) result }
    ensures later { K.faults keeper.old ≤ K.faults keeper.new }
    ensures cause { result ≡ Reply.Keeper → Rose (K.faults keeper.old) (K.faults keeper.new) × words.ReachesHandler code.now.handlers request.now }
{
    match route_request(alloc, &code.handlers, request) {
        Ok(routed) => match routed {
            Routed::Handled(call) => {
                answer_call(
                    alloc, code, patterns, cache, pages, touching, steps, keeper, request, close,
                    call,
                )
            }
            Routed::Away(status, allowed) => {
                let head_only = is_head(request.method);
                let closes = closes(request, close);
                match status_answer(alloc, status, allowed, head_only, closes) {
                    Ok(bytes) => Reply::Done(bytes),
                    Err(_memory) => Reply::Memory,
                }
            }
        },
        Err(_memory) => Reply::Memory,
    }
}

/// Answers the call of a request, in a transaction.
fn answer_call<K: Keeper>(
    alloc: Global,
    code: &Code,
    patterns: &Patterns,
    cache: &mut Cache,
    pages: &mut Pages,
    touching: &[bool],
    steps: u32,
    keeper: &mut K,
    request: &HttpRequest,
    close: bool,
    call: Call,
) -> Reply
    requires fits { Fits code.now }
    requires patterns { ArePatternsOf code.now patterns.now }
    requires masks { cache.old.masks ≡ [] }
    requires saved { AreSavedAnswers code.now (K.saved keeper.old) cache.old }
    requires kept { K.kept keeper.old ≡ Keeps code.now.schema }
    requires at_rest { K.under_way keeper.old ≡ false }
    requires tables { WhereTold (K.saved keeper.old) (AreServable code.now.schema) }
    requires numbers { WhereTold (K.saved keeper.old) (NumbersUpTo 9223300000000000000) }
    requires pages { ArePagesOf code.now steps (K.saved keeper.old) pages.old.list }
    requires touching { AreTouching code.now touching.now }
    requires text { IsText request.now }
    requires routed { words.routed code.now.handlers request.now ≡ words.handled call }
    requires call { IsRequestOf code.now.handlers call }
    ensures answered { IsAnswered code.now patterns.now steps request.now close cache.old cache.new pages.new.list (K.saved keeper.old) (K.saved keeper.new) (K.kept keeper.new) (K.under_way keeper.new) (K.reads keeper.old) (K.reads keeper.new) result }
    ensures later { K.faults keeper.old ≤ K.faults keeper.new }
    ensures cause { result ≡ Reply.Keeper → Rose (K.faults keeper.old) (K.faults keeper.new) }
{
    let mut asks = before_asking(alloc, code, touching, call.route, request.method);
    keeper.begin();
    match Machine::start(alloc, code, call, request.cookies.as_slice(), steps) {
        Ok(machine) => {
            let mut machine = machine;
            // The clause `bound` of `units` is wanted, and not the number.
            machine.units();
            let turn = handle(
                alloc,
                code,
                patterns,
                &mut machine,
                keeper,
                cache,
                &mut asks,
            );
            renew(alloc, cache, pages, request, &turn, asks);
            finish(alloc, code, keeper, cache, turn, request, close)
        }
        Err(_memory) => {
            give_up(code, keeper, cache);
            Reply::Memory
        }
    }
}
