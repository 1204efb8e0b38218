//! The server.
use crate::answering::answer_request;
use crate::attaching::attach;
use crate::remembering::no_pages;
use crate::{NewEnd, Reply};
use std::alloc::Global;
use std::marker::Model;
use ur_base::List;
use ur_cache::Cache;
use ur_conditions::Patterns;
use ur_http::HttpRequest;
use ur_keeper::Keeper;
use ur_pages::Pages;
use ur_pure::all_touching;
use ur_verify::Verified;

/// The code that is served, its patterns, the cache of its answers, the units of each request, the pages that are remembered, and of
/// each function whether it does more than ask.
#[derive(Drop)]
pub struct Server {
    verified: Verified,
    patterns: Patterns,
    cache: Cache,
    steps: u32,
    pages: Pages,
    touching: List<bool>,
}

impl Model for Server {
    ghost use Rattle.std.specs.Coded.{codes};
    ghost use Rattle.ur_serve.specs.Remembering.{AreTouching};
    ghost use Rattle.ur_serve.specs.Serving.{ServerState, IsServer};
    ghost use Rattle.ur_values.specs.contracts.value.Value as value;
    ghost use Rattle.ur_values.specs.contracts.types.ValueType as value_type;
    ghost use Rattle.ur_sql.specs.contracts.scalar.Scalar as scalar;
    ghost use Rattle.ur_terms.specs.contracts.term.Term as term;

    ghost Value = { ServerState };

    ghost coded = { Prim.hlevel (codes, value.the_row.coded, value_type.the_row.coded, scalar.the_row.coded, term.the_row.coded) };

    ghost view = { λ s. record { code = s.verified; patterns = s.patterns; cache = s.cache; steps = s.steps; pages = s.pages.list } };

    ghost invariant = { λ s. IsServer (record { code = s.verified; patterns = s.patterns; cache = s.cache; steps = s.steps; pages = s.pages.list }) × AreTouching s.verified s.touching };
}

impl Server {
    ghost use Rattle.std.specs.Prelude.{◌≡◌, ◌≤◌, false, [], IfOk, IfErr, OnOk, OnErr, IsErrOf};
    ghost use Rattle.ur_base.specs.Counts.{Rose};
    ghost use Rattle.ur_base.specs.Told.{WhereTold};
    ghost use Rattle.ur_values.specs.Extends.{extends};
    ghost use Rattle.ur_keeper.specs.declared.keeper.Attached.TheVariants.{Ready, Differs as Other};
    ghost use Rattle.ur_keeper.specs.Keeper.{AttachesTo};
    ghost use Rattle.ur_keeper.specs.Tables.{NumbersUpTo, AreSound};
    ghost use Rattle.ur_machine.specs.Answers.{ArePatternsOf};
    ghost use Rattle.ur_serve.specs.Replies.{ReachesHandler};
    ghost use Rattle.ur_http.specs.Texts.{IsText};
    ghost use Rattle.ur_tags.specs.Routes.{AreRoutes};
    ghost use Rattle.ur_serve.specs.Served.{IfDone, UnlessDone, IfDiffers};
    ghost use Rattle.ur_serve.specs.Serving.{IsReady, IsSameServer, GrowBy};
    ghost use Rattle.ur_serve.specs.Finishing.{IsDone};

    /// Attaches the keeper. The cache is empty, and no page is remembered. `Handlers::are_routes` tells whether the routes can be served.
    pub fn new<K: Keeper>(
        alloc: Global,
        verified: Verified,
        patterns: Patterns,
        keeper: &mut K,
        cache: u32,
        steps: u32,
    ) -> Result<Server, NewEnd>
        requires routes { AreRoutes verified.handlers }
        requires patterns { ArePatternsOf verified patterns }
        requires at_rest { K.under_way keeper.old ≡ false }
        ensures made { IfOk result (λ s. s ≡ record { code = verified; patterns = patterns; cache = record { capacity = cache; entries = []; masks = [] }; steps = steps; pages = [] }) }
        ensures ready { IfOk result (λ s. IsReady s (K.kept keeper.new) (K.under_way keeper.new) (K.saved keeper.new)) }
        // Where the kept schema was told: an empty store has the schema's empty tables, and one whose schema this one extends has its rows,
        // with Absent in each new column.
        ensures attached { OnOk result (AttachesTo verified.schema (K.kept keeper.old) Ready (K.saved keeper.old) (K.saved keeper.new)) }
        ensures sound { OnOk result (WhereTold (K.saved keeper.new) (AreSound verified.schema)) }
        ensures numbers { OnOk result (WhereTold (K.saved keeper.new) (NumbersUpTo 4611686018427387904)) }
        ensures differs { IfErr result (λ e. IfDiffers e (λ kept. (extends verified.schema kept ≡ false) × AttachesTo verified.schema (K.kept keeper.old) (Other kept) (K.saved keeper.old) (K.saved keeper.new))) }
        ensures keeper { IsErrOf result NewEnd.Keeper → Rose (K.faults keeper.old) (K.faults keeper.new) }
        ensures err { OnErr result ((K.saved keeper.new ≡ K.saved keeper.old) × (K.kept keeper.new ≡ K.kept keeper.old) × (K.under_way keeper.new ≡ false)) }
        ensures reads { K.reads keeper.new ≡ K.reads keeper.old }
        ensures never_falls { K.faults keeper.old ≤ K.faults keeper.new }
    {
        let pages = no_pages(alloc, cache);
        let cache = Cache::new(alloc, cache)?;
        let touching = all_touching(alloc, &verified.code().functions)?;
        attach(&verified.code().schema, keeper)?;
        Ok(Server {
            verified,
            patterns,
            cache,
            steps,
            pages,
            touching,
        })
    }

    /// Answers one request; `close` says that no other is answered on the connection.
    pub fn answer<K: Keeper>(
        &mut self,
        alloc: Global,
        keeper: &mut K,
        request: &HttpRequest,
        close: bool,
    ) -> Reply
        requires ready { IsReady self.old (K.kept keeper.old) (K.under_way keeper.old) (K.saved keeper.old) }
        requires numbers { WhereTold (K.saved keeper.old) (NumbersUpTo 9223300000000000000) }
        requires text { IsText request.now }
        // The program's answer at the saved tables, which become its own; the entries and the count of scans are those of its events.
        ensures done { WhereTold (K.saved keeper.old) (λ t. IfDone result (IsDone self.old.code self.old.patterns self.old.steps request.now close self.old.cache self.new.cache t (K.saved keeper.new) (K.reads keeper.old) (K.reads keeper.new))) }
        ensures keeper { result ≡ Reply.Keeper → Rose (K.faults keeper.old) (K.faults keeper.new) × ReachesHandler self.old.code.handlers request.now }
        ensures unsaved { UnlessDone result (K.saved keeper.new ≡ K.saved keeper.old) }
        ensures ready { IsReady self.new (K.kept keeper.new) (K.under_way keeper.new) (K.saved keeper.new) }
        // A row number and a next number rise by at most the units of a request.
        ensures growth { GrowBy self.old.steps (K.saved keeper.old) (K.saved keeper.new) }
        ensures same { IsSameServer self.old self.new }
        ensures never_falls { K.faults keeper.old ≤ K.faults keeper.new }
    {
        let code = self.verified.code();
        answer_request(
            alloc,
            code,
            &self.patterns,
            &mut self.cache,
            &mut self.pages,
            self.touching.as_slice(),
            self.steps,
            keeper,
            request,
            close,
        )
    }
}
