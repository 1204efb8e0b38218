//! A run.
ghost use Rattle.std.specs.Prelude.{◌≡◌, ◌≢◌, ◌⊎◌, ◌≤◌, ℕ, true, false, List, [], ◌∷◌, ◌++◌, length, Some, None, Any, Contains};
ghost use Rattle.ur_base.specs.declared.refusal.Refusal.{Refusal};
ghost use Rattle.ur_base.specs.Counts.{Rose, RoseBy};
ghost use Rattle.ur_base.specs.Told.{WhereTold};
ghost use Rattle.ur_values.specs.declared.schema.Schema.{Schema};
ghost use Rattle.ur_values.specs.Extends.{extends};
ghost use Rattle.ur_keeper.specs.Keeper.{TellsStore, CanTake, HasOther};
ghost use Rattle.ur_keeper.specs.Tables.{Keeps};
ghost use Rattle.ur_compile.specs.Accepts.{HasOneApplication};
ghost use Rattle.ur_compile.specs.Explains.{Refuses};
ghost use Rattle.ur_headline.specs.Counting.{keeper_faults, IsCutOff, IsWireStatus, LeftOut};
ghost use Rattle.ur_headline.specs.Readings.{serving, ForServing};
ghost use Rattle.ur_headline.specs.Source.{LinksLead};
ghost use Rattle.ur_top.specs.Ends.{world, HasFiles, IsSaid, ServesSome};
ghost use Rattle.ur_top.specs.Obeyed.{Obeyed};
ghost use Rattle.ur_top.specs.Prints.{first_line};
ghost use Rattle.ur_top.specs.Runs.{IsServing, failures, ServesNone, IsReplay, IsLeft, Stays, IsUncalled, IsUnasked, IsWireCount};
ghost use Rattle.ur_top.specs.Runs.{Says, Begins, IsDue, EndsWell, Completes, ForLoad};
ghost use Rattle.ur_top.specs.Serving.{HasFewRequests};
ghost use Rattle.ur_top.specs.Sources.{asked, ForSource, OfSource, ForApplication, ForCompiled, ForReported, HasNoCode};

use crate::Outcome;
use crate::load_command::loaded;
use crate::reporting::{RunEnd, report};
use crate::reports::{check, sites};
use crate::serving::{EndedServing, replay, serve, unserved};
use std::alloc::Global;
use ur_compile::one_application;
use ur_io::{Shelf, Sink, Wire};
use ur_keeper::Keeper;
use ur_words::{Reading, read_words};

/// Does what the words ask, those after the program's name: `check P`, `sites P`, `replay P`, `serve P --port n` or
/// `load SEED N`.
pub fn run<S: Shelf, W: Wire, K: Keeper, O: Sink>(
    alloc: Global,
    words: &[String],
    shelf: &mut S,
    wire: &mut W,
    keeper: &mut K,
    out: &mut O,
) -> Outcome
    requires { K.under_way keeper.old ≡ false }
    // What is served. The headline: whatever the status is and whatever the capacity of the cache, where the shelf, the wire and the keeper
    // tell what they have.
    ensures serves { ForApplication (S.told shelf.old) (asked words.now)
        (λ s app. IsServing app s K.kept K.saved K.reads keeper.old keeper.new W.told wire.old wire.new result) }
    ensures links { ForApplication (S.told shelf.old) (asked words.now) (λ s app. result.sessions ≢ [] → LinksLead app) }
    ensures one_application { ForSource (S.told shelf.old) (asked words.now) (λ files word. HasOneApplication files word) }
    // Where no call of a device failed, all is served and reported, or memory is wanting.
    ensures complete { Completes S.told S.faults shelf.old shelf.new W.told W.faults wire.old wire.new
        K.kept K.faults keeper.old keeper.new O.faults out.old out.new words.now result }
    ensures complete_report { ForReported (S.told shelf.old) (asked words.now) (λ app. Stays S.faults shelf.old shelf.new
        → Stays O.faults out.old out.new → EndsWell result.status) }
    ensures complete_load { ForLoad (S.told shelf.old) (asked words.now) (Stays O.faults out.old out.new → EndsWell result.status) }
    // No connection is left out without a cause; so status 0 never comes where connections were to come and `next` failed.
    ensures left_out { WhereTold (W.told wire.old) (λ t. ForServing (asked words.now)
        (λ s. LeftOut failures s.most (length t.coming) result.status result.sessions)) }
    ensures few { ForServing (asked words.now) (λ s. length result.sessions ≤ s.most) }
    ensures few_requests { HasFewRequests result.sessions }

    // Causes of the status. A count rises only where a call failed.
    ensures statuses { Contains (0 ∷ 1 ∷ 2 ∷ 3 ∷ 4 ∷ 5 ∷ 6 ∷ 7 ∷ 8 ∷ []) result.status }
    ensures usage_only { result.status ≡ 1 → asked words.now ≡ None }
    ensures usage { asked words.now ≡ None → Contains (1 ∷ 5 ∷ 8 ∷ []) result.status }
    ensures refused_only { result.status ≡ 2 → (file : List ℕ) × ((r : Refusal) × OfSource (S.told shelf.old) (asked words.now)
        (λ files word. Refuses files word file r)) }
    ensures refused { ForSource (S.told shelf.old) (asked words.now) (λ files word. HasNoCode files word → Contains (2 ∷ 4 ∷ 5 ∷ 8 ∷ []) result.status) }
    ensures schema_only { result.status ≡ 3 → ForApplication (S.told shelf.old) (asked words.now) (λ s app. CanTake app.schema (K.kept keeper.old) → ⊥) }
    ensures schema_left { result.status ≡ 3 → (serving (asked words.now) ≢ None) × (K.saved keeper.new ≡ K.saved keeper.old)
        × (K.kept keeper.new ≡ K.kept keeper.old) }
    ensures schema { ForCompiled (S.told shelf.old) (asked words.now) (λ s app. HasOther app.schema (K.kept keeper.old) → ServesNone result) }
    ensures shelf_fault { result.status ≡ 4 → Rose (S.faults shelf.old) (S.faults shelf.new) × HasFiles (asked words.now) }
    ensures sink_fault { result.status ≡ 5 → Rose (O.faults out.old) (O.faults out.new) }
    ensures wire_fault { result.status ≡ 6 → Rose (W.faults wire.old) (W.faults wire.new) × IsWireStatus (asked words.now) result.sessions }
    ensures keeper_fault { result.status ≡ 7 → Rose (K.faults keeper.old) (K.faults keeper.new) × (result.sessions ≡ []) × (serving (asked words.now) ≢ None) }
    // A handler fails by a keeper's fault only where the keeper's count rose. With `replay` a session that was cut off is seen in the status.
    ensures keeper_faults { RoseBy (keeper_faults result.sessions) (K.faults keeper.old) (K.faults keeper.new) }
    ensures wire_counted { IsWireCount (asked words.now) result.sessions result.status (W.faults wire.old) (W.faults wire.new) }
    ensures replay_cut { ForServing (asked words.now) (λ s. Any IsCutOff result.sessions → IsReplay (asked words.now) s → Contains (5 ∷ 6 ∷ []) result.status) }

    // What stays: where serving did not begin, where there is no session, and after every run.
    ensures not_begun { Contains (1 ∷ 2 ∷ 3 ∷ 4 ∷ 7 ∷ []) result.status → (result.sessions ≡ []) × IsUncalled W.told W.faults W.is_current wire.old wire.new }
    ensures wanting { result.status ≡ 8 → result.sessions ≡ [] → IsUncalled W.told W.faults W.is_current wire.old wire.new }
    ensures unsaid { result.status ≡ 5 → result.sessions ≡ [] → IsUncalled W.told W.faults W.is_current wire.old wire.new ⊎ (W.is_current wire.new ≡ false) }
    ensures no_serving { serving (asked words.now) ≡ None → (result.sessions ≡ []) × IsUncalled W.told W.faults W.is_current wire.old wire.new }
    ensures no_serving_keeper { serving (asked words.now) ≡ None → IsUnasked K.saved K.kept K.reads K.faults keeper.old keeper.new }
    ensures unserved { Contains (1 ∷ 2 ∷ 3 ∷ 4 ∷ 7 ∷ []) result.status → (K.saved keeper.new ≡ K.saved keeper.old) × (K.kept keeper.new ≡ K.kept keeper.old) }
    ensures idle { result.sessions ≡ [] → WhereTold (W.told wire.old) (λ t. W.told wire.new ≡ Some t) × (K.reads keeper.new ≡ K.reads keeper.old) }
    ensures left { result.sessions ≡ [] → (schema : Schema) × IsLeft schema K.kept K.saved keeper.old keeper.new }
    ensures attached { ForApplication (S.told shelf.old) (asked words.now) (λ s app. result.sessions ≡ []
        → IsLeft app.schema K.kept K.saved keeper.old keeper.new) }
    ensures kept { ForApplication (S.told shelf.old) (asked words.now)
        (λ s app. (K.kept keeper.new ≡ K.kept keeper.old) ⊎ (K.kept keeper.new ≡ Keeps app.schema)) }
    // A schema that was kept is kept, or one that extends it.
    ensures schema_kept { (k : Schema) → K.kept keeper.old ≡ Keeps k → (s : Schema) × (K.kept keeper.new ≡ Keeps s) × (extends s k ≡ true) }
    ensures no_current { ForServing (asked words.now) (λ s. Contains (0 ∷ 6 ∷ []) result.status ⊎ (result.sessions ≢ []) → W.is_current wire.new ≡ false) }
    ensures at_rest { K.under_way keeper.new ≡ false }
    ensures files_kept { S.told shelf.new ≡ S.told shelf.old }
    ensures never_fall { (S.faults shelf.old ≤ S.faults shelf.new) × (W.faults wire.old ≤ W.faults wire.new) × (K.faults keeper.old ≤ K.faults keeper.new) }
    ensures sink_never_falls { O.faults out.old ≤ O.faults out.new }

    // What is printed: the report that is due, with its cause, or at status 5 a front of it.
    ensures printed { Says O.told out.old out.new (IsDue S.told S.faults shelf.old shelf.new W.faults wire.old wire.new
        K.kept K.faults keeper.old keeper.new words.now result) }
    ensures announced { result.sessions ≢ [] → Begins O.told out.old out.new (first_line (asked words.now)) }
{
    one_application();
    let EndedServing { end, sessions } = obey(alloc, words, shelf, wire, keeper, out);
    let status = report(alloc, &end, out);
    Outcome { status, sessions }
}

/// Does all but the last report.
fn obey<S: Shelf, W: Wire, K: Keeper, O: Sink>(
    alloc: Global,
    words: &[String],
    shelf: &mut S,
    wire: &mut W,
    keeper: &mut K,
    out: &mut O,
) -> EndedServing
    requires { K.under_way keeper.old ≡ false }
    ensures obeyed { Obeyed (S.told shelf.old) (TellsStore (K.kept keeper.old) (K.saved keeper.old)) (asked words.now)
        (world S.faults W.told W.is_current W.faults K.kept K.saved K.reads K.under_way K.faults shelf.old wire.old keeper.old)
        (world S.faults W.told W.is_current W.faults K.kept K.saved K.reads K.under_way K.faults shelf.new wire.new keeper.new)
        result.end result.sessions }
    ensures said { WhereTold (O.told out.old) (λ before. (text : List ℕ) × (O.told out.new ≡ Some (before ++ text))
        × IsSaid (asked words.now) result.end text) }
    ensures announced { result.sessions ≢ [] → WhereTold (O.told out.old) (λ before. O.told out.new ≡ Some (before ++ first_line (asked words.now))) }
    ensures sink { result.end ≡ RunEnd.Sink → Rose (O.faults out.old) (O.faults out.new) }
    ensures files_kept { S.told shelf.new ≡ S.told shelf.old }
    ensures never_falls { O.faults out.old ≤ O.faults out.new }
{
    match read_words(alloc, words) {
        Ok(None) => unserved(alloc, RunEnd::Usage),
        Ok(Some(reading)) => act(alloc, reading, shelf, wire, keeper, out),
        Err(_) => unserved(alloc, RunEnd::Memory),
    }
}

/// Does what a command says.
fn act<S: Shelf, W: Wire, K: Keeper, O: Sink>(
    alloc: Global,
    reading: Reading,
    shelf: &mut S,
    wire: &mut W,
    keeper: &mut K,
    out: &mut O,
) -> EndedServing
    requires at_rest { K.under_way keeper.old ≡ false }
    requires some { ServesSome reading }
    ensures obeyed { Obeyed (S.told shelf.old) (TellsStore (K.kept keeper.old) (K.saved keeper.old)) (Some reading)
        (world S.faults W.told W.is_current W.faults K.kept K.saved K.reads K.under_way K.faults shelf.old wire.old keeper.old)
        (world S.faults W.told W.is_current W.faults K.kept K.saved K.reads K.under_way K.faults shelf.new wire.new keeper.new)
        result.end result.sessions }
    ensures said { WhereTold (O.told out.old) (λ before. (text : List ℕ) × (O.told out.new ≡ Some (before ++ text)) × IsSaid (Some reading) result.end text) }
    ensures announced { result.sessions ≢ [] → WhereTold (O.told out.old) (λ before. O.told out.new ≡ Some (before ++ first_line (Some reading))) }
    ensures sink { result.end ≡ RunEnd.Sink → Rose (O.faults out.old) (O.faults out.new) }
    ensures files_kept { S.told shelf.new ≡ S.told shelf.old }
    ensures never_falls { O.faults out.old ≤ O.faults out.new }
{
    match reading {
        Reading::Check(project) => unserved(alloc, check(alloc, shelf, &project)),
        Reading::Sites(project) => unserved(alloc, sites(alloc, shelf, &project)),
        Reading::Load(seed, count) => unserved(alloc, loaded(alloc, seed, count)),
        Reading::Replay(project, settings) => {
            replay(alloc, &project, &settings, shelf, wire, keeper)
        }
        Reading::Serve(project, port, settings, most) => {
            serve(
                alloc, &project, port, &settings, most, shelf, wire, keeper, out,
            )
        }
    }
}
