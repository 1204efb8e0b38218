//! What answers requests.
ghost use Rattle.std.specs.Prelude.{◌≡◌, ◌≤◌, ℕ, suc, Bool, Option};
ghost use Rattle.ur_base.specs.Counts.{Rose};
ghost use Rattle.ur_base.specs.Told.{WhereTold};
ghost use Rattle.ur_http.specs.Texts.{IsText};
ghost use Rattle.ur_http.specs.declared.request.HttpRequest.{HttpRequest};
ghost use Rattle.ur_serve.specs.Sessions.{Answer};
ghost use Rattle.ur_serve.specs.Programs.{IsReply};

use std::alloc::Global;
use ur_base::Bytes;
use ur_http::HttpRequest;

/// What a request is answered with: the program's answer, or a keeper's fault, or want of memory.
#[derive(Debug, Drop)]
pub enum Reply {
    Done(Bytes),
    Keeper,
    Memory,
}

/// Answers requests over a keeper of tables, which is handed in at each call.
pub trait Responder<K> {
    /// What does not change: the program.
    ghost Program: { Type 0 };

    /// What answers change: the tables, and what else is told of.
    ghost State: { Type 0 };

    /// What a fault leaves of a state.
    ghost Kept: { Type 0 };

    /// A bound that numbers keep to.
    ghost Bound: { Type 0 };

    ghost program: { Self → Program };

    /// The state, where it is told.
    ghost state: { Self → K → Option State };

    ghost kept: { State → Kept };

    /// What answers a request at a state, told whether it is the last that is answered.
    ghost answers: { Program → State → HttpRequest → Bool → Answer State → Type 0 };

    /// Which requests reach a handler.
    ghost reaches: { Program → HttpRequest → Type 0 };

    /// So many requests may still be answered.
    ghost is_ready: { Bound → Self → K → ℕ → Type 0 };

    /// How often the keeper has failed.
    ghost faults: { K → ℕ };

    /// Answers one request; `close` says that no other is answered on the connection.
    fn answer(&mut self, alloc: Global, keeper: &mut K, request: &HttpRequest, close: bool) -> Reply
        requires ready { (bound : Bound) × ((n : ℕ) × is_ready bound self.old keeper.old (suc n)) }
        requires text { IsText request.now }
        ensures reply { WhereTold (state self.old keeper.old) (λ s. IsReply (answers (program self.old)) kept s request.now close result (state self.new keeper.new)) }
        ensures keeper { result ≡ Reply.Keeper → Rose (faults keeper.old) (faults keeper.new) × reaches (program self.old) request.now }
        ensures ready { (bound : Bound) (n : ℕ) → is_ready bound self.old keeper.old (suc n) → is_ready bound self.new keeper.new n }
        ensures same { program self.new ≡ program self.old }
        ensures later { faults keeper.old ≤ faults keeper.new };

    /// Where more may be answered, fewer may.
    ghost fewer: { (bound : Bound) (x : Self) (k : K) (n : ℕ) → is_ready bound x k (suc n) → is_ready bound x k n };
}
