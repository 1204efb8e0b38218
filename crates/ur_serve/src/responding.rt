//! The server as what answers the requests of sessions.
use crate::{Reply, Responder, Server};
use std::alloc::Global;
use ur_http::HttpRequest;
use ur_keeper::Keeper;

/// The program is what the server holds of it; the state is the saved store with the entries of the cache and the count of scans,
/// of which a fault leaves the store.
impl<K: Keeper> Responder<K> for Server {
    ghost use Rattle.std.specs.Prelude.{ℕ};
    ghost use Rattle.ur_values.specs.Store.{Store};
    ghost use Rattle.ur_serve.specs.Program.{ServedProgram, Holding, ServedAnswers, ServedReaches};
    ghost use Rattle.ur_serve.specs.Serving.{IsReadyWithin};
    ghost use Rattle.ur_serve.specs.Responding.{served_by, holding_of};
    ghost use Rattle.std.proofs.Math.Nat.{le_step};

    ghost Program = { ServedProgram };

    ghost State = { Holding };

    ghost Kept = { Store };

    ghost Bound = { ℕ };

    ghost program = { λ s. served_by s };

    ghost state = { λ s k. holding_of s (K.saved k) (K.reads k) };

    ghost kept = { λ h. h.store };

    ghost answers = { λ p h q last a. ServedAnswers p h q last a };

    ghost reaches = { λ p q. ServedReaches p q };

    ghost is_ready = { λ bound s k n. IsReadyWithin bound s (K.kept k) (K.under_way k) (K.saved k) n };

    ghost faults = { λ k. K.faults k };

    fn answer(
        &mut self,
        alloc: Global,
        keeper: &mut K,
        request: &HttpRequest,
        close: bool,
    ) -> Reply {
        Server::answer(self, alloc, keeper, request, close)
    }

    ghost fewer = { λ bound s k n h. record {
      ready = h.ready;
      most = h.most;
      numbers = h.numbers;
      room = λ j below. h.room j (le_step below);
      within = h.within;
    } };
}
