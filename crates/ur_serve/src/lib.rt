//! The server, without sight of the source: sessions of connections, whose requests are answered one after the other.
#![tactic(auto)]

mod answering;
mod arrivals;
mod attaching;
mod ending;
mod ends;
mod finishing;
mod handling;
mod law;
mod laws;
mod noting;
mod remembering;
mod responder;
mod responding;
mod routing;
mod saying;
mod server;
mod sessions;

pub use ending::end;
pub use ends::{NewEnd, Routed};
pub use handling::handle;
pub use law::starts_the_call;
pub use laws::one_front;
pub use responder::{Reply, Responder};
pub use routing::route_request;
pub use server::Server;
pub use sessions::session;
