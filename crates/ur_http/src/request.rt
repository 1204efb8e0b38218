//! Requests, and the items that a connection's bytes are cut into.
use ur_base::{List, Text};

/// The methods that are told apart (RFC 9110, section 9.1).
#[derive(Copy, Clone, Debug, Drop, PartialEq, Eq)]
pub enum Method {
    Get,
    Head,
    Post,
    Other,
}

/// A whole request: its path before any `?`, the pairs of its form and of its cookies in order, and whether its
/// answer is to close the connection.
#[derive(Debug, Drop)]
pub struct HttpRequest {
    pub method: Method,
    pub path: Text,
    pub form: List<(Text, Text)>,
    pub cookies: List<(Text, Text)>,
    pub close: bool,
}

/// The next whole request, or that more bytes are needed, or the status with which the bytes are refused.
#[derive(Debug, Drop)]
pub enum Item {
    Request(HttpRequest),
    NeedMore,
    Bad(u16),
}
