//! The path of a target (RFC 9112, section 3.2).
ghost use Rattle.std.specs.Prelude.{◌≡◌, MatchOption, None, Some};
ghost use Rattle.ur_http.specs.Fields as fields;

use crate::bytes::place_of;

const HTTP: &[u8] = b"http://";

const HTTPS: &[u8] = b"https://";

/// The path of a target without what its first `?` begins, if it has one.
pub(crate) fn target_path(target: &[u8]) -> Option<&[u8]>
    ensures { MatchOption result (fields.target_path target.now ≡ None) (λ path. fields.target_path target.now ≡ Some path.now) }
{
    path_in(before_query(target))
}

fn before_query(target: &[u8]) -> &[u8]
    ensures { result.now ≡ fields.before_query target.now }
{
    match place_of(target, b'?') {
        Some(end) => &target[..end],
        None => target,
    }
}

fn path_in(target: &[u8]) -> Option<&[u8]>
    ensures { MatchOption result (fields.path_in target.now ≡ None) (λ path. fields.path_in target.now ≡ Some path.now) }
{
    if begins_with_slash(target) {
        return Some(target);
    }
    absolute(target)
}

fn begins_with_slash(target: &[u8]) -> bool
    ensures { result ≡ fields.begins_with_slash target.now }
{
    match target {
        [] => false,
        [first, ..] => *first == b'/',
    }
}

fn absolute(target: &[u8]) -> Option<&[u8]>
    ensures { MatchOption result (fields.absolute_in target.now ≡ None) (λ path. fields.absolute_in target.now ≡ Some path.now) }
{
    if let Some(rest) = target.strip_prefix(HTTP) {
        return after_authority(rest);
    }
    match target.strip_prefix(HTTPS) {
        Some(rest) => after_authority(rest),
        None => None,
    }
}

fn after_authority(bytes: &[u8]) -> Option<&[u8]>
    ensures { MatchOption result (fields.path_after_authority bytes.now ≡ None) (λ path. fields.path_after_authority bytes.now ≡ Some path.now) }
{
    match place_of(bytes, b'/') {
        Some(0) => None,
        Some(end) => Some(&bytes[end..]),
        None if bytes.is_empty() => None,
        None => Some(b"/"),
    }
}
