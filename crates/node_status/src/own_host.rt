//! The hosts by which a node is asked to stop.
ghost use Rattle.std.specs.Prelude.{◌≡◌, ◌≤◌, ◌↔◌, length, IsTrue};
ghost use Rattle.node_status.specs.OwnHost.{IsOwnHost, host_alone, is_bracketed, len_before};

use std::net::IpAddr;

/// Whether the value of a `Host` field, with or without a port, is an IP address or `localhost`.
///
/// Such a value was not looked up in a name server, so that no page of another site gets at the node by having its own
/// name resolved to the node's address.
pub(crate) fn is_own_host(host: &[u8]) -> bool
    ensures { IsTrue result ↔ IsOwnHost host.now }
{
    let host = host_alone(host);
    if host.eq_ignore_ascii_case(b"localhost") {
        return true;
    }
    match IpAddr::parse_ascii(host) {
        Ok(_) => true,
        Err(_) => false,
    }
}

/// The host alone, without a port, and without the brackets of an IPv6 address.
fn host_alone(text: &[u8]) -> &[u8]
    ensures { result.now ≡ host_alone text.now }
{
    if is_bracketed(text) {
        let rest = &text[1..];
        return &rest[..len_before(rest, b']')];
    }
    &text[..len_before(text, b':')]
}

fn is_bracketed(text: &[u8]) -> bool
    ensures { result ≡ is_bracketed text.now }
{
    !text.is_empty() && text[0] == b'['
}

/// How many bytes stand in front of the first one that is `end`.
fn len_before(text: &[u8], end: u8) -> usize
    ensures value { result ≡ len_before text.now end }
    ensures within { result ≤ length text.now }
{
    text.iter().take_while(|byte| **byte != end).count()
}
