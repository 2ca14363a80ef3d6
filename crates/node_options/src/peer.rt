//! Where another node takes connections.
ghost use Rattle.std.specs.Prelude.{◌≡◌, ℕ, List, length, Some, IfOk, codes, option_map, vec_len};
ghost use Rattle.std.specs.List.{list_any};
ghost use Rattle.clap.specs.Matches.{found_of, matched_of, raw_values};
ghost use Rattle.node_names.specs.Same.{same_name};
ghost use Rattle.node_options.specs.Peers.{AreApart};

use crate::domain::is_host;
use crate::error::{OptionError, Wanted};
use crate::given::Given;
use crate::settings::Settings;
use node_names::NodeName;
use std::alloc::{AllocError, Global};
use std::net::Ipv6Addr;

/// Where another node takes connections.
#[derive(Debug, Drop)]
pub struct Peer {
    /// The name of the node.
    pub name: NodeName,
    /// An IP address, or the name of a host: 1 to 253 letters, digits, `-`, `_` and `.`. An IPv6 address has no
    /// brackets.
    pub host: String,
    /// The port, which is not 0.
    pub port: u16,
}

/// A peer whose host is not copied.
#[derive(Drop)]
struct Parts<'s> {
    name: NodeName,
    host: &'s str,
    port: u16,
}

impl<'s> Parts<'s> {
    /// Reads a peer, written `NAME=HOST:PORT`. An IPv6 address stands in brackets.
    fn of(text: &'s str) -> Option<Parts<'s>> {
        let (name, at) = text.split_once('=')?;
        let (host, port) = at.rsplit_once(':')?;
        Some(Parts {
            name: NodeName::parse(name.as_bytes()).ok()?,
            host: host_of(host)?,
            port: port_of(port)?,
        })
    }

    fn to_peer(&self, alloc: Global) -> Result<Peer, AllocError> {
        Ok(Peer {
            name: self.name,
            host: String::from_str(alloc, self.host)?,
            port: self.port,
        })
    }
}

/// The name of a host or the IP address that a text is, without the brackets of an IPv6 address.
fn host_of(text: &str) -> Option<&str> {
    match text.strip_prefix('[') {
        Some(rest) => {
            let address = rest.strip_suffix(']')?;
            address.parse::<Ipv6Addr>().ok()?;
            Some(address)
        }
        None if is_host(text) => Some(text),
        None => None,
    }
}

/// Reads a port that is not 0.
fn port_of(text: &str) -> Option<u16> {
    match text.parse::<u16>() {
        Ok(port) if port != 0 && !text.starts_with('+') => Some(port),
        _ => None,
    }
}

/// The peers. A second one of the same name is refused.
pub(crate) fn peers(settings: &Settings<'_, '_>) -> Result<Vec<Peer>, OptionError>
    ensures apart { IfOk result (λ peers. AreApart peers.items) }
    ensures words { (texts : List (List ℕ))
        → option_map raw_values (matched_of (found_of settings.now.words.now) (codes "peer")) ≡ Some texts
        → IfOk result (λ peers. vec_len peers ≡ length texts) }
{
    let mut peers = Vec::new(settings.alloc);
    for given in &settings.all("peer")? {
        let peer = peer_of(settings.alloc, given)?;
        if is_among(&peers, &peer.name) {
            return Err(OptionError::SecondPeer {
                place: given.place(),
                value: given.written(settings.alloc)?,
            });
        }
        peers.push(peer)?;
    }
    Ok(peers)
}

fn peer_of(alloc: Global, given: &Given<'_>) -> Result<Peer, OptionError> {
    let text = given.text().unwrap_or("");
    match Parts::of(text) {
        Some(parts) => Ok(parts.to_peer(alloc)?),
        None => Err(given.refused(alloc, Wanted::Peer)),
    }
}

/// Whether a peer has this name.
fn is_among(peers: &[Peer], name: &NodeName) -> bool
    ensures { result ≡ list_any (λ peer. same_name name.now peer.name) peers.now }
{
    peers.iter().any(|peer| name == &peer.name)
}
