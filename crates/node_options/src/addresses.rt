//! Where a node takes connections, and what it tells others of that.
ghost use Rattle.std.specs.Prelude.{◌≡◌, true, IfOk, codes};
ghost use Rattle.node_options.specs.Addresses.{IsAddressIfGiven, IsAddressOr, IsLocal, IsSpecified, IsSpelled};
ghost use Rattle.node_options.specs.Given.{said_by};
ghost use Rattle.node_options.specs.Settings.{told_of};
ghost use Rattle.node_options.specs.Told.{text_of};

use crate::error::{OptionError, Wanted};
use crate::given::Given;
use crate::settings::Settings;
use std::alloc::Global;
use std::net::{IpAddr, Ipv4Addr, SocketAddr};

/// The port at which a node takes connections unless told, and that of hosts in a domain.
pub(crate) const PORT: u16 = 7101;

/// Where the node takes connections.
pub(crate) fn listen(settings: &Settings<'_, '_>) -> Result<SocketAddr, OptionError>
    ensures { IfOk result (IsAddressOr (IsLocal PORT) (told_of settings.now (codes "listen"))) }
{
    match settings.one("listen") {
        Some(given) => address_of(settings.alloc, &given),
        None => {
            let localhost = IpAddr::V4(Ipv4Addr::new(127, 0, 0, 1));
            Ok(SocketAddr::new(localhost, PORT))
        }
    }
}

/// What the node tells others as its address, if it takes connections at `listen`.
pub(crate) fn advertise(
    settings: &Settings<'_, '_>,
    listen: SocketAddr,
) -> Result<SocketAddr, OptionError>
    ensures specified { IfOk result IsSpecified }
    ensures value { IfOk result (IsAddressOr (λ address. address ≡ listen)
        (told_of settings.now (codes "advertise"))) }
{
    let Some(given) = settings.one("advertise") else {
        return if is_specified(listen) {
            Ok(listen)
        } else {
            Err(OptionError::NoAdvertise)
        };
    };
    let address = address_of(settings.alloc, &given)?;
    if is_specified(address) {
        Ok(address)
    } else {
        Err(given.refused(settings.alloc, Wanted::Reachable))
    }
}

/// Where the node answers requests for its status, if it does.
pub(crate) fn status(settings: &Settings<'_, '_>) -> Result<Option<SocketAddr>, OptionError>
    ensures { IfOk result (IsAddressIfGiven (told_of settings.now (codes "status"))) }
{
    match settings.one("status") {
        Some(given) => Ok(Some(address_of(settings.alloc, &given)?)),
        None => Ok(None),
    }
}

/// The address that was given, or the error that it is none.
fn address_of(alloc: Global, given: &Given<'_>) -> Result<SocketAddr, OptionError>
    ensures { IfOk result (IsSpelled (text_of (said_by given.now.source))) }
{
    let Some(text) = given.text() else {
        return Err(given.refused(alloc, Wanted::Address));
    };
    match text.parse::<SocketAddr>() {
        Ok(address) => Ok(address),
        Err(_) => Err(given.refused(alloc, Wanted::Address)),
    }
}

/// Whether an address is one that others can reach, and not that of all addresses of a host.
fn is_specified(address: SocketAddr) -> bool
    ensures { result ≡ true → IsSpecified address }
{
    let ip = address.ip();
    !ip.is_unspecified() && !ip.to_canonical().is_unspecified()
}
