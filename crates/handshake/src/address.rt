//! The address where a node listens.
ghost use Rattle.std.specs.Prelude.{◌≡◌};
ghost use Rattle.std.specs.Net.Socket.{socket_flowinfo, socket_scope_id};
ghost use Rattle.handshake.specs.Socket.{of_socket};

use std::net::{IpAddr, Ipv4Addr, Ipv6Addr, SocketAddr};

/// An IPv4 or an IPv6 address, and a port. Unlike a `SocketAddr`, it has no flow information and no scope.
#[derive(Clone, Copy, Debug, PartialEq, Eq)]
pub enum Address {
    /// The four octets of an IPv4 address, most significant first, and a port.
    V4 { octets: [u8; 4], port: u16 },
    /// The sixteen octets of an IPv6 address, most significant first, and a port.
    V6 { octets: [u8; 16], port: u16 },
}

/// Takes the IP address and the port of a socket, and leaves its flow information and its scope out.
impl From<SocketAddr> for Address {
    ghost use Rattle.std.specs.Prelude.{◌≡◌};
    ghost use Rattle.handshake.specs.Socket.{of_socket};

    ghost from_gives = { λ socket address. address ≡ of_socket socket };

    fn from(socket: SocketAddr) -> Address {
        let port = socket.port();
        match socket.ip() {
            IpAddr::V4(ip) => Address::V4 {
                octets: ip.octets(),
                port,
            },
            IpAddr::V6(ip) => Address::V6 {
                octets: ip.octets(),
                port,
            },
        }
    }
}

fn v6_socket(octets: &[u8; 16], port: u16) -> SocketAddr
    ensures { (of_socket result ≡ Address.V6 octets.now port)
        × (socket_flowinfo result ≡ 0) × (socket_scope_id result ≡ 0) }
{
    SocketAddr::new(IpAddr::V6(Ipv6Addr::from_octets(*octets)), port)
}

/// Makes a socket's address of the IP address and the port, with no flow information and no scope.
impl From<Address> for SocketAddr {
    ghost use Rattle.std.specs.Prelude.{◌≡◌};
    ghost use Rattle.std.specs.Net.Socket.{socket_flowinfo, socket_scope_id};
    ghost use Rattle.handshake.specs.Socket.{of_socket};

    ghost from_gives = { λ address socket. (of_socket socket ≡ address)
        × (socket_flowinfo socket ≡ 0) × (socket_scope_id socket ≡ 0) };

    fn from(address: Address) -> SocketAddr {
        match address {
            Address::V4 { octets, port } => {
                SocketAddr::new(IpAddr::V4(Ipv4Addr::from_octets(octets)), port)
            }
            Address::V6 { octets, port } => v6_socket(&octets, port),
        }
    }
}
