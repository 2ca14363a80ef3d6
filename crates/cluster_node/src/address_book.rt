//! Where the nodes of a cluster take connections, as far as a node was told.
ghost use Rattle.std.specs.Prelude.{◌≡◌, ◌≤◌, true, OnOk, OnErr};
ghost use Rattle.indexmap.specs.IndexMap.{IsUnique, index_map_len};
ghost use Rattle.node_names.specs.Same.{same_name};
ghost use Rattle.cluster_node.specs.Addresses.{address_in, after, confirmed, doubted, forgotten, heard};
ghost use Rattle.cluster_node.specs.Addresses.{no_addresses, sure_address_in};
ghost use Rattle.cluster_node.specs.declared.address_book.TheConstants.{MAX_ADDRESSES as Most};

use indexmap::IndexMap;
use node_names::NodeName;
use std::alloc::{AllocError, Allocator, Global};
use std::hash::{BuildHasherDefault, FoldHasher};
use std::marker::Model;
use std::net::SocketAddr;

/// Of how many names it is kept at most what they said of themselves, and of as many what others said.
pub const MAX_ADDRESSES: usize = 1_024;

/// An address that a node said itself.
#[derive(Clone, Copy)]
struct Known {
    at: SocketAddr,
    /// Whether the node was reached there, if that was tried since.
    is_sure: bool,
}

impl Model for Known {
    ghost use Rattle.std.specs.Prelude.{refl};
    ghost use Rattle.cluster_node.specs.Addresses.{Told};

    ghost Value = { Told };

    ghost view = { λ known. record { at = known.at; is_sure = known.is_sure } };

    ghost inverse = { λ told. record { at = told.at; is_sure = told.is_sure } };

    ghost inverse_ok = { λ told held. refl };
}

impl Known {
    /// An address that a node said itself just now.
    fn sure(at: SocketAddr) -> Known
        ensures { result ≡ record { at = at; is_sure = true } }
    {
        Known { at, is_sure: true }
    }
}

/// What was told of names, in the order in which that was told last.
type Entries<T, A> = IndexMap<NodeName, T, BuildHasherDefault<FoldHasher>, A>;

/// Puts what was told of a name last. Where more are there than are kept, the first gives way. Where memory is refused,
/// nothing changes.
fn put_last<T: Copy, A: Allocator + Copy>(
    entries: &mut Entries<T, A>,
    name: NodeName,
    told: T,
) -> Result<(), AllocError>
    requires unique { IsUnique same_name entries.old }
    requires within { index_map_len entries.old ≤ Most }
    ensures ok { OnOk result (entries.new.entries ≡ after name told entries.old.entries) }
    ensures err { OnErr result (entries.new.entries ≡ entries.old.entries) }
    ensures unique { IsUnique same_name entries.new }
    ensures within { index_map_len entries.new ≤ Most }
{
    entries.reserve(1)?;
    entries.shift_remove(&name);
    entries.insert(name, told)?;
    if entries.len() > MAX_ADDRESSES {
        entries.shift_remove_index(0);
    }
    Ok(())
}

/// Where the nodes of a cluster take connections, as far as a node was told.
///
/// What a node says of itself holds until it cannot be reached there, or 1,024 others said so of themselves since it
/// was heard of last: whatever others say, and of however many names. What others say of it is taken as long as it did
/// not say so itself, or could not be reached there.
#[derive(Drop)]
pub struct AddressBook<A: Allocator + Copy = Global> {
    own: Entries<Known, A>,
    hearsay: Entries<SocketAddr, A>,
}

impl<A: Allocator + Copy> Model for AddressBook<A> {
    ghost use Rattle.std.specs.Prelude.{◌≤◌};
    ghost use Rattle.indexmap.specs.IndexMap.{IsUnique, index_map_len};
    ghost use Rattle.node_names.specs.Same.{same_name};
    ghost use Rattle.cluster_node.specs.Addresses.{Book};
    ghost use Rattle.cluster_node.specs.declared.address_book.TheConstants.{MAX_ADDRESSES};

    ghost Value = { Book };

    ghost view = { λ s. record { own = s.own.entries; hearsay = s.hearsay.entries } };

    ghost invariant = { λ s. IsUnique same_name s.own × IsUnique same_name s.hearsay
        × (index_map_len s.own ≤ MAX_ADDRESSES) × (index_map_len s.hearsay ≤ MAX_ADDRESSES) };
}

impl<A: Allocator + Copy> AddressBook<A> {
    /// Makes a book without addresses.
    pub fn new(alloc: A) -> AddressBook<A>
        ensures { result ≡ no_addresses }
    {
        AddressBook {
            own: IndexMap::new(alloc),
            hearsay: IndexMap::new(alloc),
        }
    }

    /// Where the node of this name takes connections, if that is known.
    pub fn address_of(&self, name: &NodeName) -> Option<SocketAddr>
        ensures { result ≡ address_in self.now name.now }
    {
        match self.own.get(name) {
            Some(known) => Some(known.at),
            None => self.hearsay.get(name).copied(),
        }
    }

    /// Where the node of this name says that it takes connections, unless it could not be reached there.
    pub fn sure_address_of(&self, name: &NodeName) -> Option<SocketAddr>
        ensures { result ≡ sure_address_in self.now name.now }
    {
        match self.own.get(name) {
            Some(known) if known.is_sure => Some(known.at),
            _ => None,
        }
    }

    /// Notes what a node says of itself. Where memory is refused, nothing changes.
    pub fn confirm(&mut self, name: NodeName, at: SocketAddr) -> Result<(), AllocError>
        ensures ok { OnOk result (self.new ≡ confirmed name at self.old) }
        ensures err { OnErr result (self.new ≡ self.old) }
    {
        put_last(&mut self.own, name, Known::sure(at))?;
        self.hearsay.shift_remove(&name);
        Ok(())
    }

    /// Notes what another node says of a name. What is sure stays, and counts as told anew. Where memory is refused,
    /// nothing changes.
    pub fn hear(&mut self, name: NodeName, at: SocketAddr) -> Result<(), AllocError>
        ensures ok { OnOk result (self.new ≡ heard name at self.old) }
        ensures err { OnErr result (self.new ≡ self.old) }
    {
        if let Some(sure) = self.sure_address_of(&name) {
            return put_last(&mut self.own, name, Known::sure(sure));
        }
        put_last(&mut self.hearsay, name, at)?;
        self.own.shift_remove(&name);
        Ok(())
    }

    /// Notes that the node of this name cannot be reached: what others say of it is taken then.
    pub fn doubt(&mut self, name: &NodeName)
        ensures { self.new ≡ doubted name.now self.old }
    {
        if let Some(known) = self.own.get_mut(name) {
            known.is_sure = false;
        }
    }

    /// Forgets where the node of this name takes connections.
    pub fn forget(&mut self, name: &NodeName)
        ensures { self.new ≡ forgotten name.now self.old }
    {
        self.own.shift_remove(name);
        self.hearsay.shift_remove(name);
    }
}
