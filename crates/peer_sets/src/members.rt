//! Members of a node, and whether each is eager or lazy.
ghost use Rattle.std.specs.Prelude.{◌≡◌, if◌then◌else◌, OnOk, OnErr, IfOk};
ghost use Rattle.node_names.specs.Same.{same_name};
ghost use Rattle.peer_sets.specs.Members.{is_member, is_eager, all_eager, with_member, with_members, without_member};
ghost use Rattle.peer_sets.specs.Members.{without_members, with_kind};

use node_names::NodeName;
use std::alloc::{AllocError, Allocator};

/// How a peer gets new messages.
#[derive(Clone, Copy, Debug, PartialEq, Eq)]
pub enum PeerKind {
    /// The peer gets the payload at once: its link is a branch of the tree.
    Eager,
    /// The peer gets an announcement, and asks for the payload if it lacks it.
    Lazy,
}

impl PeerKind {
    ghost use Rattle.peer_sets.specs.Members.{is_eager_kind};

    /// Returns whether a peer of this kind gets payloads at once.
    pub fn is_eager(self) -> bool
        ensures { result ≡ is_eager_kind self }
    {
        matches!(self, PeerKind::Eager)
    }
}

/// A member's name, and how it gets messages. With a kind for each member, in place of two sets, the type shows that no
/// member is both eager and lazy.
pub type Member = (NodeName, PeerKind);

/// Returns whether `name` is a member.
pub(crate) fn is_member(members: &[Member], name: &NodeName) -> bool
    ensures { result ≡ is_member members.now name.now }
{
    members.iter().any(|member| *name == member.0)
}

/// Returns whether `name` is an eager member.
pub(crate) fn is_eager(members: &[Member], name: &NodeName) -> bool
    ensures { result ≡ is_eager members.now name.now }
{
    members
        .iter()
        .any(|member| *name == member.0 && member.1.is_eager())
}

/// Makes each of the `peers` an eager member, in order.
pub(crate) fn all_eager<A: Allocator>(
    alloc: A,
    peers: &[NodeName],
) -> Result<Vec<Member, A>, AllocError>
    ensures { IfOk result (λ members. members.items ≡ all_eager peers.now) }
{
    let mut members = Vec::new(alloc);
    for peer in peers {
        members.push((*peer, PeerKind::Eager))?;
    }
    Ok(members)
}

/// Appends `name` as an eager member. Does nothing if it is a member already.
pub(crate) fn add<A: Allocator>(
    members: &mut Vec<Member, A>,
    name: &NodeName,
) -> Result<(), AllocError>
    ensures ok { OnOk result (members.new.items ≡ with_member name.now members.old.items) }
    ensures err { OnErr result (members.new.items ≡ members.old.items) }
{
    if is_member(members, name) {
        return Ok(());
    }
    members.push((*name, PeerKind::Eager))?;
    Ok(())
}

/// Removes the member `name`, if it is there.
pub(crate) fn remove<A: Allocator>(members: &mut Vec<Member, A>, name: &NodeName)
    ensures { members.new.items ≡ without_member name.now members.old.items }
{
    members.retain(|member| *name != member.0);
}

/// Appends each of the `names` that is not a member yet as an eager member. If memory is refused, some of them may have
/// been added.
pub(crate) fn add_all<A: Allocator>(
    members: &mut Vec<Member, A>,
    names: &[NodeName],
) -> Result<(), AllocError>
    ensures { OnOk result (members.new.items ≡ with_members names.now members.old.items) }
{
    for name in names {
        add(members, name)?;
    }
    Ok(())
}

/// Removes those of the `names` that are members.
pub(crate) fn remove_all<A: Allocator>(members: &mut Vec<Member, A>, names: &[NodeName])
    ensures { members.new.items ≡ without_members names.now members.old.items }
{
    for name in names {
        remove(members, name);
    }
}

/// Returns the kind of `member` once that of the member `name` is `kind`.
fn kind_after(member: &Member, name: &NodeName, kind: PeerKind) -> PeerKind
    ensures { (member.now.0, result) ≡ (if same_name name.now member.now.0 then (member.now.0, kind) else member.now) }
{
    if *name == member.0 { kind } else { member.1 }
}

/// Sets the kind of the member `name` to `kind`. Does nothing if there is no such member.
fn set_kind_in(members: &mut [Member], name: &NodeName, kind: PeerKind)
    ensures { members.new ≡ with_kind name.now kind members.old }
{
    for member in members {
        member.1 = kind_after(member, name, kind);
    }
}

/// Sets the kind of the member `name` to `kind`. Does nothing if there is no such member.
pub(crate) fn set_kind<A: Allocator>(members: &mut Vec<Member, A>, name: &NodeName, kind: PeerKind)
    ensures { members.new.items ≡ with_kind name.now kind members.old.items }
{
    set_kind_in(members, name, kind);
}
