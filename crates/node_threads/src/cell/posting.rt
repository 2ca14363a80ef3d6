//! From the packets of a step to the rings of the open links.
ghost use Rattle.std.specs.Prelude.{◌≡◌, ◌≤◌, ◌<◌, ◌+◌, ◌∷◌, ◌++◌, [], true, not, filter};
ghost use Rattle.std.specs.Prelude.{IfOk, OnOk, All, List, length, vec_len, vec_capacity};
ghost use Rattle.std.specs.List.{IsDistinct};
ghost use Rattle.node_names.specs.NodeName.{Name};
ghost use Rattle.node_names.specs.Same.{has_name, same_name};
ghost use Rattle.node_threads.specs.Applying.{mail_for, with_name};
ghost use Rattle.node_threads.specs.Cell.{is_linked, peers_of, Link as Seen};
ghost use Rattle.node_threads.specs.Letters.{HaveMail, IsAddressed, Letter as Sent, Posted, lacking};
ghost use Rattle.node_threads.specs.Letters.{left_open, mail_in, still_named, with_lacking};
ghost use Rattle.node_threads.specs.LinkText.{spelling};

use crate::cell::link::{Link, Mail};
use crate::cell::link_frame::LinkFrame;
use frames::Frame;
use node_names::{Listed, NameSet, NodeName, has_name};
use protocol::{Delivery, Out, copy_deliveries};
use std::alloc::{AllocError, Allocator};
use std::mem;

/// A frame for an open link: the name that the link goes to, and the link's place.
pub(crate) type Letter<A> = (NodeName, usize, LinkFrame<A>);

/// Whether a link to the name is open.
pub(crate) fn has_link<A: Allocator>(links: &[Link<A>], name: &NodeName) -> bool
    ensures { result ≡ is_linked links.now name.now }
{
    links.iter().any(|link| *name == link.peer)
}

/// Appends the frame of a packet, if it goes to the peer.
fn add_mail<A: Allocator + Copy>(
    mail: &mut Mail<A>,
    peer: &NodeName,
    send: &(NodeName, Frame<A>),
) -> Result<(), AllocError>
    ensures { OnOk result (mail.new ≡ mail.old ++ mail_for (send.now ∷ []) peer.now) }
{
    if send.0 != *peer {
        return Ok(());
    }
    mail.push(LinkFrame::of(&send.1)?)
}

/// The frames of these packets that go to the peer, in order.
pub(crate) fn mail_for<A: Allocator + Copy>(
    alloc: A,
    peer: &NodeName,
    sends: &[(NodeName, Frame<A>)],
) -> Result<Mail<A>, AllocError>
    ensures { IfOk result (λ mail. mail ≡ mail_for sends.now peer.now) }
{
    let mut mail = Listed::new(alloc);
    for send in sends {
        add_mail(&mut mail, peer, send)?;
    }
    Ok(mail)
}

/// Appends a name, unless it is there already.
fn add_name<A: Allocator>(names: &mut Vec<NodeName, A>, name: NodeName) -> Result<(), AllocError>
    ensures { OnOk result (names.new.items ≡ with_name names.old.items name) }
{
    if names.contains(&name) {
        return Ok(());
    }
    names.push(name)?;
    Ok(())
}

/// Appends a letter.
fn add_letter<A: Allocator + Copy>(
    letters: &mut Vec<Letter<A>, A>,
    place: usize,
    send: &(NodeName, Frame<A>),
) -> Result<(), AllocError>
    ensures { OnOk result (letters.new.items ≡ letters.old.items ++ (send.now.0, place, spelling send.now.1) ∷ []) }
{
    let frame = LinkFrame::of(&send.1)?;
    letters.push((send.0, place, frame))?;
    Ok(())
}

/// Appends the frame of a packet to `letters` if a link to its receiver is open, and otherwise the receiver to
/// `lacking`.
fn address<A: Allocator + Copy>(
    names: &NameSet<A>,
    send: &(NodeName, Frame<A>),
    letters: &mut Vec<Letter<A>, A>,
    lacking: &mut Vec<NodeName, A>,
) -> Result<(), AllocError>
    ensures mail { OnOk result ((peer : Name)
        → has_name names.now.keys peer ≡ true
        → mail_in letters.new.items peer ≡ mail_in letters.old.items peer ++ mail_for (send.now ∷ []) peer) }
    ensures addressed { OnOk result
        (All (IsAddressed names.now.keys) letters.old.items → All (IsAddressed names.now.keys) letters.new.items) }
    ensures lacking { OnOk result (lacking.new.items ≡ with_lacking names.now.keys lacking.old.items send.now) }
{
    match names.get_index_of(&send.0) {
        Some(place) => add_letter(letters, place, send),
        None => add_name(lacking, send.0),
    }
}

/// The frames of these packets for the open links, whose names are given in the order of the links; and the receivers
/// without an open link, each once. Contracts go link by link (`Puts`), but each packet's link is found by its name, so
/// that a step costs what it sends.
fn letters_for<A: Allocator + Copy>(
    alloc: A,
    names: &NameSet<A>,
    sends: &[(NodeName, Frame<A>)],
) -> Result<(Vec<Letter<A>, A>, Vec<NodeName, A>), AllocError>
    ensures mail { IfOk result (λ r. HaveMail names.now.keys sends.now r.0.items) }
    ensures addressed { IfOk result (λ r. All (IsAddressed names.now.keys) r.0.items) }
    ensures lacking { IfOk result (λ r. r.1.items ≡ lacking names.now.keys sends.now) }
{
    let mut letters = Vec::with_capacity(alloc, sends.len())?;
    let mut lacking = Vec::new(alloc);
    for send in sends {
        address(names, send, &mut letters, &mut lacking)?;
    }
    Ok((letters, lacking))
}

/// Puts a frame into the ring of its link, or, if that has no room, the name of the link into `blocked`. Nothing more
/// is put into the ring of a blocked link, since what comes out of a link must be the beginning of what the node sent
/// to its peer.
fn post_one<A: Allocator>(links: &mut [Link<A>], letter: Letter<A>, blocked: &mut Vec<NodeName, A>)
    requires addressed { IsAddressed (peers_of links.old) letter }
    requires within { letter.1 < length links.old }
    requires distinct { IsDistinct same_name (peers_of links.old) }
    requires room { vec_len blocked.old < vec_capacity blocked.old }
    ensures posted { (before : List Sent) (first : List Seen)
        → Posted blocked.old.items before first links.old
        → Posted blocked.new.items (before ++ letter ∷ []) first links.new }
    ensures peers { peers_of links.new ≡ peers_of links.old }
    ensures room { (vec_len blocked.new ≤ vec_len blocked.old + 1)
        × (vec_capacity blocked.old ≤ vec_capacity blocked.new) }
{
    let (peer, place, frame) = letter;
    if has_name(blocked.as_slice(), &peer) {
        return;
    }
    if !links[place].push(frame) {
        blocked.push(peer).unwrap();
    }
}

/// Puts the letters into the rings of their links, in order, and the names of the links that had no room for all of
/// their letters into `blocked`.
pub(crate) fn post_all<A: Allocator>(
    links: &mut [Link<A>],
    letters: Vec<Letter<A>, A>,
    blocked: &mut Vec<NodeName, A>,
)
    requires addressed { All (IsAddressed (peers_of links.old)) letters.items }
    requires distinct { IsDistinct same_name (peers_of links.old) }
    requires none { blocked.old.items ≡ [] }
    requires room { vec_len blocked.old + vec_len letters ≤ vec_capacity blocked.old }
    ensures posted { Posted blocked.new.items letters.items links.old links.new }
    ensures peers { peers_of links.new ≡ peers_of links.old }
{
    for letter in letters {
        post_one(links, letter, blocked);
    }
}

/// Appends the name of a link to `full`, if the link is blocked.
fn add_blocked<A: Allocator>(full: &mut Vec<NodeName, A>, blocked: &[NodeName], peer: NodeName)
    requires { vec_len full.old < vec_capacity full.old }
    ensures full { full.new.items ≡ full.old.items ++ filter (has_name blocked.now) (peer ∷ []) }
    ensures room { (vec_len full.new ≤ vec_len full.old + 1) × (vec_capacity full.old ≤ vec_capacity full.new) }
{
    if has_name(blocked, &peer) {
        full.push(peer).unwrap();
    }
}

/// Appends the names of the blocked links to `full`, in the order of the links.
fn names_in_order<A: Allocator>(
    links: &[Link<A>],
    blocked: &[NodeName],
    full: &mut Vec<NodeName, A>,
)
    requires { vec_len full.old + length links.now ≤ vec_capacity full.old }
    ensures { full.new.items ≡ full.old.items ++ filter (has_name blocked.now) (peers_of links.now) }
{
    for link in links {
        add_blocked(full, blocked, link.peer());
    }
}

/// Closes the links to these names, and appends their names to `full` in the order of the links.
fn close_blocked<A: Allocator>(
    links: &mut Vec<Link<A>, A>,
    names: &mut NameSet<A>,
    blocked: &[NodeName],
    full: &mut Vec<NodeName, A>,
)
    requires { vec_len full.old + vec_len links.old ≤ vec_capacity full.old }
    ensures full { full.new.items ≡ full.old.items ++ filter (has_name blocked.now) (peers_of links.old.items) }
    ensures links { links.new.items ≡ left_open blocked.now links.old.items }
    ensures names { names.new.keys ≡ still_named blocked.now names.old.keys }
{
    names_in_order(links, blocked, full);
    links.retain(
        |link: &Link<A>| -> bool
            ensures { result ≡ not (has_name blocked.entry.now link.now.peer) }
        { !has_name(blocked, &link.peer()) },
    );
    names.retain(
        |name: &NodeName| -> bool
            ensures { result ≡ not (has_name blocked.entry.now name.now) }
        { !has_name(blocked, name) },
    );
}

/// Closes the links that are blocked, if any are. Returns their names in the order of the links. `room` has room for
/// the names of all links; this room is given away if a link is closed.
pub(crate) fn close_full<A: Allocator + Copy>(
    links: &mut Vec<Link<A>, A>,
    names: &mut NameSet<A>,
    room: &mut Vec<NodeName, A>,
    blocked: Vec<NodeName, A>,
) -> Vec<NodeName, A>
    requires empty { room.old.items ≡ [] }
    requires room { vec_len room.old + vec_len links.old ≤ vec_capacity room.old }
    ensures full { result.items ≡ filter (has_name blocked.items) (peers_of links.old.items) }
    ensures links { links.new.items ≡ left_open blocked.items links.old.items }
    ensures names { names.new.keys ≡ still_named blocked.items names.old.keys }
    ensures room { room.new.items ≡ [] }
{
    if blocked.as_slice().is_empty() {
        return blocked;
    }
    let alloc = *links.allocator();
    let mut full = mem::replace(room, Vec::new(alloc));
    close_blocked(links, names, blocked.as_slice(), &mut full);
    full
}

/// All that a step needs besides the step itself, prepared so that nothing can be refused after the step.
#[derive(Drop)]
pub(crate) struct Posting<A: Allocator> {
    /// The frames for open links, in the order of the packets.
    pub(crate) letters: Vec<Letter<A>, A>,
    /// Room for the names of the links that turn out to be blocked.
    pub(crate) blocked: Vec<NodeName, A>,
    /// The receivers that have no open link.
    pub(crate) unlinked: Vec<NodeName, A>,
    /// The deliveries, for the application.
    pub(crate) copies: Vec<Delivery<A>, A>,
}

/// Prepares what the step with this output needs if links to these names are open.
pub(crate) fn posting_for<A: Allocator + Copy>(
    alloc: A,
    names: &NameSet<A>,
    out: &Out<Frame<A>, A>,
) -> Result<Posting<A>, AllocError>
    ensures mail { IfOk result (λ p. HaveMail names.now.keys out.now.sends p.letters.items) }
    ensures addressed { IfOk result (λ p. All (IsAddressed names.now.keys) p.letters.items) }
    ensures blocked { IfOk result
        (λ p. (p.blocked.items ≡ []) × (vec_len p.blocked + vec_len p.letters ≤ vec_capacity p.blocked)) }
    ensures unlinked { IfOk result (λ p. p.unlinked.items ≡ lacking names.now.keys out.now.sends) }
    ensures copies { IfOk result (λ p. p.copies.items ≡ out.now.deliveries) }
{
    let (letters, unlinked) = letters_for(alloc, names, out.sends.as_slice())?;
    let blocked = Vec::with_capacity(alloc, letters.len())?;
    let copies = copy_deliveries(alloc, out.deliveries.as_slice())?;
    Ok(Posting {
        letters,
        blocked,
        unlinked,
        copies,
    })
}
