//! Opening and closing links.
ghost use Rattle.std.specs.Prelude.{◌≡◌, ◌≤◌, ◌<◌, ◌==◌, ◌+◌, ◌++◌, [], ◌∷◌, false, true, map};
ghost use Rattle.std.specs.Prelude.{not, nat_le, if◌then◌else◌, IfOk, IfErr, IfSome, IfNone};
ghost use Rattle.std.specs.Prelude.{OnOk, OnErr, OnSome, length, vec_len, vec_capacity};
ghost use Rattle.node_names.specs.Same.{has_name, same_name};
ghost use Rattle.rtrb.specs.Ring.{sent, known_free};
ghost use Rattle.node_threads.specs.Applying.{mail_for};
ghost use Rattle.indexmap.specs.IndexSet.{spare};
ghost use Rattle.node_threads.specs.Cell.{IsListed, IsPlace, is_linked, steps_made};
ghost use Rattle.node_threads.specs.LinkText.{spelling, text_since};
ghost use Rattle.node_threads.specs.Opened.{first_mail, linked_since, linked_to, mail_since, others, without};

use crate::cell::NodeCell;
use crate::cell::link::{Link, Mail};
use crate::cell::link_frame::LinkFrame;
use crate::cell::outlet::Outlet;
use crate::cell::posting::{has_link, mail_for};
use crate::cores::NodeCore;
use crate::error::HostError;
use frames::Frame;
use node_names::{Listed, NameSet, NodeName};
use protocol::Trace;
use rtrb::{Producer, RingBuffer};
use std::alloc::{AllocError, Allocator};

/// Puts the frames into a ring that has room for them.
fn fill<A: Allocator>(ring: &mut Producer<LinkFrame<A>, A>, mail: Mail<A>)
    requires { length mail ≤ known_free ring.old }
    ensures { sent ring.new ≡ sent ring.old ++ mail }
{
    for frame in mail.into_vec() {
        ring.push_reserved(frame);
    }
}

/// Closes the link to the name, if one is open.
fn close<A: Allocator>(links: &mut Vec<Link<A>, A>, names: &mut NameSet<A>, name: &NodeName)
    ensures links { links.new.items ≡ without name.now links.old.items }
    ensures names { names.new.keys ≡ others name.now names.old.keys }
    ensures len { vec_len links.new ≤ vec_len links.old }
    ensures capacity { vec_capacity links.new ≡ vec_capacity links.old }
    ensures room { spare names.old ≤ spare names.new }
{
    links.retain(
        |link: &Link<A>| -> bool
            ensures { result ≡ not (same_name name.entry.now link.now.peer) }
        { *name != link.peer() },
    );
    names.retain(
        |other: &NodeName| -> bool
            ensures { result ≡ not (same_name name.entry.now other.now) }
        { name != other },
    );
}

/// Appends a name that is not in the set, which has room for it.
pub(crate) fn put_last<A: Allocator>(names: &mut NameSet<A>, name: NodeName)
    requires room { 0 < spare names.old }
    requires absent { has_name names.old.keys name ≡ false }
    ensures { names.new.keys ≡ names.old.keys ++ name ∷ [] }
{
    let _ = names.insert(name).unwrap();
}

/// Closes the link to the name, if one is open, and adds a new one if the frames that it begins with fit its ring,
/// which has room for `room` frames.
fn link<A: Allocator>(
    links: &mut Vec<Link<A>, A>,
    names: &mut NameSet<A>,
    peer: NodeName,
    opened: usize,
    mut ring: Producer<LinkFrame<A>, A>,
    mail: Mail<A>,
    room: usize,
)
    requires place { vec_len links.old < vec_capacity links.old }
    requires name_place { 0 < spare names.old }
    requires listed { IsListed links.old.items names.old.keys }
    requires empty { sent ring ≡ [] }
    requires free { known_free ring ≡ room }
    ensures links { links.new.items
        ≡ without peer links.old.items
        ++ (if nat_le (length mail) room then record { peer = peer; opened = opened; pushed = mail } ∷ [] else []) }
    ensures names { IsListed links.new.items names.new.keys }
{
    close(links, names, &peer);
    if mail.len() <= room {
        fill(&mut ring, mail);
        links.push(Link { peer, opened, ring }).unwrap();
        put_last(names, peer);
    }
}

/// The frames of the opening to the name, if they belong to the text of a link that begins when the node had made
/// `since` steps.
fn opening_mail<A: Allocator + Copy>(
    alloc: A,
    trace: &Trace<Frame<A>, A>,
    name: &NodeName,
    since: usize,
) -> Result<Mail<A>, AllocError>
    ensures { IfOk result (λ mail. mail ≡ (if since == 0 then mail_for trace.now.opening.sends name.now else [])) }
{
    if since > 0 {
        return Ok(Listed::new(alloc));
    }
    mail_for(alloc, name, trace.opening().sends.as_slice())
}

/// The text so far of a link to the name that begins when the node had made `since` steps, of which the trace lacks the
/// first `lost`.
fn mail_since<A: Allocator + Copy>(
    alloc: A,
    trace: &Trace<Frame<A>, A>,
    lost: usize,
    name: &NodeName,
    since: usize,
) -> Result<Mail<A>, AllocError>
    requires { lost ≤ since }
    ensures { IfOk result (λ mail. mail ≡ map spelling (text_since lost trace.now name.now since)) }
{
    let mut mail = opening_mail(alloc, trace, name, since)?;
    for place in since - lost..trace.len() {
        let Some(step) = trace.step(place) else {
            unreachable!()
        };
        let more = mail_for(alloc, name, step.out.sends.as_slice())?;
        mail.append(more.into_vec())?;
    }
    Ok(mail)
}

impl<C: NodeCore<A> + Drop, A: Allocator + Copy> NodeCell<C, A> {
    /// The frames that a link to the name begins with: those of the opening to it if the node has made no step, and no
    /// frames otherwise.
    fn first_mail(&self, alloc: A, name: &NodeName) -> Result<Mail<A>, AllocError>
        ensures { IfOk result (λ mail. mail ≡ first_mail self.now name.now) }
    {
        if self.steps_made() > 0 {
            return Ok(Listed::new(alloc));
        }
        mail_for(alloc, name, self.trace.opening().sends.as_slice())
    }

    /// Opens a link to the name that begins with these frames, which are its text since the node had made `since`
    /// steps, and closes the one that was open. If they do not fit the ring, the link is closed at once.
    fn open_with(
        &mut self,
        name: NodeName,
        ring: usize,
        since: usize,
        mail: Mail<A>,
    ) -> Result<Outlet<A>, AllocError>
        requires within { IsPlace self.old since }
        requires text { mail ≡ mail_since self.old name since }
        ensures outlet { IfOk result
            (λ outlet. outlet ≡ record { peer = name; opened = since; given = []; seen = [] }) }
        ensures linked { OnOk result (self.new ≡ record self.old { links = linked_since self.old name ring since }) }
        ensures err { OnErr result (self.new ≡ self.old) }
    {
        let alloc = *self.links.allocator();
        let (producer, consumer) = RingBuffer::new(alloc, ring)?;
        self.links.reserve(1)?;
        self.names.reserve(1)?;
        let mark = self.progress.mark(since)?;
        link(
            &mut self.links,
            &mut self.names,
            name,
            since,
            producer,
            mail,
            ring,
        );
        Ok(Outlet::new(alloc, name, since, mark, consumer))
    }

    /// Opens a link to the name, whose ring has room for `ring` frames, and closes the one that was open.
    ///
    /// If what the opening sent to the name does not fit the ring, the link is closed at once. The only error is
    /// `OutOfMemory`.
    pub fn open_link(&mut self, name: NodeName, ring: usize) -> Result<Outlet<A>, HostError>
        ensures outlet { IfOk result
            (λ outlet. outlet ≡ record { peer = name; opened = steps_made self.old; given = []; seen = [] }) }
        ensures linked { OnOk result (self.new ≡ record self.old { links = linked_to self.old name ring }) }
        ensures refused { IfErr result (λ e. e ≡ HostError.OutOfMemory) }
        ensures err { OnErr result (self.new ≡ self.old) }
    {
        let alloc = self.alloc();
        let opened = self.steps_made();
        let mail = self.first_mail(alloc, &name)?;
        let outlet = self.open_with(name, ring, opened, mail)?;
        Ok(outlet)
    }

    /// The text so far of a link to the name that begins when the node had made `since` steps.
    fn text_since(&self, name: &NodeName, since: usize) -> Result<Mail<A>, AllocError>
        requires { IsPlace self.now since }
        ensures { IfOk result (λ mail. mail ≡ mail_since self.now name.now since) }
    {
        mail_since(self.alloc(), self.trace(), self.lost(), name, since)
    }

    /// Opens a link to the name whose text begins when the node had made `since` steps, and closes the one that was
    /// open. Its ring has room for `ring` frames.
    ///
    /// What the node has sent to the name since is put into the ring at once. If it does not fit, the link is closed at
    /// once. The only error is `OutOfMemory`.
    pub fn open_link_since(
        &mut self,
        name: NodeName,
        ring: usize,
        since: usize,
    ) -> Result<Outlet<A>, HostError>
        requires { IsPlace self.old since }
        ensures outlet { IfOk result
            (λ outlet. outlet ≡ record { peer = name; opened = since; given = []; seen = [] }) }
        ensures linked { OnOk result (self.new ≡ record self.old { links = linked_since self.old name ring since }) }
        ensures refused { IfErr result (λ e. e ≡ HostError.OutOfMemory) }
        ensures err { OnErr result (self.new ≡ self.old) }
    {
        let mail = self.text_since(&name, since)?;
        let outlet = self.open_with(name, ring, since, mail)?;
        Ok(outlet)
    }

    /// Opens a link as `open_link_since` does, if what it begins with fits the ring and memory is there for it.
    /// Otherwise returns `None` and changes nothing.
    pub(crate) fn open_fitting(
        &mut self,
        name: NodeName,
        ring: usize,
        since: usize,
    ) -> Option<Outlet<A>>
        requires { IsPlace self.old since }
        ensures outlet { IfSome result
            (λ outlet. outlet ≡ record { peer = name; opened = since; given = []; seen = [] }) }
        ensures linked { OnSome result (self.new ≡ record self.old { links = linked_since self.old name ring since }) }
        ensures open { OnSome result (is_linked (linked_since self.old name ring since) name ≡ true) }
        ensures none { IfNone result (self.new ≡ self.old) }
    {
        let mail = self.text_since(&name, since).ok()?;
        if mail.len() > ring {
            return None;
        }
        self.open_with(name, ring, since, mail).ok()
    }

    /// Whether a link to the name is open.
    pub fn link_is_open(&self, name: &NodeName) -> bool
        ensures { result ≡ is_linked self.now.links name.now }
    {
        has_link(&self.links, name)
    }

    /// Closes the link to the name: nothing more is put into its ring. Returns whether one was open.
    pub fn close_link(&mut self, name: &NodeName) -> bool
        ensures open { result ≡ is_linked self.old.links name.now }
        ensures closed { self.new ≡ record self.old { links = without name.now self.old.links } }
    {
        let was_open = has_link(&self.links, name);
        close(&mut self.links, &mut self.names, name);
        was_open
    }
}
