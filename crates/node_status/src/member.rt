//! The members of a status in JSON.
use std::fmt;

/// A member of a status in JSON: one of its own, or of the objects in one of these.
#[derive(Clone, Copy, Debug, PartialEq, Eq)]
pub enum Member {
    Name,
    Incarnation,
    Cluster,
    Listen,
    Advertise,
    Active,
    Passive,
    Counts,
    Kept,
    Connections,
    Links,
    MemoryBytes,
    NeighborName,
    NeighborIsEager,
    NeighborWaiting,
    NeighborAt,
    UptimeMs,
    Ticks,
    Steps,
    Broadcast,
    Delivered,
    Payloads,
    Wanted,
    Announcements,
}

impl Member {
    /// Its name, behind that of the member in which it stands.
    fn path(self) -> &'static str {
        match self {
            Member::Name => "name",
            Member::Incarnation => "incarnation",
            Member::Cluster => "cluster",
            Member::Listen => "listen",
            Member::Advertise => "advertise",
            Member::Active => "active",
            Member::Passive => "passive",
            Member::Counts => "counts",
            Member::Kept => "kept",
            Member::Connections => "connections",
            Member::Links => "links",
            Member::MemoryBytes => "memory_bytes",
            Member::NeighborName => "active.name",
            Member::NeighborIsEager => "active.is_eager",
            Member::NeighborWaiting => "active.waiting",
            Member::NeighborAt => "active.at",
            Member::UptimeMs => "counts.uptime_ms",
            Member::Ticks => "counts.ticks",
            Member::Steps => "counts.steps",
            Member::Broadcast => "counts.broadcast",
            Member::Delivered => "counts.delivered",
            Member::Payloads => "kept.payloads",
            Member::Wanted => "kept.wanted",
            Member::Announcements => "kept.announcements",
        }
    }

    /// Its name within its object.
    pub(crate) fn key(self) -> &'static str {
        let path = self.path();
        match path.split_once('.') {
            Some((_, key)) => key,
            None => path,
        }
    }
}

impl fmt::Display for Member {
    fn fmt<W: fmt::Write>(&self, f: &mut fmt::Formatter<W>) -> fmt::Result {
        f.write_str(self.path())
    }
}
