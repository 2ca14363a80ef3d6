//! The limits of a node.
ghost use Rattle.std.specs.Prelude.{◌≡◌, ◌↔◌, IsOk, IfOk, Some, codes};
ghost use Rattle.node_names.specs.Limits.{IsAllowed};

use std::error::Error;
use std::fmt;
use std::marker::Model;

/// The sizes of a node's views, random walks and shuffles, named as in the HyParView paper, the threshold of Plumtree's
/// optimisation by hop count, and the number of payloads that a node keeps.
///
/// Contracts see them as the record of these numbers, and each getter ensures that they are allowed. The threshold is
/// among them, though nodes of a group could differ in it, because a start takes the limits.
#[derive(Clone, Copy, Debug, PartialEq, Eq, Hash)]
pub struct Limits {
    active: u8,
    passive: u8,
    arwl: u8,
    prwl: u8,
    ka: u8,
    kp: u8,
    threshold: u32,
    keep: u32,
}

impl Model for Limits {
    ghost use Rattle.node_names.specs.Limits.{Limits as Sizes, IsAllowed};

    ghost Value = { Sizes };

    ghost view = { λ a.
        record {
          active = a.active;
          passive = a.passive;
          arwl = a.arwl;
          prwl = a.prwl;
          ka = a.ka;
          kp = a.kp;
          threshold = a.threshold;
          keep = a.keep;
        } };

    ghost invariant = { λ a. IsAllowed (
        record {
          active = a.active;
          passive = a.passive;
          arwl = a.arwl;
          prwl = a.prwl;
          ka = a.ka;
          kp = a.kp;
          threshold = a.threshold;
          keep = a.keep;
        }) };

    ghost inverse = { λ l.
        record {
          active = l.active;
          passive = l.passive;
          arwl = l.arwl;
          prwl = l.prwl;
          ka = l.ka;
          kp = l.kp;
          threshold = l.threshold;
          keep = l.keep;
        } };
}

/// The reason why numbers are not valid limits.
#[derive(Clone, Copy, Debug, PartialEq, Eq)]
pub enum LimitsFault {
    /// A number is out of its range, or two numbers do not fit together.
    BadLimits,
}

impl Limits {
    /// The sizes used in the experiments of the HyParView paper, with `threshold` 0 and `keep` 0.
    pub const STANDARD: Limits = Limits {
        active: 5,
        passive: 30,
        arwl: 6,
        prwl: 3,
        ka: 3,
        kp: 4,
        threshold: 0,
        keep: 0,
    };

    /// Creates limits with these sizes, the threshold 0 and no bound on the payloads that are kept.
    ///
    /// Returns `BadLimits` unless `active` is 1 to 16, `passive` is 1 to 64, `prwl` is at most `arwl`, `arwl` is at
    /// most 32, and `ka + kp` is at most 7.
    pub fn new(
        active: u8,
        passive: u8,
        arwl: u8,
        prwl: u8,
        ka: u8,
        kp: u8,
    ) -> Result<Limits, LimitsFault>
        ensures ok { IfOk result (λ limits. limits ≡
            record {
              active = active;
              passive = passive;
              arwl = arwl;
              prwl = prwl;
              ka = ka;
              kp = kp;
              threshold = 0;
              keep = 0;
            }) }
        ensures accepted { IsOk result ↔ IsAllowed (
            record {
              active = active;
              passive = passive;
              arwl = arwl;
              prwl = prwl;
              ka = ka;
              kp = kp;
              threshold = 0;
              keep = 0;
            }) }
    {
        let views = 1 <= active && active <= 16 && 1 <= passive && passive <= 64;
        let walks = prwl <= arwl && arwl <= 32;
        let shuffles = u16::from(ka) + u16::from(kp) <= 7;
        if !(views && walks && shuffles) {
            return Err(LimitsFault::BadLimits);
        }
        Ok(Limits {
            active,
            passive,
            arwl,
            prwl,
            ka,
            kp,
            threshold: 0,
            keep: 0,
        })
    }

    /// Returns the same limits with this threshold. 0 disables Plumtree's optimisation by hop count.
    pub fn tuned(self, threshold: u32) -> Limits
        ensures { result ≡ record self { threshold = threshold } }
    {
        Limits { threshold, ..self }
    }

    /// Returns the same limits with this number of payloads to keep. With 0, a node keeps all payloads.
    pub fn keeping(self, keep: u32) -> Limits
        ensures { result ≡ record self { keep = keep } }
    {
        Limits { keep, ..self }
    }

    /// Returns the capacity of the active view.
    pub fn active(&self) -> u8
        ensures value { result ≡ self.now.active }
        ensures allowed { IsAllowed self.now }
    {
        self.active
    }

    /// Returns the capacity of the passive view.
    pub fn passive(&self) -> u8
        ensures value { result ≡ self.now.passive }
        ensures allowed { IsAllowed self.now }
    {
        self.passive
    }

    /// Returns the active random walk length (ARWL): the `ttl` with which ForwardJoin and Shuffle start their walks.
    pub fn arwl(&self) -> u8
        ensures value { result ≡ self.now.arwl }
        ensures allowed { IsAllowed self.now }
    {
        self.arwl
    }

    /// Returns the passive random walk length (PRWL): the `ttl` at which the node that a ForwardJoin reaches adds the
    /// joining node to its passive view.
    pub fn prwl(&self) -> u8
        ensures value { result ≡ self.now.prwl }
        ensures allowed { IsAllowed self.now }
    {
        self.prwl
    }

    /// Returns the maximum number of names from the active view in a shuffle.
    pub fn ka(&self) -> u8
        ensures value { result ≡ self.now.ka }
        ensures allowed { IsAllowed self.now }
    {
        self.ka
    }

    /// Returns the maximum number of names from the passive view in a shuffle.
    pub fn kp(&self) -> u8
        ensures value { result ≡ self.now.kp }
        ensures allowed { IsAllowed self.now }
    {
        self.kp
    }

    /// Returns the threshold of Plumtree's optimisation, in links: a peer that announced a message over a path shorter
    /// by at least this much than its sender's takes the sender's place as an eager peer. 0 disables this.
    pub fn threshold(&self) -> u32
        ensures value { result ≡ self.now.threshold }
        ensures allowed { IsAllowed self.now }
    {
        self.threshold
    }

    /// Returns the minimum number of payloads that a node keeps, those of the messages delivered last. With 0, it keeps
    /// all payloads.
    pub fn keep(&self) -> u32
        ensures value { result ≡ self.now.keep }
        ensures allowed { IsAllowed self.now }
    {
        self.keep
    }
}

impl Default for Limits {
    ghost is_default = { λ l.
        l ≡ record { active = 5; passive = 30; arwl = 6; prwl = 3; ka = 3; kp = 4; threshold = 0; keep = 0 } };

    fn default() -> Limits {
        Limits::STANDARD
    }
}

impl fmt::Display for LimitsFault {
    ghost output = { λ _. Some (codes "the limits are out of range") };

    fn fmt<W: fmt::Write>(&self, f: &mut fmt::Formatter<W>) -> fmt::Result {
        match self {
            LimitsFault::BadLimits => write!(f, "the limits are out of range"),
        }
    }
}

impl Error for LimitsFault {}
