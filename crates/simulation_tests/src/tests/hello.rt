//! The scenario that is played, and what is printed for it.

/// Two nodes, of which one broadcasts.
const HELLO: &[u8] = b"[[event]]
do = \"start\"
node = \"a\"
incarnation = 1
peers = [\"b\"]

[[event]]
do = \"start\"
node = \"b\"
incarnation = 1
peers = [\"a\"]

[[event]]
do = \"broadcast\"
node = \"a\"
text = \"hello\"

[[event]]
do = \"arrive_all\"
";

/// What is printed for the scenario.
const TOLD: &[u8] = b"deliver a/1 a/1/1 5 68656c6c6f
deliver b/1 a/1/1 5 68656c6c6f
tree a/1/1 rest yes
  a/1 <- -
  b/1 <- a/1
";

/// The trace that is written for the scenario, step by step.
const TRACED: &[u8] = b"step 0 event 0: start a/1 | peers: b | contact: -
  a/1 | active: b | eager: b
step 1 event 1: start b/1 | peers: a | contact: -
  b/1 | active: a | eager: a
step 2 event 2: broadcast by a length 5
  deliver a/1 a/1/1 length 5
  packet 0 a/1 -> b #1 GOSSIP a/1/1 round 0 length 5
  flight 0:0
step 3 event 3: arrive place 0: packet 0 a/1 -> b #1 GOSSIP a/1/1 round 0 length 5
  deliver b/1 a/1/1 length 5
node a/1 | active: b | passive: - | eager: b | lazy: - | queue: - | wants: - | timers: -
node b/1 | active: a | passive: - | eager: a | lazy: - | queue: - | wants: - | timers: -
message a/1/1 rest yes
packets GOSSIP 1
  a/1/1 copies 1 announcements 0 depth 1 mean 1.00
";

/// Returns the scenario's text.
pub(crate) fn hello() -> &'static [u8] {
    HELLO
}

/// Whether this is what is printed for the scenario.
pub(crate) fn is_told(printed: &[u8]) -> bool {
    printed == TOLD
}

/// Whether this is what is printed for the scenario, cut off before its end.
pub(crate) fn is_front(printed: &[u8]) -> bool {
    printed.len() < TOLD.len() && TOLD.get(..printed.len()) == Some(printed)
}

/// Whether this is the trace that is written for the scenario.
pub(crate) fn is_traced(told: &[u8]) -> bool {
    told == TRACED
}
