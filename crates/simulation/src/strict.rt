//! Reports what strict mode rejects: keys and sections that are unknown, and events that do nothing.
ghost use Rattle.std.specs.Prelude.{◌≡◌, ◌⊎◌, None, IfSome};

use crate::play::Idle;
use crate::program::report;
use scenario::{Key, Place, bad_value, event_line, events_of, first_unknown, read_document};
use std::alloc::Global;
use std::fmt;
use std::io::Write;

/// An event that does nothing.
#[derive(Drop)]
struct IdleEvent {
    event: usize,
    why: Idle,
    line: Option<usize>,
}

impl fmt::Display for IdleEvent {
    fn fmt<W: fmt::Write>(&self, f: &mut fmt::Formatter<W>) -> fmt::Result {
        let (event, why) = (self.event, self.why);
        match self.line {
            Some(line) => write!(f, "event {event}, line {line}: {why}"),
            None => write!(f, "event {event}: {why}"),
        }
    }
}

/// Reports the first unknown key of a scenario, if there is one, and returns the exit status for it. A text that is not
/// a TOML document is not reported here, but when it is read.
///
/// This is a pass before the reader, so that what the reader takes for a scenario stays the same.
pub fn report_unknown<F: Write>(alloc: Global, text: &[u8], faults: &mut F) -> Option<u8>
    ensures status { IfSome result (λ status. (status ≡ 1) ⊎ (status ≡ 2)) }
    ensures quiet { result ≡ None → faults.new ≡ faults.old }
{
    let Ok(document) = read_document(alloc, text) else {
        return None;
    };
    let unknown = first_unknown(&document, text)?;
    Some(report(faults, unknown, 2))
}

/// Reports which event of a scenario does nothing, and returns the program's exit status.
pub fn report_idle<F: Write>(
    alloc: Global,
    text: &[u8],
    event: usize,
    why: Idle,
    faults: &mut F,
) -> u8
    ensures { result ≡ 1 }
{
    let line = match read_document(alloc, text) {
        Ok(document) => event_line(text, events_of(&document), event),
        Err(_) => None,
    };
    report(faults, IdleEvent { event, why, line }, 1)
}

/// Reports which value of a scenario is refused, with its line if that is found. Returns the program's exit status.
pub fn report_value<F: Write>(
    alloc: Global,
    text: &[u8],
    place: Place,
    key: Key,
    faults: &mut F,
) -> u8
    ensures { (result ≡ 1) ⊎ (result ≡ 2) }
{
    report(faults, bad_value(alloc, text, place, key), 2)
}
