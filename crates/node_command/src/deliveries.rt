//! The thread that prints what is delivered.
use crate::incarnation::microseconds;
use crate::line::write_line;
use crossbeam_utils::sync::Parker;
use loop_ports::PortReceiver;
use node_options::Format;
use std::alloc::Global;
use std::io::{BufWriter, Print, Write};
use std::sync::atomic::{AtomicBool, Ordering};
use std::sync::{Arc, Wait};
use std::thread::{JoinHandle, Threads};
use std::time::{Clock, Duration};
use std::{io, thread};

/// How many bytes of output are buffered for one write.
const ROOM: usize = 65_536;

/// For how many milliseconds the thread sleeps at most before it looks whether the loop has ended.
const SLEEP: u64 = 1_000;

/// Whether printing goes on, as the thread that prints and the loop know it.
pub(crate) type IsPrinting = Arc<AtomicBool, Global>;

/// Prints what waits. Returns whether more may come.
fn print_some<R: Clock, W: Write>(
    rt: &R,
    alloc: Global,
    out: &mut W,
    receiver: &mut PortReceiver,
    format: Format,
) -> io::Result<bool> {
    let has_ended = receiver.has_ended();
    for _ in 0..u64::MAX {
        let Some(delivery) = receiver.next() else {
            out.flush()?;
            return Ok(!has_ended);
        };
        write_line(out, format, microseconds(rt)?, alloc, &delivery)?;
    }
    Ok(!has_ended)
}

/// Prints what is delivered, until the loop has ended.
fn print_all<R: Wait + Clock + Print>(
    rt: &R,
    alloc: Global,
    receiver: &mut PortReceiver,
    parker: &Parker,
    format: Format,
) -> io::Result<()> {
    let mut out = BufWriter::with_capacity(alloc, ROOM, io::writer(rt))?;
    for _ in 0..u64::MAX {
        if !print_some(rt, alloc, &mut out, receiver, format)? {
            return Ok(());
        }
        parker.park_timeout(rt, Duration::from_millis(SLEEP));
    }
    Ok(())
}

/// Starts the thread, whose result says whether all was printed. Where something cannot be printed, it ends at once.
pub(crate) fn start<R>(
    rt: R,
    alloc: Global,
    mut receiver: PortReceiver,
    parker: Parker,
    is_printing: IsPrinting,
    format: Format,
) -> io::Result<JoinHandle<bool>>
where
    R: Threads + Wait + Clock + Print + Copy + Send + Drop + 'static,
{
    Ok(thread::spawn(&rt, move || {
        let has_printed = print_all(&rt, alloc, &mut receiver, &parker, format).is_ok();
        is_printing.store(has_printed, Ordering::SeqCst);
        has_printed
    })?)
}
