//! What is told of a run.
use crate::board::Board;
use crate::memory::resident;
use crate::plan::TICKS_OF_A_SECOND;
use crate::trouble::Trouble;
use anyhow::{Result, ensure};
use std::io::Print;
use std::rt::Files;

/// Tells what was done up to this tick, and what memory the process has.
pub(crate) fn tell_second<R: AllocGlobal + Files + Print>(
    rt: &R,
    now: u64,
    board: &Board,
    trouble: &Trouble,
) -> Result<()> {
    let (second, memory) = (now / TICKS_OF_A_SECOND, resident(rt)?);
    let strangers = trouble.strangers();
    print!(rt;
        "{second} s: {memory} KiB, {} broadcasts, ",
        board.broadcasts
    )?;
    print!(rt;
        "{} deliveries, {} cuts, {} holds, ",
        board.deliveries, trouble.cuts, trouble.holds
    )?;
    println!(rt;
        "{} strangers, {} resets",
        strangers.dialled, strangers.reset
    )?;
    Ok(())
}

/// Whether the nodes were disturbed in each way.
fn is_disturbed(trouble: &Trouble) -> bool {
    let strangers = trouble.strangers();
    trouble.cuts > 0 && trouble.holds > 0 && strangers.dialled > 0 && strangers.reset > 0
}

/// Tells what became of the run. It fails if something is wrong.
pub(crate) fn tell_end<R: Print>(
    rt: &R,
    board: &Board,
    trouble: &Trouble,
    lacking: u64,
) -> Result<()> {
    ensure!(
        is_disturbed(trouble),
        "the nodes were not disturbed in each way"
    );
    println!(rt; "links were cut, nodes held, connections reset, and strangers came")?;
    ensure!(
        board.repeated == 0,
        "{} messages were delivered again",
        board.repeated
    );
    ensure!(board.wrong == 0, "{} were never broadcast so", board.wrong);
    println!(rt; "each message that was delivered was broadcast so, and delivered once")?;
    ensure!(lacking == 0, "{lacking} deliveries are lacking");
    println!(rt; "all in reach delivered what was broadcast undisturbed")?;
    Ok(())
}
