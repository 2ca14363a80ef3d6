//! The codes that are printed for the reasons why a group was not brought to rest.
use at_rest::SettleError;
use simulation::SettleCode;
use std::alloc::AllocError;
use std::fmt::Write;
use std::test::Fail;

/// Whether an error is printed as `wanted`.
fn is_printed(text: &mut String, error: SettleError, wanted: &str) -> Result<bool, AllocError> {
    text.clear();
    let code = SettleCode(error);
    write!(text, "{code}")?;
    Ok(text.as_str() == wanted)
}

/// No scenario prints that a node has no numbers left, since a node that starts in a scenario has numbers to spare.
#[test]
fn prints_why_it_did_not_settle(rt: HostRuntime) -> Result<(), Fail> {
    let mut text = String::new(rt.alloc());
    assert!(rt; is_printed(&mut text, SettleError::NotCalm, "S1")?);
    assert!(rt; is_printed(&mut text, SettleError::SeqSpent, "S2")?);
    assert!(rt; is_printed(&mut text, SettleError::OutOfMemory, "S3")?);
    Ok(())
}
