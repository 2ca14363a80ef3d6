//! The blocks of a file.
ghost use Rattle.std.specs.Prelude.{◌≡◌, ◌≤◌, ◌+◌, ◌++◌, Ok, Err, List, ℕ, IfOk, IfSome};
ghost use Rattle.std.specs.Prelude.{MatchResult, OnErr, option_map, drop, length, take};
ghost use Rattle.std.specs.Bool.{Decides};
ghost use Rattle.std.specs.Int.{w32, from_be_bytes};
ghost use Rattle.step_records.specs.Block.{block, check_after, read_block, word_of};

use crate::MAX_BODY;
use crate::check::Check;
use crate::error::RecordErrorKind;
use std::alloc::AllocError;

/// A block at the front of some bytes.
#[derive(Clone, Copy, Debug)]
pub(crate) struct Block<'a> {
    pub(crate) body: &'a [u8],
    pub(crate) check: Check,
    /// The number of its bytes.
    pub(crate) len: usize,
}

/// Appends a block of this body behind this check, and returns its own check. If memory runs out, or if the body is
/// longer than `MAX_BODY`, some of its bytes may be appended.
pub(crate) fn put_block(out: &mut Vec<u8>, before: &Check, body: &[u8]) -> Result<Check, AllocError>
    ensures few { IfOk result (λ check. length body.now ≤ MAX_BODY) }
    ensures check { IfOk result (λ check. check.0 ≡ check_after before.now.0 (word_of body.now) body.now) }
    ensures bytes { IfOk result (λ check. out.new.items ≡ out.old.items ++ block before.now.0 body.now) }
    ensures err { OnErr result (take (length out.old.items) out.new.items ≡ out.old.items) }
{
    if body.len() > MAX_BODY {
        return Err(AllocError);
    }
    let word = (body.len() as u32).to_be_bytes();
    let check = before.after(&word, body);
    out.extend_from_slice(&word)?;
    out.extend_from_slice(body)?;
    out.extend_from_slice(&check.0)?;
    Ok(check)
}

/// Whether these are the same bytes.
pub(crate) fn are_same(one: &[u8], other: &[u8]) -> bool
    ensures { Decides result (one.now ≡ other.now) }
{
    one == other
}

/// The number that four bytes are.
fn number_in(word: &[u8]) -> u32
    requires { length word.now ≡ 4 }
    ensures { result ≡ from_be_bytes w32 word.now }
{
    u32::from_be_bytes([word[0], word[1], word[2], word[3]])
}

/// Reads the block at the front of `bytes`, which stands behind this check. `None`: the bytes end before it does.
#[tactic(auto, unfolding(crate::specs::Block::read_block))]
pub(crate) fn read_block<'a>(
    before: &Check,
    bytes: &'a [u8],
) -> Result<Option<Block<'a>>, RecordErrorKind>
    ensures value { MatchResult result
        (λ found. read_block before.now.0 bytes.now ≡ Ok (option_map (λ b. b.body.now) found))
        (λ kind. read_block before.now.0 bytes.now ≡ Err kind) }
    ensures len { IfOk result (λ found. IfSome found (λ b. b.len ≡ length b.body.now + 12)) }
    ensures within { IfOk result (λ found. IfSome found (λ b. b.len ≤ length bytes.now)) }
    ensures few { IfOk result (λ found. IfSome found (λ b. length b.body.now ≤ MAX_BODY)) }
    ensures text { IfOk result (λ found. IfSome found (λ b.
        bytes.now ≡ block before.now.0 b.body.now ++ drop b.len bytes.now)) }
    ensures check { IfOk result
        (λ found. IfSome found (λ b. b.check.0 ≡ check_after before.now.0 (word_of b.body.now) b.body.now)) }
{
    if bytes.len() < 4 {
        return Ok(None);
    }
    let (word, rest) = bytes.split_at(4);
    let stated = number_in(word);
    let len = stated as usize;
    if len > MAX_BODY {
        return Err(RecordErrorKind::TooLong(stated));
    }
    if rest.len() < len {
        return Ok(None);
    }
    let (body, after) = rest.split_at(len);
    if after.len() < Check::LEN {
        return Ok(None);
    }
    let check = before.after(word, body);
    if !are_same(&after[..Check::LEN], check.0.as_slice()) {
        return Err(RecordErrorKind::BadCheck);
    }
    Ok(Some(Block {
        body,
        check,
        len: 4 + len + Check::LEN,
    }))
}
