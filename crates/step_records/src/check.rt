//! What vouches for the bytes of a record.
ghost use Rattle.std.specs.Prelude.{◌≡◌, ◌++◌, take};
ghost use Rattle.step_records.specs.Block.{check_after};

use sha2::{Digest, Sha256};

/// The first eight bytes of a SHA-256.
#[derive(Clone, Copy, Debug, PartialEq, Eq)]
pub(crate) struct Check(pub(crate) [u8; Check::LEN]);

impl Check {
    /// Its number of bytes.
    pub(crate) const LEN: usize = 8;

    /// What stands before the first block of a file: `PLUMREC`, and the version.
    pub(crate) const START: Check = Check([b'P', b'L', b'U', b'M', b'R', b'E', b'C', 1]);

    /// Returns the check of a block behind this check.
    #[tactic(auto, unfolding(crate::specs::Block::check_after))]
    pub(crate) fn after(&self, word: &[u8], body: &[u8]) -> Check
        ensures { result.0 ≡ check_after self.now.0 word.now body.now }
    {
        let mut hasher = Sha256::new();
        hasher.update(self.0.as_slice());
        hasher.update(word);
        hasher.update(body);
        let digest = hasher.finalize();
        let mut first = [0; Check::LEN];
        first.copy_from_slice(&digest[..Check::LEN]);
        Check(first)
    }
}
