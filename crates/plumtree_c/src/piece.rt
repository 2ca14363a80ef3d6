//! Bytes that are lent to C.
ghost use Rattle.std.specs.Prelude.{◌≡◌, [], length, map};
ghost use Rattle.std.specs.Ptr.{as_ptr};

/// Bytes that are lent: where they begin, and how many they are.
#[repr(C)]
#[derive(Clone, Copy)]
pub struct Piece {
    pub at: *const u8,
    pub length: usize,
}

const _: () = prove!(size_of::<Piece>() == 16);

/// Where the bytes begin.
fn at_of(bytes: &[u8]) -> *const u8
    ensures { result ≡ as_ptr bytes.entry }
{
    bytes.as_ptr()
}

impl Piece {
    /// The bytes, lent to C for as long as they stay where they are.
    pub(crate) fn of(bytes: &[u8]) -> Piece
        ensures at { result.at ≡ as_ptr bytes.entry }
        ensures length { result.length ≡ length bytes.now }
    {
        Piece {
            at: at_of(bytes),
            length: bytes.len(),
        }
    }
}
