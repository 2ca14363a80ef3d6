//! Reading a `Hello` from bytes.
ghost use Rattle.std.specs.Prelude.{◌≡◌, ◌<◌, ◌++◌, ◌↔◌, List, ℕ, length, take, IfOk, IsErrOf};
ghost use Rattle.handshake.specs.Answer.{Reads};
ghost use Rattle.handshake.specs.Faults.{BeginsOtherwise, HasOtherVersion, HasBadLabel};
ghost use Rattle.handshake.specs.Faults.{HasBadAddressee, HasBadName, HasBadAddress};
ghost use Rattle.handshake.specs.Reading as read;
ghost use Rattle.handshake.specs.declared.hello.Hello.{Hello};
ghost use Rattle.handshake.specs.Text.{IsHello, text};

use crate::MAX_HELLO;
use crate::error::HelloError;
use crate::hello::Hello;
use crate::parts::Parts;

#[tactic(auto, unfolding(crate::specs::Reading::hello))]
fn hello(parts: &mut Parts<'_>) -> Result<Hello, HelloError>
    ensures { Reads result read.hello parts.old parts.new }
{
    parts.start()?;
    parts.version()?;
    let label = parts.name(HelloError::BadLabel)?;
    let to = parts.name(HelloError::BadAddressee)?;
    let name = parts.name(HelloError::BadName)?;
    let at = parts.address()?;
    Ok(Hello {
        label,
        to,
        name,
        at,
    })
}

/// Decodes like `decode`, in terms of `read`.
#[tactic(auto, unfolding(crate::specs::Reading::read))]
pub(crate) fn first(bytes: &[u8]) -> Result<(Hello, usize), HelloError>
    ensures { result ≡ read.read bytes.now }
{
    let mut parts = Parts::new(bytes);
    let hello = hello(&mut parts)?;
    Ok((hello, bytes.len() - parts.left()))
}

/// Decodes the `Hello` at the front of `bytes`, and returns it with its length in bytes. Ignores what follows it.
///
/// Reads from left to right, and returns the first error. `PLUM` and the letters of a name are judged once all their
/// bytes are there, any other part at its first byte. `Short` means that nothing was wrong so far, and that bytes are
/// lacking: it never comes for `MAX_HELLO` bytes.
pub fn decode(bytes: &[u8]) -> Result<(Hello, usize), HelloError>
    // The bytes begin with the text of the returned `Hello`, whose length is the returned number.
    ensures ok { IfOk result (λ x. (take x.1 bytes.now ≡ text x.0) × (x.1 ≡ length (text x.0)) × IsHello x.0) }
    // Bytes that begin with the text of a `Hello` are decoded as that one.
    ensures whole { (h : Hello) (rest : List ℕ) → IsHello h → bytes.now ≡ text h ++ rest
        → result ≡ Ok (h, length (text h)) }
    // Bytes that the text of a `Hello` begins with, and that lack some of it, are short.
    ensures short { (h : Hello) (more : List ℕ) → IsHello h → text h ≡ bytes.now ++ more → 0 < length more
        → IsErrOf result HelloError.Short }
    ensures few { IsErrOf result HelloError.Short → length bytes.now < MAX_HELLO }
    ensures not_plumtree { IsErrOf result HelloError.NotPlumtree ↔ BeginsOtherwise bytes.now }
    ensures other_version { (v : ℕ) → IsErrOf result (HelloError.OtherVersion v) ↔ HasOtherVersion v bytes.now }
    ensures bad_label { IsErrOf result HelloError.BadLabel ↔ HasBadLabel bytes.now }
    ensures bad_addressee { IsErrOf result HelloError.BadAddressee ↔ HasBadAddressee bytes.now }
    ensures bad_name { IsErrOf result HelloError.BadName ↔ HasBadName bytes.now }
    ensures bad_address { (kind : ℕ) → IsErrOf result (HelloError.BadAddress kind) ↔ HasBadAddress kind bytes.now }
{
    first(bytes)
}
