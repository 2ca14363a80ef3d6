//! Writing a `Hello` as bytes.
ghost use Rattle.std.specs.Prelude.{◌≡◌, ◌++◌, IfOk, OnErr, OnOk, length, take};
ghost use Rattle.node_names.specs.NodeName.{IsNodeName};
ghost use Rattle.handshake.specs.Text.{IsAddress, IsHello, address_text, name_text, text};

use crate::address::Address;
use crate::hello::Hello;
use crate::{MAX_HELLO, VERSION};
use bytes::Bytes;
use node_names::NodeName;
use std::alloc::{AllocError, Allocator};

/// Appends the length of `name` and its letters. If memory runs out, some of these bytes may be appended.
pub(crate) fn put_name<A: Allocator>(
    out: &mut Vec<u8, A>,
    name: &NodeName,
) -> Result<(), AllocError>
    ensures bytes { OnOk result (out.new.items ≡ out.old.items ++ name_text name.now) }
    ensures valid { OnOk result (IsNodeName name.now) }
    ensures err { OnErr result (take (length out.old.items) out.new.items ≡ out.old.items) }
{
    let letters = name.as_bytes();
    out.push(letters.len() as u8)?;
    out.extend_from_slice(letters)?;
    Ok(())
}

/// Appends the kind, the octets and the port of `at`. If memory runs out, some of these bytes may be appended.
pub(crate) fn put_address<A: Allocator>(
    out: &mut Vec<u8, A>,
    at: &Address,
) -> Result<(), AllocError>
    ensures bytes { OnOk result (out.new.items ≡ out.old.items ++ address_text at.now) }
    ensures valid { OnOk result (IsAddress at.now) }
    ensures err { OnErr result (take (length out.old.items) out.new.items ≡ out.old.items) }
{
    let port = match at {
        Address::V4 { octets, port } => {
            out.push(4)?;
            out.extend_from_slice(octets)?;
            *port
        }
        Address::V6 { octets, port } => {
            out.push(6)?;
            out.extend_from_slice(octets)?;
            *port
        }
    };
    out.extend_from_slice(&port.to_be_bytes())?;
    Ok(())
}

/// Appends a name and the address where its node listens. If memory runs out, some of these bytes may be appended.
pub(crate) fn put_place<A: Allocator>(
    out: &mut Vec<u8, A>,
    name: &NodeName,
    at: &Address,
) -> Result<(), AllocError>
    ensures bytes { OnOk result (out.new.items ≡ out.old.items ++ (name_text name.now ++ address_text at.now)) }
    ensures valid { OnOk result (IsNodeName name.now × IsAddress at.now) }
    ensures err { OnErr result (take (length out.old.items) out.new.items ≡ out.old.items) }
{
    put_name(out, name)?;
    put_address(out, at)
}

/// Appends the text of `hello`. If memory runs out, some of its bytes may be appended.
pub(crate) fn put_text<A: Allocator>(out: &mut Vec<u8, A>, hello: &Hello) -> Result<(), AllocError>
    ensures text { OnOk result (out.new.items ≡ out.old.items ++ text hello.now) }
    ensures valid { OnOk result (IsHello hello.now) }
    ensures err { OnErr result (take (length out.old.items) out.new.items ≡ out.old.items) }
{
    out.extend_from_slice(&[b'P', b'L', b'U', b'M', VERSION])?;
    put_name(out, &hello.label)?;
    put_name(out, &hello.to)?;
    put_place(out, &hello.name, &hello.at)
}

/// Encodes `hello` as bytes: its text.
pub fn encode<A: Allocator + Copy>(alloc: A, hello: &Hello) -> Result<Bytes<A>, AllocError>
    ensures text { IfOk result (λ bytes. bytes ≡ text hello.now) }
    // So `decode`, of bytes that begin with these, returns `hello`.
    ensures valid { OnOk result (IsHello hello.now) }
{
    let mut out = Vec::with_capacity(alloc, MAX_HELLO)?;
    put_text(&mut out, hello)?;
    Ok(Bytes::from_vec(out)?)
}
