//! Writing the records of a connection that are no frames.
ghost use Rattle.std.specs.Prelude.{◌≡◌, ◌≤◌, ◌++◌, OnErr, OnOk, length, take};
ghost use Rattle.handshake.specs.Records.{IsIntroduction, hello_record, introduction_record, introduction_text};
ghost use Rattle.handshake.specs.Text.{IsHello, address_text, name_text, text};

use crate::address::Address;
use crate::encoding::{put_place, put_text};
use crate::hello::Hello;
use crate::introduction::Introduction;
use crate::record::{HELLO, INTRODUCTION};
use crate::{MAX_HELLO, MAX_INTRODUCTION};
use node_names::NodeName;
use std::alloc::{AllocError, Allocator};

fn address_len(at: &Address) -> usize
    ensures value { result ≡ length (address_text at.now) }
    ensures few { result ≤ 19 }
{
    let octets: &[u8] = match at {
        Address::V4 { octets, .. } => octets,
        Address::V6 { octets, .. } => octets,
    };
    3 + octets.len()
}

fn name_len(name: &NodeName) -> usize
    ensures value { result ≡ length (name_text name.now) }
    ensures few { result ≤ 33 }
{
    1 + name.as_bytes().len()
}

fn text_len(hello: &Hello) -> usize
    ensures value { result ≡ length (text hello.now) }
    ensures few { result ≤ MAX_HELLO }
{
    5 + name_len(&hello.label)
        + name_len(&hello.to)
        + name_len(&hello.name)
        + address_len(&hello.at)
}

fn introduction_len(introduction: &Introduction) -> usize
    ensures value { result ≡ length (introduction_text introduction.now) }
    ensures few { result ≤ MAX_INTRODUCTION }
{
    name_len(&introduction.name) + address_len(&introduction.at)
}

/// Appends the record of `hello`. If memory runs out, some of its bytes may be appended.
fn put_hello<A: Allocator>(out: &mut Vec<u8, A>, hello: &Hello) -> Result<(), AllocError>
    ensures record { OnOk result (out.new.items ≡ out.old.items ++ hello_record hello.now) }
    ensures valid { OnOk result (IsHello hello.now) }
    ensures err { OnErr result (take (length out.old.items) out.new.items ≡ out.old.items) }
{
    out.extend_from_slice(&[HELLO, text_len(hello) as u8])?;
    put_text(out, hello)
}

/// Appends the record of `introduction`. If memory runs out, some of its bytes may be appended.
fn put_introduction<A: Allocator>(
    out: &mut Vec<u8, A>,
    introduction: &Introduction,
) -> Result<(), AllocError>
    ensures record { OnOk result (out.new.items ≡ out.old.items ++ introduction_record introduction.now) }
    ensures valid { OnOk result (IsIntroduction introduction.now) }
    ensures err { OnErr result (take (length out.old.items) out.new.items ≡ out.old.items) }
{
    out.extend_from_slice(&[INTRODUCTION, introduction_len(introduction) as u8])?;
    put_place(out, &introduction.name, &introduction.at)
}

/// Appends the record of `hello`, with which a connection begins. If memory runs out, nothing is appended.
pub fn push_hello<A: Allocator>(out: &mut Vec<u8, A>, hello: &Hello) -> Result<(), AllocError>
    ensures record { OnOk result (out.new.items ≡ out.old.items ++ hello_record hello.now) }
    ensures valid { OnOk result (IsHello hello.now) }
    ensures err { OnErr result (out.new.items ≡ out.old.items) }
{
    let len = out.len();
    let outcome = put_hello(out, hello);
    if outcome.is_err() {
        out.truncate(len);
    }
    outcome
}

/// Appends the record of `introduction`. If memory runs out, nothing is appended.
pub fn push_introduction<A: Allocator>(
    out: &mut Vec<u8, A>,
    introduction: &Introduction,
) -> Result<(), AllocError>
    ensures record { OnOk result (out.new.items ≡ out.old.items ++ introduction_record introduction.now) }
    ensures valid { OnOk result (IsIntroduction introduction.now) }
    ensures err { OnErr result (out.new.items ≡ out.old.items) }
{
    let len = out.len();
    let outcome = put_introduction(out, introduction);
    if outcome.is_err() {
        out.truncate(len);
    }
    outcome
}
