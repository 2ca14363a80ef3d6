//! A delivery as a line.
use hex::encode;
use node_options::Format;
use protocol::Delivery;
use std::alloc::Global;
use std::io;
use std::io::Write;

/// Writes bytes as text: those that are no printable ASCII, and backslashes, as `\x` and two digits.
fn write_text<W: Write>(out: &mut W, bytes: &[u8]) -> io::Result<()> {
    for byte in bytes {
        match *byte {
            b'\\' | 0..32 | 127.. => write!(out, "\\x{byte:02x}")?,
            _ => out.write_all(&[*byte])?,
        }
    }
    Ok(())
}

/// Writes a delivery as a line: its message, the microseconds since 1970 at which it is printed, and its payload.
pub(crate) fn write_line<W: Write>(
    out: &mut W,
    format: Format,
    now: u64,
    alloc: Global,
    delivery: &Delivery,
) -> io::Result<()> {
    let (id, bytes) = (delivery.id, delivery.payload.as_slice());
    let (origin, number) = (id.origin, id.seq);
    let (name, incarnation) = (origin.name, origin.incarnation.0);
    match format {
        Format::Text => {
            write!(out, "{name}/{incarnation}/{number} {now} ")?;
            write_text(out, bytes)?;
        }
        Format::Hex => {
            let (len, digits) = (bytes.len(), encode(alloc, bytes)?);
            write!(out, "{name}/{incarnation}/{number} {now} {len} {digits}")?;
        }
        Format::Json => {
            let digits = encode(alloc, bytes)?;
            write!(
                out,
                "{{\"id\":\"{name}/{incarnation}/{number}\",\"time\":{now},\"hex\":\"{digits}\"}}"
            )?;
        }
    }
    out.write_all(b"\n")
}
