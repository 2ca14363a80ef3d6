//! Names of hosts and of domains.

/// The maximum length of the name of a host, in bytes.
const MAX_HOST: usize = 253;

/// Whether a text can be the name of a host: 1 to 253 letters, digits, `-`, `_` and `.`, the first of which is no `.`.
pub(crate) fn is_host(text: &str) -> bool {
    let is_long = text.len() > MAX_HOST;
    !text.is_empty() && !is_long && !text.starts_with('.') && text.bytes().all(is_host_byte)
}

fn is_host_byte(byte: u8) -> bool {
    byte.is_ascii_alphanumeric() || matches!(byte, b'-' | b'_' | b'.')
}
