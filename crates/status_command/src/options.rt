//! What the words ask for.
use crate::error::WordError;
use clap::ArgMatches;
use std::alloc::Global;
use std::net::SocketAddr;
use std::time::Duration;

/// How many seconds a node has to answer, unless told.
const TIMEOUT: u64 = 5;

/// How many seconds a node can be given at most.
const MOST_SECONDS: u64 = 3_600;

/// What the words ask for.
#[derive(Debug, Drop)]
pub struct StatusOptions {
    /// Where the nodes answer, each once, in the order of the words.
    pub addresses: Vec<SocketAddr>,
    /// How long each node has to answer.
    pub timeout: Duration,
    /// Whether the group is drawn, and not described.
    pub is_drawn: bool,
}

/// Reads what the words ask for. They are those that the subcommand of `command` found.
pub fn read(alloc: Global, words: &ArgMatches<'_>) -> Result<StatusOptions, WordError> {
    let texts = words.get_strs("ADDRESS:PORT").unwrap_or(&[]);
    Ok(StatusOptions {
        addresses: addresses_of(alloc, texts)?,
        timeout: timeout_of(alloc, words.get_str("timeout"))?,
        is_drawn: words.get_flag("dot"),
    })
}

/// The addresses that these words are. A second word for one address is refused.
fn addresses_of(alloc: Global, words: &[&str]) -> Result<Vec<SocketAddr>, WordError> {
    let mut addresses = Vec::new(alloc);
    for word in words {
        let address = address_of(alloc, word)?;
        if addresses.contains(&address) {
            return Err(WordError::AskedTwice(address));
        }
        addresses.push(address)?;
    }
    Ok(addresses)
}

fn address_of(alloc: Global, word: &str) -> Result<SocketAddr, WordError> {
    match word.parse::<SocketAddr>() {
        Ok(address) => Ok(address),
        Err(_) => Err(WordError::NotAddress(String::from_str(alloc, word)?)),
    }
}

/// How long a node has to answer, if this word says how many seconds.
fn timeout_of(alloc: Global, word: Option<&str>) -> Result<Duration, WordError> {
    let Some(word) = word else {
        return Ok(Duration::from_secs(TIMEOUT));
    };
    match seconds_of(word) {
        Some(seconds) => Ok(Duration::from_secs(seconds)),
        None => Err(WordError::NotSeconds(String::from_str(alloc, word)?)),
    }
}

/// Reads how many seconds a node can be given: 1 to 3600, in digits alone.
fn seconds_of(word: &str) -> Option<u64> {
    if word.starts_with('+') {
        return None;
    }
    match word.parse() {
        Ok(seconds) if (1..=MOST_SECONDS).contains(&seconds) => Some(seconds),
        _ => None,
    }
}
