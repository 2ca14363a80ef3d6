//! Reads a node's options.
ghost use Rattle.std.specs.Prelude.{◌≡◌, ◌*◌, ◌≤◌, ℕ, List, [], length, vec_len, None, Some, option_map};
ghost use Rattle.std.specs.Prelude.{true, false, IfOk, codes};
ghost use Rattle.std.specs.Duration.{as_nanos};
ghost use Rattle.std.specs.String.{string_bytes};
ghost use Rattle.clap.specs.Matches.{first_value, found_of, matched_of, one_text, raw_values};
ghost use Rattle.node_names.specs.NodeName.{Name};
ghost use Rattle.node_names.specs.Same.{has_name};
ghost use Rattle.node_options.specs.Told.{IsNumberOr, at_key, file_of, text_of, text_or, told, truth_or};
ghost use Rattle.node_options.specs.Limits.{AreLimits};
ghost use Rattle.node_options.specs.Addresses.{IsAddressIfGiven, IsAddressOr, IsLocal, IsSpecified};
ghost use Rattle.node_options.specs.Settings.{members_of, told_of};
ghost use Rattle.node_options.specs.Peers.{AreApart};
ghost use Rattle.node_options.specs.Words.{failure_word, format_word, level_word, sync_word};

use crate::addresses::{PORT, advertise, listen, status};
use crate::config::Config;
use crate::domain::is_host;
use crate::error::{OptionError, Wanted};
use crate::format::Format;
use crate::level::Level;
use crate::limits::limits;
use crate::names::{cluster, contacts, own_name};
use crate::options::NodeOptions;
use crate::peer::peers;
use crate::recording::{RecordFailure, RecordSync};
use crate::settings::Settings;
use clap::ArgMatches;
use std::alloc::Global;
use std::time::Duration;

/// Reads a node's options: what the words say, else what the file says, whose text is `config`, else the defaults.
/// Contacts and peers among the words are taken in place of all those in the file.
///
/// `words` are those that the subcommand of `command` found. The file is judged as a whole before all options, and
/// these in the order of the fields.
pub fn read(
    alloc: Global,
    words: &ArgMatches<'_>,
    config: Option<&str>,
) -> Result<NodeOptions, OptionError>
    ensures name { IfOk result (λ o. first_value (found_of words.now) (codes "NAME") ≡ Some o.name) }

    // The words win over the file, and the file over the default.
    ensures cluster { IfOk result (λ o. text_or (codes "plumtree")
        (told (found_of words.now) (file_of config.entry) (codes "cluster")) ≡ Some o.cluster) }
    ensures listen { IfOk result (λ o. IsAddressOr (IsLocal 7101)
        (told (found_of words.now) (file_of config.entry) (codes "listen")) o.listen) }
    ensures advertise { IfOk result (λ o. IsAddressOr (λ address. address ≡ o.listen)
        (told (found_of words.now) (file_of config.entry) (codes "advertise")) o.advertise) }
    ensures domain { IfOk result (λ o. option_map (λ domain. Some (string_bytes domain)) o.domain
        ≡ option_map text_of (told (found_of words.now) (file_of config.entry) (codes "domain"))) }
    ensures state { IfOk result (λ o. option_map (λ folder. Some (string_bytes folder)) o.state
        ≡ option_map text_of (told (found_of words.now) (file_of config.entry) (codes "state"))) }
    ensures record_folder { IfOk result (λ o. option_map (λ folder. Some (string_bytes folder)) o.record_folder
        ≡ option_map text_of (told (found_of words.now) (file_of config.entry) (codes "record"))) }
    ensures sync { IfOk result (λ o. text_or (codes "second")
        (told (found_of words.now) (file_of config.entry) (codes "sync")) ≡ Some (sync_word o.sync)) }
    ensures on_record_failure { IfOk result (λ o. text_or (codes "stop")
        (told (found_of words.now) (file_of config.entry) (codes "on-record-failure"))
        ≡ Some (failure_word o.on_record_failure)) }
    ensures status { IfOk result (λ o. IsAddressIfGiven
        (told (found_of words.now) (file_of config.entry) (codes "status")) o.status) }
    ensures port { IfOk result (λ o.
        IsNumberOr 7101 (told (found_of words.now) (file_of config.entry) (codes "port")) o.port) }
    ensures limits { IfOk result (λ o. AreLimits (found_of words.now) (file_of config.entry) o.limits) }
    ensures tick { IfOk result (λ o. (milliseconds : ℕ)
        × IsNumberOr 100 (told (found_of words.now) (file_of config.entry) (codes "tick")) milliseconds
        × (as_nanos o.tick ≡ milliseconds * 1_000_000)) }
    ensures grace { IfOk result (λ o. (seconds : ℕ)
        × IsNumberOr 5 (told (found_of words.now) (file_of config.entry) (codes "grace")) seconds
        × (as_nanos o.grace ≡ seconds * 1_000_000_000)) }
    ensures format { IfOk result (λ o. text_or (codes "text")
        (told (found_of words.now) (file_of config.entry) (codes "format")) ≡ Some (format_word o.format)) }
    ensures log { IfOk result (λ o. text_or (codes "info")
        (told (found_of words.now) (file_of config.entry) (codes "log")) ≡ Some (level_word o.log)) }
    ensures until_end_word { one_text (found_of words.now) (codes "until-end") ≡ Some (codes "true")
        → IfOk result (λ o. o.ends_with_input ≡ true) }
    ensures until_end_key { one_text (found_of words.now) (codes "until-end") ≡ Some (codes "false")
        → IfOk result (λ o. truth_or false (at_key (file_of config.entry) (codes "until-end"))
        ≡ Some o.ends_with_input) }

    ensures advertise_specified { IfOk result (λ o. IsSpecified o.advertise) }
    ensures peers_words { (texts : List (List ℕ))
        → option_map raw_values (matched_of (found_of words.now) (codes "peer")) ≡ Some texts
        → IfOk result (λ o. vec_len o.peers ≡ length texts) }
    ensures peers_apart { IfOk result (λ o. AreApart o.peers.items) }
    // The contacts among the words, in their order, are all contacts.
    ensures contacts_words { (names : List Name)
        → option_map raw_values (matched_of (found_of words.now) (codes "contact")) ≡ Some names
        → IfOk result (λ o. o.contacts.items ≡ names) }
    ensures contacts_none { matched_of (found_of words.now) (codes "contact") ≡ None
        → at_key (file_of config.entry) (codes "contact") ≡ None → IfOk result (λ o. o.contacts.items ≡ []) }
    ensures contacts_others { IfOk result (λ o. has_name o.contacts.items o.name ≡ false) }
    ensures port_range { IfOk result (λ o. 1 ≤ o.port) }
    ensures tick_range { IfOk result (λ o.
        (1_000_000 ≤ as_nanos o.tick) × (as_nanos o.tick ≤ 60_000 * 1_000_000)) }
    ensures grace_range { IfOk result (λ o. as_nanos o.grace ≤ 3_600 * 1_000_000_000) }
{
    let config = Config::read_any(alloc, config)?;
    let settings = Settings {
        alloc,
        words,
        config: config.as_ref(),
    };
    let name = own_name(alloc, words)?;
    let cluster = cluster(&settings)?;
    let listen = listen(&settings)?;
    Ok(NodeOptions {
        name,
        cluster,
        listen,
        advertise: advertise(&settings, listen)?,
        contacts: contacts(&settings, &name)?,
        peers: peers(&settings)?,
        domain: domain(&settings)?,
        port: port(&settings)?,
        state: folder(&settings, "state")?,
        record_folder: folder(&settings, "record")?,
        sync: sync(&settings)?,
        on_record_failure: on_record_failure(&settings)?,
        status: status(&settings)?,
        limits: limits(&settings)?,
        tick: tick(&settings)?,
        grace: grace(&settings)?,
        format: format(&settings)?,
        log: log(&settings)?,
        ends_with_input: ends_with_input(&settings)?,
    })
}

fn domain(settings: &Settings<'_, '_>) -> Result<Option<String>, OptionError>
    ensures { IfOk result (λ domain. option_map (λ d. Some (string_bytes d)) domain
        ≡ option_map text_of (told_of settings.now (codes "domain"))) }
{
    let Some(given) = settings.one("domain") else {
        return Ok(None);
    };
    match given.text() {
        Some(text) if is_host(text) => Ok(Some(String::from_str(settings.alloc, text)?)),
        _ => Err(given.refused(settings.alloc, Wanted::Domain)),
    }
}

fn port(settings: &Settings<'_, '_>) -> Result<u16, OptionError>
    ensures range { IfOk result (λ port. 1 ≤ port) }
    ensures value { IfOk result (IsNumberOr 7101 (told_of settings.now (codes "port"))) }
{
    let port = settings.number("port", 1, u64::from(u16::MAX), u64::from(PORT))?;
    Ok(port as u16)
}

/// The folder that an option names, if it is given.
fn folder(settings: &Settings<'_, '_>, option: &'static str) -> Result<Option<String>, OptionError>
    ensures { IfOk result (λ folder. option_map (λ f. Some (string_bytes f)) folder
        ≡ option_map text_of (told_of settings.now option.now)) }
{
    let Some(given) = settings.one(option) else {
        return Ok(None);
    };
    match given.text() {
        Some(text) if !text.is_empty() => Ok(Some(String::from_str(settings.alloc, text)?)),
        _ => Err(given.refused(settings.alloc, Wanted::Folder)),
    }
}

fn sync(settings: &Settings<'_, '_>) -> Result<RecordSync, OptionError>
    ensures { IfOk result (λ sync. text_or (codes "second") (told_of settings.now (codes "sync"))
        ≡ Some (sync_word sync)) }
{
    let Some(given) = settings.one("sync") else {
        return Ok(RecordSync::Second);
    };
    if let Some(text) = given.text()
        && let Some(sync) = RecordSync::of_word(text)
    {
        return Ok(sync);
    }
    Err(given.refused(settings.alloc, Wanted::RecordSync))
}

fn on_record_failure(settings: &Settings<'_, '_>) -> Result<RecordFailure, OptionError>
    ensures { IfOk result (λ failure. text_or (codes "stop")
        (told_of settings.now (codes "on-record-failure")) ≡ Some (failure_word failure)) }
{
    let Some(given) = settings.one("on-record-failure") else {
        return Ok(RecordFailure::Stop);
    };
    if let Some(text) = given.text()
        && let Some(failure) = RecordFailure::of_word(text)
    {
        return Ok(failure);
    }
    Err(given.refused(settings.alloc, Wanted::RecordFailure))
}

fn tick(settings: &Settings<'_, '_>) -> Result<Duration, OptionError>
    ensures range { IfOk result (λ tick. (1_000_000 ≤ as_nanos tick) × (as_nanos tick ≤ 60_000 * 1_000_000)) }
    ensures value { IfOk result (λ tick. (milliseconds : ℕ)
        × IsNumberOr 100 (told_of settings.now (codes "tick")) milliseconds
        × (as_nanos tick ≡ milliseconds * 1_000_000)) }
{
    let milliseconds = settings.number("tick", 1, 60_000, 100)?;
    Ok(Duration::from_millis(milliseconds))
}

fn grace(settings: &Settings<'_, '_>) -> Result<Duration, OptionError>
    ensures range { IfOk result (λ grace. as_nanos grace ≤ 3_600 * 1_000_000_000) }
    ensures value { IfOk result (λ grace. (seconds : ℕ)
        × IsNumberOr 5 (told_of settings.now (codes "grace")) seconds
        × (as_nanos grace ≡ seconds * 1_000_000_000)) }
{
    let seconds = settings.number("grace", 0, 3_600, 5)?;
    Ok(Duration::from_secs(seconds))
}

fn format(settings: &Settings<'_, '_>) -> Result<Format, OptionError>
    ensures { IfOk result (λ format. text_or (codes "text") (told_of settings.now (codes "format"))
        ≡ Some (format_word format)) }
{
    let Some(given) = settings.one("format") else {
        return Ok(Format::Text);
    };
    if let Some(text) = given.text()
        && let Some(format) = Format::of_word(text)
    {
        return Ok(format);
    }
    Err(given.refused(settings.alloc, Wanted::Format))
}

fn log(settings: &Settings<'_, '_>) -> Result<Level, OptionError>
    ensures { IfOk result (λ level. text_or (codes "info") (told_of settings.now (codes "log"))
        ≡ Some (level_word level)) }
{
    let Some(given) = settings.one("log") else {
        return Ok(Level::Info);
    };
    if let Some(text) = given.text()
        && let Some(level) = Level::of_word(text)
    {
        return Ok(level);
    }
    Err(given.refused(settings.alloc, Wanted::Level))
}

fn ends_with_input(settings: &Settings<'_, '_>) -> Result<bool, OptionError>
    ensures word { one_text (found_of settings.now.words.now) (codes "until-end") ≡ Some (codes "true")
        → IfOk result (λ ends. ends ≡ true) }
    ensures key { one_text (found_of settings.now.words.now) (codes "until-end") ≡ Some (codes "false")
        → IfOk result (λ ends. truth_or false (at_key (members_of settings.now) (codes "until-end")) ≡ Some ends) }
{
    if settings.words.get_flag("until-end") {
        return Ok(true);
    }
    let Some(given) = settings.in_file("until-end") else {
        return Ok(false);
    };
    match given.truth() {
        Some(truth) => Ok(truth),
        None => Err(given.refused(settings.alloc, Wanted::Truth)),
    }
}
