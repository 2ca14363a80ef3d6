//! Names of nodes and labels of clusters.
ghost use Rattle.std.specs.Prelude.{◌≡◌, List, [], map, None, Some, false, IfOk, codes, option_map};
ghost use Rattle.clap.specs.Matches.{first_value, found_of, matched_of, raw_values};
ghost use Rattle.node_names.specs.NodeName.{Name};
ghost use Rattle.node_names.specs.Same.{has_name};
ghost use Rattle.node_options.specs.Told.{at_key, text_of, text_or};
ghost use Rattle.node_options.specs.Given.{all_said, said_by};
ghost use Rattle.node_options.specs.Settings.{members_of, told_of};

use crate::error::{OptionError, Place, Wanted};
use crate::given::Given;
use crate::settings::Settings;
use clap::ArgMatches;
use node_names::{NodeName, has_name};
use std::alloc::Global;

/// The name that was given, or the error that it is none.
pub(crate) fn name_of(alloc: Global, given: &Given<'_>) -> Result<NodeName, OptionError>
    ensures { IfOk result (λ name. text_of (said_by given.now.source) ≡ Some name) }
{
    let Some(text) = given.text() else {
        return Err(given.refused(alloc, Wanted::Name));
    };
    match NodeName::parse(text.as_bytes()) {
        Ok(name) => Ok(name),
        Err(_) => Err(given.refused(alloc, Wanted::Name)),
    }
}

/// The names that were given, in their order, or the error that one of them is none.
fn names_of(alloc: Global, values: &[Given<'_>]) -> Result<Vec<NodeName>, OptionError>
    ensures { IfOk result (λ names. map text_of (all_said values.now) ≡ map Some names.items) }
{
    let mut names = Vec::new(alloc);
    for given in values {
        names.push(name_of(alloc, given)?)?;
    }
    Ok(names)
}

/// The name of the node.
pub(crate) fn own_name(alloc: Global, words: &ArgMatches<'_>) -> Result<NodeName, OptionError>
    ensures { IfOk result (λ name. first_value (found_of words.now) (codes "NAME") ≡ Some name) }
{
    let Some(word) = words.get_str("NAME") else {
        return Err(no_own_name(alloc, ""));
    };
    match NodeName::parse(word.as_bytes()) {
        Ok(name) => Ok(name),
        Err(_) => Err(no_own_name(alloc, word)),
    }
}

fn no_own_name(alloc: Global, word: &str) -> OptionError {
    match format!(in alloc; "\"{word}\"") {
        Ok(value) => OptionError::Refused {
            place: Place::Name,
            value,
            wanted: Wanted::Name,
        },
        Err(error) => OptionError::from(error),
    }
}

/// The label of the cluster.
pub(crate) fn cluster(settings: &Settings<'_, '_>) -> Result<NodeName, OptionError>
    ensures { IfOk result (λ label. text_or (codes "plumtree") (told_of settings.now (codes "cluster"))
        ≡ Some label) }
{
    match settings.one("cluster") {
        Some(given) => name_of(settings.alloc, &given),
        None => Ok(NodeName::parse(b"plumtree").unwrap()),
    }
}

/// The contacts of the node of this name. The node itself is refused.
pub(crate) fn contacts(
    settings: &Settings<'_, '_>,
    own: &NodeName,
) -> Result<Vec<NodeName>, OptionError>
    ensures others { IfOk result (λ contacts. has_name contacts.items own.now ≡ false) }
    ensures words { (names : List Name)
        → option_map raw_values (matched_of (found_of settings.now.words.now) (codes "contact")) ≡ Some names
        → IfOk result (λ contacts. contacts.items ≡ names) }
    ensures none { matched_of (found_of settings.now.words.now) (codes "contact") ≡ None
        → at_key (members_of settings.now) (codes "contact") ≡ None
        → IfOk result (λ contacts. contacts.items ≡ []) }
{
    let contacts = names_of(settings.alloc, &settings.all("contact")?)?;
    if has_name(contacts.as_slice(), own) {
        return Err(OptionError::OwnContact);
    }
    Ok(contacts)
}
