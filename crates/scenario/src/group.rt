//! A scenario of a group that is to run.
use crate::error::{Key, Place, ScenarioError};
use crate::group_node::GroupNode;
use crate::limits::limits_of;
use crate::read::read_document;
use crate::section::Section;
use node_names::{Limits, NodeName};
use std::alloc::{AllocError, Global};
use toml::{Table, Value};

/// The most nodes that a group may have.
const MAX_NODES: usize = 64;

/// The most ticks that a run may have.
const MAX_TICKS: u64 = 10_000;

/// How many ticks a run has if the scenario does not say.
const TICKS: u64 = 100;

/// A group that is to run.
#[derive(Drop)]
pub struct GroupScenario {
    /// The limits of every node.
    pub limits: Limits,
    /// The seed of the nodes' dice.
    pub seed: u64,
    /// The number of ticks after which the nodes are stopped.
    pub ticks: u32,
    /// Its nodes.
    pub nodes: Vec<GroupNode>,
}

impl GroupScenario {
    /// Reads a document as the scenario of a group: first its top level, then the limits, then each node.
    pub fn from_document(alloc: Global, document: &Table) -> Result<GroupScenario, ScenarioError> {
        let top = Section {
            place: Place::Top,
            table: document,
        };
        let seed = top.optional_number(Key::Seed, u64::MAX)?.unwrap_or(0);
        let ticks = top.optional_number_between(Key::Ticks, 1, MAX_TICKS)?;
        let limits = top.optional_table(Key::Limits)?;
        let tables = top.tables(Key::Node, MAX_NODES)?;
        let limits = limits_of(limits)?;
        let nodes = nodes(alloc, &limits, tables)?;
        Ok(GroupScenario {
            limits,
            seed,
            ticks: u32::try_from(ticks.unwrap_or(TICKS)).unwrap_or(u32::MAX),
            nodes,
        })
    }
}

/// Reads a text as the scenario of a group.
pub fn read_group_scenario(alloc: Global, text: &[u8]) -> Result<GroupScenario, ScenarioError> {
    let document = read_document(alloc, text)?;
    GroupScenario::from_document(alloc, &document)
}

/// The section of the node with this number. If the node is not a table, the list of nodes is refused.
fn section_of(number: usize, node: &Value) -> Result<Section<'_>, ScenarioError> {
    match node.as_table() {
        Some(table) => Ok(Section {
            place: Place::Node(number),
            table,
        }),
        None => Err(ScenarioError::Refused {
            place: Place::Top,
            key: Key::Node,
        }),
    }
}

/// The names of the nodes, in order. Nodes without a valid name are left out.
fn names(alloc: Global, tables: &[Value]) -> Result<Vec<NodeName>, AllocError> {
    let mut names = Vec::new(alloc);
    for (number, node) in tables.iter().enumerate() {
        if let Ok(section) = section_of(number, node) {
            if let Ok(name) = section.name(Key::Name) {
                names.push(name)?;
            }
        }
    }
    Ok(names)
}

/// The nodes of a list of tables.
fn nodes(
    alloc: Global,
    limits: &Limits,
    tables: &[Value],
) -> Result<Vec<GroupNode>, ScenarioError> {
    let names = names(alloc, tables)?;
    let mut nodes = Vec::new(alloc);
    for (number, node) in tables.iter().enumerate() {
        let section = section_of(number, node)?;
        let node = GroupNode::from_section(
            alloc,
            limits,
            names.as_slice(),
            nodes.as_slice(),
            &section,
        )?;
        nodes.push(node)?;
    }
    Ok(nodes)
}
