//! What is wrong with a group.
use crate::answer::Answer;
use node_names::NodeName;
use std::alloc::{AllocError, Global};
use std::net::SocketAddr;
use thiserror::Error;

/// What is wrong with a group. Displays what the user is told.
#[derive(Clone, Copy, Debug, PartialEq, Eq, Error)]
pub enum Finding {
    /// A node is in the active view of another, and does not have that one in its own.
    #[error("{seer} sees {seen}, but {seen} does not see {seer}")]
    OneSided {
        seer: NodeName,
        seen: NodeName,
    },
    /// Two nodes have this name.
    #[error("two nodes have the name {name}: at {first} and at {second}")]
    SameName {
        name: NodeName,
        first: SocketAddr,
        second: SocketAddr,
    },
    /// One run of a node answers at both addresses.
    #[error("one node {name} was asked twice: at {first} and at {second}")]
    AskedTwice {
        name: NodeName,
        first: SocketAddr,
        second: SocketAddr,
    },
    /// Two nodes are of different clusters.
    #[error("{first} is of the cluster {its}, but {second} is of the cluster {other}")]
    Clusters {
        first: NodeName,
        its: NodeName,
        second: NodeName,
        other: NodeName,
    },
}

/// What is wrong with the group of these nodes.
pub(crate) fn findings(alloc: Global, answers: &[Answer]) -> Result<Vec<Finding>, AllocError> {
    let mut findings = Vec::new(alloc);
    for answer in answers {
        add_one_sided(answer, answers, &mut findings)?;
    }
    add_pairs(answers, &mut findings)?;
    Ok(findings)
}

/// Adds each node that this one sees and that does not see it.
fn add_one_sided(
    seer: &Answer,
    answers: &[Answer],
    findings: &mut Vec<Finding>,
) -> Result<(), AllocError> {
    for seen in answers {
        if seer.sees(&seen.status.name) && !seen.sees(&seer.status.name) {
            findings.push(Finding::OneSided {
                seer: seer.status.name,
                seen: seen.status.name,
            })?;
        }
    }
    Ok(())
}

/// Adds what is wrong with a node and an earlier one, besides what they see.
fn add_pairs(answers: &[Answer], findings: &mut Vec<Finding>) -> Result<(), AllocError> {
    for index in 0..answers.len() {
        add_same_names(&answers[..index], &answers[index], findings)?;
    }
    if let Some((first, later)) = answers.split_first() {
        add_clusters(first, later, findings)?;
    }
    Ok(())
}

/// Adds each earlier node that has the name of this one.
fn add_same_names(
    earlier: &[Answer],
    second: &Answer,
    findings: &mut Vec<Finding>,
) -> Result<(), AllocError> {
    for first in earlier {
        if first.status.name == second.status.name {
            findings.push(same_name(first, second))?;
        }
    }
    Ok(())
}

/// What is wrong with two answers of one name.
fn same_name(first: &Answer, second: &Answer) -> Finding {
    let name = first.status.name;
    if first.status.incarnation == second.status.incarnation {
        Finding::AskedTwice {
            name,
            first: first.at,
            second: second.at,
        }
    } else {
        Finding::SameName {
            name,
            first: first.at,
            second: second.at,
        }
    }
}

/// Adds each later node that is not of the cluster of the first one.
fn add_clusters(
    first: &Answer,
    later: &[Answer],
    findings: &mut Vec<Finding>,
) -> Result<(), AllocError> {
    for second in later {
        if first.status.cluster != second.status.cluster {
            findings.push(Finding::Clusters {
                first: first.status.name,
                its: first.status.cluster,
                second: second.status.name,
                other: second.status.cluster,
            })?;
        }
    }
    Ok(())
}
