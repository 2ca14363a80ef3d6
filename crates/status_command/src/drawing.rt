//! The drawing of a group.
use crate::answer::Answer;
use node_names::NodeName;
use node_status::Neighbor;
use std::fmt;

/// The drawing of a group. Displays a digraph in the DOT language: each node that answered, dotted each that did not
/// and is in the active view of one that did, and an edge from each node to those in its view, solid where messages
/// are sent, and dashed where they are only announced. Where two send each other messages, it is one edge.
#[derive(Clone, Copy)]
pub struct Drawing<'a> {
    pub(crate) answers: &'a [Answer],
}

impl fmt::Display for Drawing<'_> {
    fn fmt<W: fmt::Write>(&self, f: &mut fmt::Formatter<W>) -> fmt::Result {
        f.write_str("digraph plumtree {\n")?;
        for answer in self.answers {
            write!(f, "    \"{}\";\n", answer.status.name)?;
        }
        for answer in self.answers {
            self.write_links(answer, f)?;
        }
        f.write_str("}\n")
    }
}

impl Drawing<'_> {
    /// The node of this name that answered, if there is one.
    fn answer(&self, name: &NodeName) -> Option<&Answer> {
        self.answers
            .iter()
            .find(|answer| answer.status.name == *name)
    }

    /// Writes the edges from a node.
    fn write_links<W: fmt::Write>(
        &self,
        answer: &Answer,
        f: &mut fmt::Formatter<W>,
    ) -> fmt::Result {
        for neighbor in &answer.status.active {
            self.write_link(&answer.status.name, neighbor, f)?;
        }
        Ok(())
    }

    /// Writes the edge from a node to a neighbour, and a neighbour that did not answer.
    fn write_link<W: fmt::Write>(
        &self,
        own: &NodeName,
        neighbor: &Neighbor,
        f: &mut fmt::Formatter<W>,
    ) -> fmt::Result {
        let other = &neighbor.name;
        let Some(answer) = self.answer(other) else {
            write!(f, "    \"{other}\" [style=dotted];\n")?;
            return write_edge(own, neighbor, f);
        };
        match answer.neighbor(own) {
            Some(back) if back.is_eager && neighbor.is_eager => {
                if own < other {
                    write!(f, "    \"{own}\" -> \"{other}\" [style=solid, dir=both];\n")?;
                }
                Ok(())
            }
            _ => write_edge(own, neighbor, f),
        }
    }
}

fn write_edge<W: fmt::Write>(
    own: &NodeName,
    neighbor: &Neighbor,
    f: &mut fmt::Formatter<W>,
) -> fmt::Result {
    let style = if neighbor.is_eager { "solid" } else { "dashed" };
    write!(
        f,
        "    \"{own}\" -> \"{}\" [style={style}];\n",
        neighbor.name
    )
}
