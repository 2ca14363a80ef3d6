//! A status as a drawing.
use crate::status::Status;
use std::alloc::AllocError;

/// Appends the links of the node as a digraph in the DOT language: solid edges to the neighbours to whom messages are
/// sent, and dashed ones to those to whom they are only announced. After an error a part may have been appended.
pub fn write_dot(status: &Status, out: &mut String) -> Result<(), AllocError> {
    let own = status.name;
    write!(
        out,
        "digraph plumtree {{\n    \"{own}\" [shape=doublecircle];\n"
    )?;
    for neighbor in &status.active {
        let style = if neighbor.is_eager { "solid" } else { "dashed" };
        write!(
            out,
            "    \"{own}\" -> \"{}\" [style={style}];\n",
            neighbor.name
        )?;
    }
    out.push_str("}\n")
}
