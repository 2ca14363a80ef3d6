//! The names of runs of nodes in the part of a message, and arrows between them.
ghost use Rattle.std.specs.Prelude.{◌≡◌, ◌++◌, OnOk, string_bytes};
ghost use Rattle.simulation.specs.Graph.{between_text, run_text};

use node_names::{MsgId, Origin};
use std::alloc::{AllocError, Allocator};
use trace_text::{push_id, push_origin};

/// Appends an arrow from one run to another, without its style.
#[tactic(auto, unfolding(crate::specs::Graph::between_text))]
pub fn push_between<A: Allocator>(
    text: &mut String<A>,
    id: &MsgId,
    from: &Origin,
    to: &Origin,
) -> Result<(), AllocError>
    ensures { OnOk result (string_bytes text.new ≡ string_bytes text.old ++ between_text id.now from.now to.now) }
{
    text.push_str("    ")?;
    push_run(text, id, from)?;
    text.push_str(" -> ")?;
    push_run(text, id, to)
}

/// Appends the name of a run.
fn push_run<A: Allocator>(text: &mut String<A>, id: &MsgId, run: &Origin) -> Result<(), AllocError>
    ensures { OnOk result (string_bytes text.new ≡ string_bytes text.old ++ run_text id.now run.now) }
{
    text.push('"')?;
    push_id(text, id)?;
    text.push(' ')?;
    push_origin(text, run)?;
    text.push('"')
}
