//! Prints names and ids, and lists of them.
ghost use Rattle.std.specs.Prelude.{◌≡◌, ◌++◌, [], codes, length, OnOk, nat_eq, string_bytes, if◌then◌else◌};
ghost use Rattle.std.specs.Fmt.{decimal};
ghost use Rattle.node_names.specs.Ids.{msg_id_text, origin_text};
ghost use Rattle.trace_text.specs.Names.{id_item, maybe_name, name_item, name_items, names_text};

use node_names::{MsgId, NodeName, Origin};
use std::alloc::{AllocError, Allocator};

/// Appends an origin as `Display` prints it, part by part: a trace consists mostly of origins, and nested formatting is
/// slow.
pub fn push_origin<A: Allocator>(text: &mut String<A>, origin: &Origin) -> Result<(), AllocError>
    ensures { OnOk result (string_bytes text.new ≡ string_bytes text.old ++ origin_text origin.now) }
{
    text.push_str(origin.name.as_str())?;
    text.push('/')?;
    push_number(text, origin.incarnation.0)
}

/// Appends an id as `Display` prints it.
pub fn push_id<A: Allocator>(text: &mut String<A>, id: &MsgId) -> Result<(), AllocError>
    ensures { OnOk result (string_bytes text.new ≡ string_bytes text.old ++ msg_id_text id.now) }
{
    push_origin(text, &id.origin)?;
    text.push('/')?;
    push_number(text, id.seq)
}

/// Appends a number.
pub fn push_number<A: Allocator>(text: &mut String<A>, number: u64) -> Result<(), AllocError>
    ensures { OnOk result (string_bytes text.new ≡ string_bytes text.old ++ decimal number) }
{
    write!(text, "{number}")
}

/// Appends the end of a line.
pub fn push_end<A: Allocator>(text: &mut String<A>) -> Result<(), AllocError>
    ensures { OnOk result (string_bytes text.new ≡ string_bytes text.old ++ codes "\n") }
{
    text.push('\n')
}

/// Appends a dash if the text is no longer than `start`, that is, if the list that was appended has no items.
pub fn push_dash_at<A: Allocator>(text: &mut String<A>, start: usize) -> Result<(), AllocError>
    ensures { OnOk result (string_bytes text.new
        ≡ string_bytes text.old ++ (if nat_eq (length (string_bytes text.old)) start then codes " -" else [])) }
{
    if text.len() == start {
        return text.push_str(" -");
    }
    Ok(())
}

/// Appends a list of names.
#[tactic(auto, using(crate::proofs::Dashes::dashed))]
pub fn push_names<A: Allocator>(text: &mut String<A>, names: &[NodeName]) -> Result<(), AllocError>
    ensures { OnOk result (string_bytes text.new ≡ string_bytes text.old ++ names_text names.now) }
{
    let start = text.len();
    push_name_items(text, names)?;
    push_dash_at(text, start)
}

/// Appends each of these names after a space.
fn push_name_items<A: Allocator>(text: &mut String<A>, names: &[NodeName]) -> Result<(), AllocError>
    ensures { OnOk result (string_bytes text.new ≡ string_bytes text.old ++ name_items names.now) }
{
    for name in names {
        push_name_item(text, name)?;
    }
    Ok(())
}

/// Appends a name after a space.
pub fn push_name_item<A: Allocator>(text: &mut String<A>, name: &NodeName) -> Result<(), AllocError>
    ensures { OnOk result (string_bytes text.new ≡ string_bytes text.old ++ name_item name.now) }
{
    text.push(' ')?;
    text.push_str(name.as_str())
}

/// Appends a name after a space, or a dash.
pub fn push_maybe_name<A: Allocator>(
    text: &mut String<A>,
    name: &Option<NodeName>,
) -> Result<(), AllocError>
    ensures { OnOk result (string_bytes text.new ≡ string_bytes text.old ++ maybe_name name.now) }
{
    match name {
        Some(name) => push_name_item(text, name),
        None => text.push_str(" -"),
    }
}

/// Appends an id after a space.
pub fn push_id_item<A: Allocator>(text: &mut String<A>, id: &MsgId) -> Result<(), AllocError>
    ensures { OnOk result (string_bytes text.new ≡ string_bytes text.old ++ id_item id.now) }
{
    text.push(' ')?;
    push_id(text, id)
}
