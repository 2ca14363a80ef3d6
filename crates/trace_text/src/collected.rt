//! Texts of messages, which one pass over a group collects for all of them.
ghost use Rattle.std.specs.Prelude.{◌≡◌, [], ◌++◌, OnOk, if◌then◌else◌};
ghost use Rattle.node_names.specs.Same.{same_id};
ghost use Rattle.node_names.specs.declared.ids.MsgId.{MsgId};
ghost use Rattle.trace_text.specs.Collected.{text_at};

use indexmap::IndexMap;
use node_names::MsgId;
use std::alloc::{AllocError, Allocator, Global};
use std::hash::{BuildHasherDefault, FoldHasher};
use std::marker::Model;

/// A text that contracts see as its bytes alone.
#[derive(Drop)]
pub struct Text<A: Allocator = Global> {
    text: String<A>,
}

impl<A: Allocator> Model for Text<A> {
    ghost use Rattle.std.specs.Prelude.{ℕ, List, string_bytes};

    ghost Value = { List ℕ };

    ghost view = { λ t. string_bytes t.text };
}

impl<A: Allocator> Text<A> {
    /// Creates an empty text, without allocating.
    fn new(alloc: A) -> Text<A>
        ensures { result ≡ [] }
    {
        Text {
            text: String::new(alloc),
        }
    }

    /// Appends to the text.
    fn push_str(&mut self, more: &str) -> Result<(), AllocError>
        ensures { OnOk result (self.new ≡ self.old ++ more.now) }
    {
        self.text.push_str(more)
    }

    /// The text.
    fn as_str(&self) -> &str
        ensures { result.now ≡ self.now }
    {
        self.text.as_str()
    }
}

/// A text for each message. A message that is not in it has an empty text.
pub type Texts<A> = IndexMap<MsgId, Text<A>, BuildHasherDefault<FoldHasher>, A>;

/// The text of a message.
pub fn text_of<'a, A: Allocator>(texts: &'a Texts<A>, id: &MsgId) -> &'a str
    ensures { result.now ≡ text_at id.now texts.now.entries }
{
    match texts.get(id) {
        Some(text) => text.as_str(),
        None => "",
    }
}

/// Appends to the text of a message.
pub fn append<A: Allocator + Copy>(
    texts: &mut Texts<A>,
    id: &MsgId,
    more: &str,
) -> Result<(), AllocError>
    ensures { OnOk result ((q : MsgId)
        → text_at q texts.new.entries ≡ text_at q texts.old.entries ++ (if same_id q id.now then more.now else [])) }
{
    match texts.get_mut(id) {
        Some(text) => text.push_str(more),
        None => {
            let mut text = Text::new(*texts.allocator());
            text.push_str(more)?;
            texts.insert(*id, text)?;
            Ok(())
        }
    }
}
