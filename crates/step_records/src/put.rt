//! Writing the fields of a body. If memory runs out, some bytes of a field may be appended.
ghost use Rattle.std.specs.Prelude.{◌≡◌, ◌++◌, OnOk};
ghost use Rattle.std.specs.Int.{w32, to_be_bytes};
ghost use Rattle.std.specs.List.{flat_map};
ghost use Rattle.node_names.specs.NodeName.{IsNodeName};
ghost use Rattle.frames.specs.Field.{IsOrigin, name_octets, origin_octets};
ghost use Rattle.step_records.specs.Text.{IsId, IsShort, dice_text, id_text, number_text};

use node_names::{Dice, MsgId, NodeName, Origin};
use std::alloc::AllocError;

/// Appends the length of a name and its letters.
pub(crate) fn put_name(out: &mut Vec<u8>, name: &NodeName) -> Result<(), AllocError>
    ensures bytes { OnOk result (out.new.items ≡ out.old.items ++ name_octets name.now) }
    ensures valid { OnOk result (IsNodeName name.now) }
{
    let letters = name.as_bytes();
    out.push(letters.len() as u8)?;
    out.extend_from_slice(letters)
}

pub(crate) fn put_number(out: &mut Vec<u8>, number: u64) -> Result<(), AllocError>
    ensures bytes { OnOk result (out.new.items ≡ out.old.items ++ number_text number) }
    ensures valid { OnOk result (IsShort number) }
{
    out.extend_from_slice(&number.to_be_bytes())
}

/// Appends a number of four bytes.
pub(crate) fn put_word(out: &mut Vec<u8>, number: u32) -> Result<(), AllocError>
    ensures { OnOk result (out.new.items ≡ out.old.items ++ to_be_bytes w32 number) }
{
    out.extend_from_slice(&number.to_be_bytes())
}

/// Appends a name and an incarnation.
pub(crate) fn put_origin(out: &mut Vec<u8>, origin: &Origin) -> Result<(), AllocError>
    ensures bytes { OnOk result (out.new.items ≡ out.old.items ++ origin_octets origin.now) }
    ensures valid { OnOk result (IsOrigin origin.now) }
{
    let incarnation = origin.incarnation.0;
    put_name(out, &origin.name)?;
    put_number(out, incarnation)
}

pub(crate) fn put_id(out: &mut Vec<u8>, id: &MsgId) -> Result<(), AllocError>
    ensures bytes { OnOk result (out.new.items ≡ out.old.items ++ id_text id.now) }
    ensures valid { OnOk result (IsId id.now) }
{
    put_origin(out, &id.origin)?;
    put_number(out, id.seq)
}

fn put_numbers(out: &mut Vec<u8>, numbers: &[u64]) -> Result<(), AllocError>
    ensures { OnOk result (out.new.items ≡ out.old.items ++ flat_map number_text numbers.now) }
{
    for number in numbers {
        put_number(out, *number)?;
    }
    Ok(())
}

/// Appends the sixteen words.
pub(crate) fn put_dice(out: &mut Vec<u8>, dice: &Dice) -> Result<(), AllocError>
    ensures { OnOk result (out.new.items ≡ out.old.items ++ dice_text dice.now) }
{
    put_numbers(out, dice.0.as_slice())
}
