// A text of many lines as the bytes of a feed.
ghost use Rattle.std.specs.Prelude.{◌≡◌, List, ◌++◌, IfOk, OnOk};
ghost use Rattle.packing.specs.Bytes.{bytes_of, Packs};
ghost use Rattle.packing.specs.Whole.{words_of_group};

use anyhow::anyhow;
use packing::group::Group;
use packing::line::group_of;
use packing::pack::packed;
use std::alloc::{AllocError, Global};

// Appends the words of a group.
fn append(bytes: &mut Vec<u8>, group: &Group) -> Result<(), AllocError>
    ensures appended { OnOk result (bytes.new.items ≡ bytes.old.items ++ bytes_of (words_of_group group.now)) }
{
    let words = packed(group);
    for word in words.as_slice() {
        bytes.extend_from_slice(&word.to_le_bytes())?;
    }
    Ok(())
}

// The bytes of the groups of a text, or the first line that cannot be read and why. They are a whole feed.
pub(crate) fn packed_text(heap: Global, text: &str) -> anyhow::Result<Vec<u8>>
    ensures whole { IfOk result (λ bytes. ((groups : List Group) × Packs groups bytes.items)) }
{
    let mut bytes = Vec::new(heap);
    for (before, line) in text.lines().enumerate() {
        let read = match group_of(line) {
            Ok(read) => read,
            Err(wrong) => {
                let number = before + 1;
                return Err(anyhow!(format!(in heap; "line {number}: {wrong}")?));
            }
        };
        if let Some(group) = read {
            append(&mut bytes, &group)?;
        }
    }
    Ok(bytes)
}
