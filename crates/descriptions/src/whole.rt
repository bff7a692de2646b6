// Bytes as a whole description: accepted if and only if they are the writing of one.
ghost use Rattle.descriptions.specs.Reading.{OutlineSays};

use crate::extents::{Scope, sentence_extent};
use crate::heads::byte;
use crate::shapes::Outline;

// Which description the bytes are, in outline; None where they are none.
pub fn outline_of(description: &[u8]) -> Option<Outline>
    ensures { OutlineSays description.now result }
{
    if description.len() > 512 {
        return None;
    }
    let relations = byte(description, 0)?;
    if relations == 0 || relations > 8 {
        return None;
    }
    let scope = Scope {
        relations,
        spoken: 0,
    };
    let extent = sentence_extent(description, 1, scope)?;
    if extent.end == description.len() {
        Some(Outline {
            relations,
            depth: extent.value,
        })
    } else {
        None
    }
}
