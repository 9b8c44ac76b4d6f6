// Names for texts that stand often in a file.
use std::alloc::{AllocError, Global};

/// A name, and the text for which it stands.
#[derive(Drop)]
pub struct Name {
    name: Vec<u8>,
    text: Vec<u8>,
}

impl Name {
    /// The name that a line gives, as `ABCD = "abcd"_0004`.
    pub fn read(alloc: Global, line: &[u8]) -> Result<Name, AllocError> {
        let mut parts = line.splitn(2, |byte| *byte == b'=');
        let name = parts.next().unwrap_or(line);
        let text = parts.next().unwrap_or(&[]);
        Ok(Name {
            name: Vec::from_slice(alloc, name.trim_ascii())?,
            text: Vec::from_slice(alloc, text.trim_ascii())?,
        })
    }
}

// The text of a name; no bytes if there is no such name.
fn text_of<'a>(names: &'a [Name], name: &[u8]) -> &'a [u8] {
    for it in names {
        if it.name.as_slice() == name {
            return &it.text;
        }
    }
    &[]
}

// Adds what follows an opening brace: the text of the name up to the closing one, and the rest.
fn add_part(names: &[Name], part: &[u8], out: &mut Vec<u8>) -> Result<(), AllocError> {
    let mut pieces = part.splitn(2, |byte| *byte == b'}');
    let name = pieces.next().unwrap_or(part);
    out.extend_from_slice(text_of(names, name))?;
    out.extend_from_slice(pieces.next().unwrap_or(&[]))?;
    Ok(())
}

/// A line with the text of each name that stands in braces.
pub fn spelled(alloc: Global, names: &[Name], line: &[u8]) -> Result<Vec<u8>, AllocError> {
    let mut out = Vec::new(alloc);
    for (index, part) in line.split(|byte| *byte == b'{').enumerate() {
        if index == 0 {
            out.extend_from_slice(part)?;
        } else {
            add_part(names, part, &mut out)?;
        }
    }
    Ok(out)
}
