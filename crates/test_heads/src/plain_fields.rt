//! The fields of some lines, by the plain rules.
use crate::plain_text::{behind, is_blank, is_tchar, without_blanks};
use head_grammar::{Field, Refusal};
use outside::Bytes;
use std::alloc::{AllocError, Global};

fn field_of(alloc: Global, line: &[u8]) -> Result<Result<Field, Refusal>, AllocError> {
    let name = line
        .iter()
        .take_while(|byte| is_tchar(**byte))
        .copied()
        .collect::<Vec<u8>>(alloc)?;
    let Some(value) = behind(line, &name, b":") else {
        return Ok(Err(Refusal::FieldLine));
    };
    if name.is_empty() {
        return Ok(Err(Refusal::FieldLine));
    }
    if value
        .iter()
        .any(|byte| (*byte < b' ' && *byte != b'\t') || *byte == 0x7F)
    {
        return Ok(Err(Refusal::FieldValue));
    }
    Ok(Ok(Field {
        name: Bytes::from_vec(name.as_slice().to_ascii_lowercase(alloc)?),
        value: Bytes::from_vec(without_blanks(alloc, value)?),
    }))
}

// The lines with what continues them, or None where the first one continues the request line.
fn joined(alloc: Global, lines: &[Vec<u8>]) -> Result<Option<Vec<Vec<u8>>>, AllocError> {
    let mut joined: Vec<Vec<u8>> = Vec::new(alloc);
    for line in lines {
        if line.first().is_some_and(|byte| is_blank(*byte)) {
            let Some(mut whole) = joined.pop() else {
                return Ok(None);
            };
            let more = line
                .iter()
                .skip_while(|byte| is_blank(**byte))
                .copied()
                .collect::<Vec<u8>>(alloc)?;
            whole.push(b' ')?;
            whole.extend_from_slice(&more)?;
            joined.push(whole)?;
        } else {
            joined.push(Vec::from_slice(alloc, line)?)?;
        }
    }
    Ok(Some(joined))
}

fn combined(alloc: Global, fields: &[Field]) -> Result<Vec<Field>, AllocError> {
    let mut combined = Vec::new(alloc);
    for (place, field) in fields.iter().enumerate() {
        let name = field.name.as_slice();
        let has_name = |other: &&Field| other.name.as_slice() == name;
        if name.contains(&b'_') || fields.iter().take(place).any(|other| has_name(&other)) {
            continue;
        }
        let mut value = Vec::from_slice(alloc, field.value.as_slice())?;
        for other in fields.iter().skip(place + 1).filter(has_name) {
            value.extend_from_slice(b", ")?;
            value.extend_from_slice(other.value.as_slice())?;
        }
        combined.push(Field {
            name: Bytes::from_slice(alloc, name)?,
            value: Bytes::from_vec(value),
        })?;
    }
    Ok(combined)
}

pub fn fields_of(
    alloc: Global,
    lines: &[Vec<u8>],
) -> Result<Result<Vec<Field>, Refusal>, AllocError> {
    let Some(lines) = joined(alloc, lines)? else {
        return Ok(Err(Refusal::FieldLine));
    };
    let mut fields = Vec::new(alloc);
    for line in &lines {
        match field_of(alloc, line)? {
            Ok(field) => fields.push(field)?,
            Err(refusal) => return Ok(Err(refusal)),
        }
    }
    Ok(Ok(combined(alloc, &fields)?))
}
