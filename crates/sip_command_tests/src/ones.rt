//! Streams and answers in which the items from 0 on have the number 1.

use std::alloc::Global;
use std::test::Fail;

/// A row for each item below `count`: the bytes in front of it, the item in 4 bytes and the number
/// 1 in 8. A header stands in front of each 512 rows.
pub fn rows_of_ones(
    alloc: Global,
    count: u32,
    header: &[u8],
    front: &[u8],
) -> Result<Vec<u8>, Fail> {
    let mut bytes = Vec::new(alloc);
    for item in 0..count {
        if item % 512 == 0 {
            bytes.extend_from_slice(header)?;
        }
        bytes.extend_from_slice(front)?;
        bytes.extend_from_slice(&item.to_be_bytes())?;
        bytes.extend_from_slice(&1_i64.to_be_bytes())?;
    }
    Ok(bytes)
}

/// The pairs of these items, as a line of the report has them.
pub fn pairs_of_ones(alloc: Global, count: u32) -> Result<String, Fail> {
    let mut text = String::new(alloc);
    for item in 0..count {
        text.push(' ')?;
        for power in [10_000, 1_000, 100, 10, 1] {
            if power == 1 || item >= power {
                text.push(char::from(b'0' + (item / power % 10) as u8))?;
            }
        }
        text.push_str(":1")?;
    }
    Ok(text)
}
