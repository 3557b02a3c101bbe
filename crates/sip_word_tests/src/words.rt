//! Words out of one text.

use sip_words::Words;
use std::alloc::Global;
use std::test::Fail;

/// The words of a text, with a mark between them.
pub fn words_between(alloc: Global, text: &str, mark: char) -> Result<Words, Fail> {
    let mut list = Vec::new(alloc);
    for word in text.split(mark) {
        list.push(String::from_str(alloc, word)?)?;
    }
    Ok(Words::of(list))
}
