//! The words of a call.

use std::alloc::{AllocError, Global};
use wbt_num::Items;
use wbt_top_plain::Words;

/// The words, each made a text of its own.
pub fn words_of(alloc: Global, words: &[&str]) -> Result<Words, AllocError> {
    let mut list = Vec::new(alloc);
    for word in words {
        list.push(String::from_str(alloc, word)?)?;
    }
    Ok(Words {
        list: Items::from_vec(list),
    })
}
