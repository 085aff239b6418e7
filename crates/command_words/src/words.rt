//! The words as they are parsed.

ghost use Rattle.std.specs.Prelude.{◌≡◌, map, IfOk};
ghost use Rattle.std.specs.List.{list_any};
ghost use Rattle.command_words.specs.Words.{is_dashed, spelled, words_of};

use lex_core::NoMemory;
use std::alloc::Global;

/// Whether the word begins with `-`.
fn begins_with_dash(word: &str) -> bool
    ensures { result ≡ is_dashed word.now }
{
    match word.as_bytes() {
        [first, ..] => *first == b'-',
        [] => false,
    }
}

/// Whether one of the words begins with `-`.
fn has_dash(words: &[String]) -> bool
    ensures { result ≡ list_any is_dashed (words_of words.now) }
{
    for word in words {
        if begins_with_dash(word.as_str()) {
            return true;
        }
    }
    false
}

/// The words as they are parsed: with `--` behind the first, so that a name may be any word; none, where one of them
/// begins with `-`.
pub fn spelled<'a>(alloc: Global, words: &'a [String]) -> Result<Vec<&'a str>, NoMemory>
    ensures { IfOk result (λ v. map (λ s. s.now) v.items ≡ spelled (words_of words.now)) }
{
    let mut all = Vec::new(alloc);
    if has_dash(words) {
        return Ok(all);
    }
    let [first, rest @ ..] = words else {
        return Ok(all);
    };
    all.push(first.as_str())?;
    all.push("--")?;
    for word in rest {
        all.push(word.as_str())?;
    }
    Ok(all)
}
