//! The ends of words.

ghost use Rattle.std.specs.Prelude.{◌++◌, ◌≡◌, ◌∷◌, ◌-◌, ◌≤◌, [], IsTrue, OnOk, bytes_eq, length, nat_le};
ghost use Rattle.english_stems.specs.Suffixes.{begins_in, by_rules, cut, ends_in, ends_twice_in, has_prefix, has_suffix, replaced, rule_of, rules_of};

use std::alloc::AllocError;

/// A suffix, the letters of which one must stand before it, and what takes its place: `Rule(letters, suffix, ending)`.
///
/// Where there are no letters, any may stand there.
#[derive(Clone, Copy, Debug)]
pub struct Rule(pub &'static [u8], pub &'static [u8], pub &'static [u8]);

/// Whether `word` is `text`.
pub fn is_text(word: &[char], text: &[u8]) -> bool
    ensures { result ≡ bytes_eq word.now text.now }
{
    if word.len() != text.len() {
        return false;
    }
    for (i, b) in text.iter().enumerate() {
        if word[i] != char::from(*b) {
            return false;
        }
    }
    true
}

/// Whether `word` begins with `prefix`.
pub fn has_prefix(word: &[char], prefix: &[u8]) -> bool
    ensures value { result ≡ has_prefix prefix.now word.now }
    ensures within { IsTrue result → length prefix.now ≤ length word.now }
{
    prefix.len() <= word.len() && is_text(&word[..prefix.len()], prefix)
}

/// Whether `word` ends with `suffix`.
pub fn has_suffix(word: &[char], suffix: &[u8]) -> bool
    ensures { result ≡ has_suffix suffix.now word.now }
{
    let start = word.len().saturating_sub(suffix.len());
    is_text(&word[start..], suffix)
}

/// Whether the last letter of `word` is one of `letters`.
pub fn ends_in(word: &[char], letters: &[u8]) -> bool
    ensures { result ≡ ends_in letters.now word.now }
{
    letters.iter().any(|b| has_suffix(word, &[*b]))
}

/// Whether the last two letters of `word` are one of `letters`, twice.
pub fn ends_twice_in(word: &[char], letters: &[u8]) -> bool
    ensures { result ≡ ends_twice_in letters.now word.now }
{
    letters.iter().any(|b| has_suffix(word, &[*b, *b]))
}

/// Returns `word` without its last `n` letters.
pub fn cut(word: &[char], n: usize) -> &[char]
    ensures { result.now ≡ cut n word.now }
{
    &word[..word.len().saturating_sub(n)]
}

/// Removes the last `n` letters of `word`.
pub fn cut_off(word: &mut Vec<char>, n: usize)
    ensures { word.new.items ≡ cut n word.old.items }
{
    let kept = word.len().saturating_sub(n);
    word.truncate(kept);
}

/// Appends `text` to `word`.
pub fn push_text(word: &mut Vec<char>, text: &[u8]) -> Result<(), AllocError>
    ensures { OnOk result (word.new.items ≡ word.old.items ++ text.now) }
{
    for b in text {
        word.push(char::from(*b))?;
    }
    Ok(())
}

/// Whether the last `n` letters of `word` are of the region that begins at `start`.
pub fn begins_in(word: &[char], n: usize, start: usize) -> bool
    ensures { result ≡ begins_in start n word.now }
{
    start <= word.len().saturating_sub(n)
}

/// Replaces the suffix of `word` by the first of `rules` that has it, if it begins in the region and behind its letters.
pub fn by_rules(word: &mut Vec<char>, start: usize, rules: &[Rule]) -> Result<(), AllocError>
    ensures { OnOk result (word.new.items ≡ by_rules start (rules_of rules.now) word.old.items) }
{
    for rule in rules {
        if has_suffix(word, rule.1) {
            return replace(word, start, *rule);
        }
    }
    Ok(())
}

fn replace(word: &mut Vec<char>, start: usize, rule: Rule) -> Result<(), AllocError>
    ensures { OnOk result (word.new.items ≡ replaced start (rule_of rule) word.old.items) }
{
    let Rule(letters, suffix, ending) = rule;
    let stem = cut(word, suffix.len());
    if begins_in(word, suffix.len(), start) && (letters.is_empty() || ends_in(stem, letters)) {
        cut_off(word, suffix.len());
        return push_text(word, ending);
    }
    Ok(())
}
