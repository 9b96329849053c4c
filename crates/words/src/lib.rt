// The lines of a text, the words of a line, and the whole numbers that words write.
#![tactic(auto)]

ghost use Rattle.std.specs.Prelude.{◌≡◌, ℕ, ◌≤◌, List, map, ℤ, Some, IfOk, decimal, unsigned_abs};
ghost use Rattle.std.specs.Fmt.{signed_decimal};
ghost use Rattle.std.specs.List.{AllByRecursion, join_with_byte};
ghost use Rattle.words.specs.Lines.{lines_of, each_with, IsLine, ReadsLines};
ghost use Rattle.words.specs.Numbers.{number_of, ReadsNumber};
ghost use Rattle.words.specs.Signed.{signed_of, ReadsSigned};
ghost use Rattle.words.specs.Words.{is_blank, words_of, IsWord, ReadsWords};

#[cfg(test)]
mod tests;

use std::alloc::{AllocError, Global};

// The lines of a text: what stands between line feeds. What follows the last line feed is a line only if it is not empty.
pub fn lines(heap: Global, text: &[u8]) -> Result<Vec<&[u8]>, AllocError>
    ensures answer { IfOk result (λ v. map (λ l. l.now) v.items ≡ lines_of text.now) }
    ensures reads_exactly_what_is_written { IfOk result (λ v. ReadsLines text.now (map (λ l. l.now) v.items)) }
    ensures gives_lines_back { IfOk result (λ v. (ls : List (List ℕ)) → AllByRecursion IsLine ls → text.now ≡ each_with 10 ls → map (λ l. l.now) v.items ≡ ls) }
{
    let mut lines: Vec<&[u8]> = text.split(|c| *c == b'\n').collect(heap)?;
    lines.pop_if(|line| line.is_empty());
    Ok(lines)
}

// Whether a byte is a blank: a space, a tab or a carriage return.
fn blank(c: u8) -> bool
    ensures { result ≡ is_blank c }
{
    c == b' ' || c == b'\t' || c == b'\r'
}

// The words of a line: the longest stretches without a blank.
pub fn words(heap: Global, line: &[u8]) -> Result<Vec<&[u8]>, AllocError>
    ensures answer { IfOk result (λ v. map (λ w. w.now) v.items ≡ words_of line.now) }
    ensures reads_exactly_what_is_written { IfOk result (λ v. ReadsWords line.now (map (λ w. w.now) v.items)) }
    ensures gives_words_back { IfOk result (λ v. (ws : List (List ℕ)) → AllByRecursion IsWord ws → line.now ≡ join_with_byte 32 ws → map (λ w. w.now) v.items ≡ ws) }
{
    line.split(|c| blank(*c))
        .filter(|part| !part.is_empty())
        .collect(heap)
}

// The whole number that a word writes in decimal digits, without a sign, up to the largest u32; none for any other word.
pub fn whole_number(word: &[u8]) -> Option<u32>
    ensures answer { result ≡ number_of word.now }
    ensures reads_exactly_what_is_written { ReadsNumber word.now result }
    ensures gives_number_back { (n : ℕ) → n ≤ 4294967295 → word.now ≡ decimal n → result ≡ Some n }
{
    if !word.iter().all(|c| c.is_ascii_digit()) {
        return None;
    }
    str::from_utf8(word).ok()?.parse().ok()
}

// The whole number that a word writes in decimal digits, with or without a minus in front, no further from 0 than the largest u32; none for any
// other word.
#[tactic(auto, using(crate::proofs::SignedTrips::signed_back, crate::proofs::SignedTrips::signed_reads))]
pub fn signed_number(word: &[u8]) -> Option<i64>
    ensures answer { result ≡ signed_of word.now }
    ensures reads_exactly_what_is_written { ReadsSigned word.now result }
    ensures gives_number_back { (z : ℤ) → unsigned_abs z ≤ 4294967295 → word.now ≡ signed_decimal z → result ≡ Some z }
{
    if word.first() == Some(&b'-') {
        whole_number(&word[1..]).map(|n| -i64::from(n))
    } else {
        whole_number(word).map(|n| i64::from(n))
    }
}
