// Hexadecimal text to bytes.
#![tactic(auto)]

ghost use Rattle.std.specs.Prelude.{◌≡◌, ◌<◌, IfOk, IfSome, vec_items};
ghost use Rattle.std.specs.Option.{option_map};
ghost use Rattle.hexadecimal.specs.Hex.{digit_value, byte_value, unhexed, ReadsHex};

#[cfg(test)]
mod tests;

use std::alloc::{AllocError, Global};

// The value of a digit, or none of any other byte.
fn digit(c: u8) -> Option<u8>
    ensures value { result ≡ digit_value c }
    ensures bound { IfSome result (λ n. n < 16) }
{
    Some(char::from(c).to_digit(16)? as u8)
}

// The byte of two digits, the high one first; none if one of them is no digit.
fn byte(high: u8, low: u8) -> Option<u8>
    ensures { result ≡ byte_value high low }
{
    Some(digit(high)? * 16 + digit(low)?)
}

// The bytes that a text of hexadecimal digits writes, or none if it is no such text.
pub fn unhex(heap: Global, text: &[u8]) -> Result<Option<Vec<u8>>, AllocError>
    ensures answer { IfOk result (λ o. option_map vec_items o ≡ unhexed text.now) }
    ensures reads_exactly_what_is_written { IfOk result (λ o. ReadsHex text.now (option_map vec_items o)) }
{
    if text.len() % 2 != 0 {
        return Ok(None);
    }
    let mut bytes = Vec::new(heap);
    for pair in text.chunks_exact(2) {
        let Some(byte) = byte(pair[0], pair[1]) else {
            return Ok(None);
        };
        bytes.push(byte)?;
    }
    Ok(Some(bytes))
}
