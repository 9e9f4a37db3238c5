//! Bytes in hexadecimal.
#![tactic(auto)]

ghost use Rattle.std.specs.Prelude.{◌≡◌, ◌<◌, IfOk, IfSome};
ghost use Rattle.hexadecimal.specs.Digits.{digit_of, byte_of, bytes_of};

use std::alloc::{AllocError, Global};

/// The value of a digit.
// Stays: `to_digit` takes small letters too.
fn digit(b: u8) -> Option<u8>
    ensures value { result ≡ digit_of b }
    ensures below { IfSome result (λ d. d < 16) }
{
    match b {
        b'0'..=b'9' => Some(b - b'0'),
        b'A'..=b'F' => Some(b - b'A' + 10),
        _ => None,
    }
}

/// The byte that two digits write.
// Stays: `u8::from_str_radix` takes small letters, a sign and a single digit too.
pub fn byte(word: &str) -> Option<u8>
    ensures { result ≡ byte_of word.now }
{
    match word.as_bytes() {
        [high, low] => Some(digit(*high)? * 16 + digit(*low)?),
        _ => None,
    }
}

/// The bytes at the front of a text, parted by single spaces, up to the first word that is no byte.
pub fn bytes(heap: Global, text: &str) -> Result<Vec<u8>, AllocError>
    ensures { IfOk result (λ bytes. bytes.items ≡ bytes_of text.now) }
{
    text.split(' ').map_while(byte).collect(heap)
}

#[cfg(test)]
mod tests {
    use super::*;
    use std::test::Fail;

    #[test]
    fn bytes_end_at_another_word(rt: HostRuntime) -> Result<(), Fail> {
        let whole = bytes(rt.alloc(), "00 7F FF")?;
        assert_eq!(rt; whole.as_slice(), [0, 127, 255].as_slice());
        let front = bytes(rt.alloc(), "A0 0B  12")?;
        assert_eq!(rt; front.as_slice(), [160, 11].as_slice());
        let none = bytes(rt.alloc(), "a0 0B")?;
        assert_eq!(rt; none.len(), 0);
        Ok(())
    }
}
