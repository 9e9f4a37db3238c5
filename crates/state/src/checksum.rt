//! The checksum of RFC 1071.
ghost use Rattle.std.specs.Prelude.{◌≡◌, ◌<◌};
ghost use Rattle.state.specs.Checksum.{checksum, plus, half};

/// The ones' complement sum of two 16-bit words: a carry is added back.
fn add_carry(sum: u32, word: u32) -> u32
    requires { (sum < 65536) × (word < 65536) }
    ensures value { result ≡ plus sum word }
    ensures bound { result < 65536 }
{
    let total = sum + word;
    if total >= 65536 { total - 65535 } else { total }
}

/// A byte's part of its word: one at an even place is the high half.
fn part_of_word(i: usize, b: u8) -> u32
    ensures value { result ≡ half i b }
    ensures bound { result < 65536 }
{
    if i % 2 == 0 {
        u32::from(b) * 256
    } else {
        u32::from(b)
    }
}

/// The checksum of any bytes, word by word; a zero completes an odd last byte.
pub fn internet_checksum(bytes: &[u8]) -> u16
    ensures { result ≡ checksum bytes.now }
{
    let mut sum: u32 = 0;
    // Stays: a loop over the bytes with their index that folds the carries in is a rule of the project, so that it reads as the definition does.
    for (i, &b) in bytes.iter().enumerate() {
        sum = add_carry(sum, part_of_word(i, b));
    }
    (65535 - sum) as u16
}
