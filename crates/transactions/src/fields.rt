//! Fields at the front of bytes.
//!
//! Each reader gives what the field reads as, and the bytes after it; where the bytes end before
//! the field does, it gives `Truncated` (1). None takes memory.

ghost use Rattle.std.specs.Prelude.{◌≡◌};
ghost use Rattle.std.specs.Result.{result_map_both};
ghost use Rattle.transactions.specs.Fields.{byte_at, number_at, bytes_at};

use crate::fault::Fault;
use byteorder::{BigEndian, ByteOrder};

/// One byte.
pub fn u8_at(bytes: &[u8]) -> Result<(u8, &[u8]), Fault>
    ensures { result_map_both (λ x. (x.0, x.1.now)) (λ fault. fault) result ≡ byte_at bytes.now }
{
    match bytes {
        [] => Err(Fault::Truncated),
        [first, rest @ ..] => Ok((*first, rest)),
    }
}

/// A number of two bytes, the high one first.
pub fn u16_at(bytes: &[u8]) -> Result<(u16, &[u8]), Fault>
    ensures { result_map_both (λ x. (x.0, x.1.now)) (λ fault. fault) result ≡ number_at 2 bytes.now }
{
    if bytes.len() < 2 {
        return Err(Fault::Truncated);
    }
    Ok((BigEndian::read_u16(bytes), &bytes[2..]))
}

/// A number of four bytes, the high one first.
pub fn u32_at(bytes: &[u8]) -> Result<(u32, &[u8]), Fault>
    ensures { result_map_both (λ x. (x.0, x.1.now)) (λ fault. fault) result ≡ number_at 4 bytes.now }
{
    if bytes.len() < 4 {
        return Err(Fault::Truncated);
    }
    Ok((BigEndian::read_u32(bytes), &bytes[4..]))
}

/// A number of eight bytes, the high one first.
pub fn u64_at(bytes: &[u8]) -> Result<(u64, &[u8]), Fault>
    ensures { result_map_both (λ x. (x.0, x.1.now)) (λ fault. fault) result ≡ number_at 8 bytes.now }
{
    if bytes.len() < 8 {
        return Err(Fault::Truncated);
    }
    Ok((BigEndian::read_u64(bytes), &bytes[8..]))
}

/// The next `len` bytes, which stay where they are.
pub fn slice_at(bytes: &[u8], len: usize) -> Result<(&[u8], &[u8]), Fault>
    ensures { result_map_both (λ x. (x.0.now, x.1.now)) (λ fault. fault) result ≡ bytes_at len bytes.now }
{
    if bytes.len() < len {
        return Err(Fault::Truncated);
    }
    Ok(bytes.split_at(len))
}

/// A digest or a tag: 32 bytes, copied out.
pub fn array_at(bytes: &[u8]) -> Result<([u8; 32], &[u8]), Fault>
    ensures { result_map_both (λ x. (x.0, x.1.now)) (λ fault. fault) result ≡ bytes_at 32 bytes.now }
{
    if bytes.len() < 32 {
        return Err(Fault::Truncated);
    }
    let (front, rest) = bytes.split_at(32);
    let mut array = [0u8; 32];
    array.copy_from_slice(front);
    Ok((array, rest))
}
