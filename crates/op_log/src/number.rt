//! Numbers as bytes of seven bits, low first (LEB128, as in DWARF and in Protocol Buffers).
ghost use Rattle.std.specs.Prelude.{◌≡◌, ◌++◌, ◌<◌, ◌^◌, take, vec_len, OnOk, OnErr};
ghost use Rattle.op_log.specs.Number.{number_bytes, number_at, after_number};

use std::alloc::AllocError;

/// Appends a number. After an error, part of its bytes may be there.
pub fn push_number(bytes: &mut Vec<u8>, number: u64) -> Result<(), AllocError>
    ensures ok { OnOk result (bytes.new.items ≡ bytes.old.items ++ number_bytes number) }
    ensures err { OnErr result (take (vec_len bytes.old) bytes.new.items ≡ bytes.old.items) }
    ensures bound { number < 2 ^ 64 }
{
    let mut rest = number;
    while rest >= 128 {
        bytes.push((rest % 128) as u8 + 128)?;
        rest /= 128;
    }
    bytes.push(rest as u8)?;
    Ok(())
}

/// Reads the number at the start; returns it and the remaining bytes. It is 0 if there are no bytes.
pub fn next_number(bytes: &[u8]) -> (u64, &[u8])
    ensures number { result.0 ≡ number_at bytes.now }
    ensures rest { result.1.now ≡ after_number bytes.now }
{
    let Some((byte, rest)) = bytes.split_first() else {
        return (0, bytes);
    };
    let low = *byte as u64;
    if low < 128 {
        return (low, rest);
    }
    let (high, rest) = next_number(rest);
    (high.saturating_mul(128).saturating_add(low - 128), rest)
}
