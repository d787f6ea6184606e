//! Writes a line whole, or up to where the writer failed.
ghost use Rattle.std.specs.Prelude.{◌≡◌, ℕ, ◌≤◌, true, length, take, OnOk, OnErr, IfErr, IfSome};
ghost use Rattle.std.specs.Io.KnownBytes.{Appends};
ghost use Rattle.wire_lines.specs.Device.{one_more};
ghost use Rattle.wire_lines.specs.declared.fault.Fault.TheVariants.{WriteFault};

use crate::device::Sink;
use crate::fault::Fault;

/// Writes all bytes and flushes. On an error, a prefix of them was written.
pub fn write_all<W: Sink>(writer: &mut W, bytes: &[u8]) -> Result<(), Fault>
    ensures whole { OnOk result (Appends (W.contents writer.old) (W.contents writer.new)
        bytes.now) }
    ensures front { OnErr result ((count : ℕ) × (count ≤ length bytes.now)
        × Appends (W.contents writer.old) (W.contents writer.new) (take count bytes.now)) }
    ensures fault { IfErr result (λ fault. fault ≡ WriteFault) }
    ensures cause { OnErr result (W.failures writer.new ≡ one_more (W.failures writer.old)) }
    ensures none { OnOk result (W.failures writer.new ≡ W.failures writer.old) }
    // If the writer says what it has sent on, everything was.
    ensures sent { OnOk result (IfSome (W.is_sent writer.new) (λ sent. sent ≡ true)) }
{
    let mut written = 0;
    while written < bytes.len() {
        match writer.write(&bytes[written..]) {
            Ok(count) if count > 0 => written += count,
            _ => return Err(Fault::WriteFault),
        }
    }
    match writer.flush() {
        Ok(()) => Ok(()),
        Err(_) => Err(Fault::WriteFault),
    }
}
