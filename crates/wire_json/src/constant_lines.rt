//! Replies whose lines need no memory: their bytes are part of the program.
ghost use Rattle.std.specs.Prelude.{◌≡◌, Err};
ghost use Rattle.pad_model.specs.declared.refusal.Refusal.TheVariants.{Memory, TooLong};
ghost use Rattle.wire_json.specs.Replies.{line_of};

/// The reply line for `Memory`.
pub fn memory_line() -> &'static [u8]
    ensures { result.now ≡ line_of (Err Memory) }
{
    b"{\"code\":900,\"error\":\"Memory\",\"ok\":false}\n"
}

/// The reply line for `TooLong`.
pub fn too_long_line() -> &'static [u8]
    ensures { result.now ≡ line_of (Err TooLong) }
{
    b"{\"code\":100,\"error\":\"TooLong\",\"ok\":false}\n"
}
