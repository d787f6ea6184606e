//! The fields of a request's head.
ghost use Rattle.std.specs.Prelude.{◌≡◌, All, length, option_map};
ghost use Rattle.httparse.specs.Spans.{IsHeaderWithin};
ghost use Rattle.websocket.specs.Headers.{eq_ignore_case, fields_of, header_value};
ghost use Rattle.web_wire.specs.Fields.{is_single};

use httparse::spans::HeaderSpan;

/// Returns true if two texts are equal up to the case of letters.
pub(crate) fn is_same(a: &[u8], b: &[u8]) -> bool
    ensures { result ≡ eq_ignore_case a.now b.now }
{
    http1::text::eq_ignore_case(a, b)
}

/// The value of the first field with a name.
pub(crate) fn field<'b>(input: &'b [u8], fields: &[HeaderSpan], name: &[u8]) -> Option<&'b [u8]>
    requires { All (IsHeaderWithin (length input.now)) fields.now }
    ensures { option_map (λ value. value.now) result
        ≡ header_value (fields_of input.now fields.now) name.now }
{
    for span in fields {
        if is_same(span.name.of(input), name) {
            return Some(span.value.of(input));
        }
    }
    None
}

/// Returns true if at most one field has the name.
pub(crate) fn is_single(input: &[u8], fields: &[HeaderSpan], name: &[u8]) -> bool
    requires { All (IsHeaderWithin (length input.now)) fields.now }
    ensures { result ≡ is_single (fields_of input.now fields.now) name.now }
{
    let mut is_found = false;
    for span in fields {
        if is_same(span.name.of(input), name) {
            if is_found {
                return false;
            }
            is_found = true;
        }
    }
    true
}
