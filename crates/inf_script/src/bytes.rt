//! Bytes cut at a place.

ghost use Rattle.std.specs.Prelude.{◌≡◌, ◌+◌, ◌<◌, ◌==◌, length, position, IfSome};
ghost use Rattle.std.specs.Option.{option_copied};
ghost use Rattle.inf_script.specs.Cuts.{before, behind, bytes_behind};

/// Where the byte stands first.
pub fn position_of(bytes: &[u8], byte: u8) -> Option<usize>
    ensures value { result ≡ position (λ b. b == byte) bytes.now }
    ensures within { IfSome result (λ place. place < length bytes.now) }
{
    bytes.iter().position(|b| *b == byte)
}

/// What stands before the place, and what stands behind it, where there is one.
pub fn cut_at(bytes: &[u8], place: Option<usize>) -> (&[u8], Option<&[u8]>)
    requires { IfSome place (λ p. p < length bytes.now) }
    ensures front { result.0.now ≡ before place bytes.now }
    ensures back { option_copied result.1 ≡ behind place bytes.now }
    ensures size { length result.0.now + bytes_behind (option_copied result.1) ≡ length bytes.now }
{
    match place {
        Some(end) => (&bytes[..end], Some(&bytes[end + 1..])),
        None => (bytes, None),
    }
}
