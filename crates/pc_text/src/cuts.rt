//! Where a byte cuts, and what stands after a front.

ghost use Rattle.std.specs.Prelude.{◌≡◌, ◌==◌, ◌+◌, ◌∷◌, [], length, option_map, option_copied, MatchOption};
ghost use Rattle.std.specs.Prelude.{IfSome};
ghost use Rattle.std.specs.List.{position_or_len, slice_split};
ghost use Rattle.std.specs.Option.{option_map_or};
ghost use Rattle.pc_text.specs.Lines.{cut_at, after_front};

// The place of the first b, or the length.
fn first(bytes: &[u8], b: u8) -> usize
    ensures { result ≡ position_or_len (λ x. x == b) bytes.now }
{
    for (i, x) in bytes.iter().enumerate() {
        if *x == b {
            return i;
        }
    }
    bytes.len()
}

/// What stands before the first b, and after it.
pub fn cut(bytes: &[u8], b: u8) -> Option<(&[u8], &[u8])>
    ensures cut { option_map (λ x. (x.0.now, x.1.now)) result ≡ cut_at b bytes.now }
    ensures len { IfSome result (λ x. length x.0.now + length x.1.now + 1 ≡ length bytes.now) }
{
    let at = first(bytes, b);
    if at < bytes.len() {
        Some((&bytes[..at], &bytes[at + 1..]))
    } else {
        None
    }
}

/// What stands after a front, where the bytes begin with it.
pub fn strip<'a>(front: &[u8], bytes: &'a [u8]) -> Option<&'a [u8]>
    ensures { option_copied result ≡ after_front front.now bytes.now }
{
    if bytes.starts_with(front) {
        Some(&bytes[front.len()..])
    } else {
        None
    }
}

/// The first part of the bytes that b cuts, and what stands after that b.
pub fn first_part(bytes: &[u8], b: u8) -> (&[u8], Option<&[u8]>)
    ensures parts { slice_split (λ x. x == b) bytes.now ≡ result.0.now ∷ option_map_or
        (λ rest. slice_split (λ x. x == b) rest.now) result.1 [] }
    ensures len { MatchOption result.1 (length result.0.now ≡ length bytes.now)
        (λ rest. length result.0.now + length rest.now + 1 ≡ length bytes.now) }
{
    let at = first(bytes, b);
    if at < bytes.len() {
        (&bytes[..at], Some(&bytes[at + 1..]))
    } else {
        (bytes, None)
    }
}
