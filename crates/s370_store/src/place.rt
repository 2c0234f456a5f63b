//! A write at a place of a slice.
ghost use Rattle.std.specs.Prelude.{◌≡◌, ◌+◌, ◌≤◌, length, slice_range};
ghost use Rattle.s370_store.specs.Access.{put};

/// Overwrites the bytes of `bytes` from index `start` on with those of `from`.
#[inline(always)]
#[tactic(auto, unfolding(crate::specs::Access::put))]
pub fn put_at(bytes: &mut [u8], start: usize, from: &[u8])
    requires { start + length from.now ≤ length bytes.old }
    ensures bytes { bytes.new ≡ put bytes.old start from.now }
    ensures size { length bytes.new ≡ length bytes.old }
{
    let end = start + from.len();
    bytes[start..end].copy_from_slice(from);
}

/// Copies at most 2048 bytes from one index to another, as if all were read before any is written.
///
/// If the two ranges lie apart, no buffer is used.
#[inline]
pub fn copy_at(bytes: &mut [u8], from: usize, to: usize, count: usize)
    requires source { from + count ≤ length bytes.old }
    requires target { to + count ≤ length bytes.old }
    requires short { count ≤ 2048 }
    ensures bytes { bytes.new ≡ put bytes.old to (slice_range bytes.old from (from + count)) }
    ensures size { length bytes.new ≡ length bytes.old }
{
    if from + count <= to {
        let (low, high) = bytes.split_at_mut(to);
        put_at(high, 0, &low[from..from + count]);
    } else if to + count <= from {
        let (low, high) = bytes.split_at_mut(from);
        put_at(low, to, &high[..count]);
    } else if count <= 256 {
        copy_near(bytes, from, to, count);
    } else {
        copy_long_near(bytes, from, to, count);
    }
}

/// Copies at most 256 bytes from one index to another through a buffer, so the ranges may overlap.
#[inline(never)]
fn copy_near(bytes: &mut [u8], from: usize, to: usize, count: usize)
    requires source { from + count ≤ length bytes.old }
    requires target { to + count ≤ length bytes.old }
    requires short { count ≤ 256 }
    ensures bytes { bytes.new ≡ put bytes.old to (slice_range bytes.old from (from + count)) }
    ensures size { length bytes.new ≡ length bytes.old }
{
    let mut buffer = [0u8; 256];
    copy_through(bytes, from, to, &mut buffer[..count]);
}

/// Copies at most 2048 bytes from one index to another through a buffer, so the ranges may overlap.
#[inline(never)]
fn copy_long_near(bytes: &mut [u8], from: usize, to: usize, count: usize)
    requires source { from + count ≤ length bytes.old }
    requires target { to + count ≤ length bytes.old }
    requires short { count ≤ 2048 }
    ensures bytes { bytes.new ≡ put bytes.old to (slice_range bytes.old from (from + count)) }
    ensures size { length bytes.new ≡ length bytes.old }
{
    let mut buffer = [0u8; 2048];
    copy_through(bytes, from, to, &mut buffer[..count]);
}

/// Copies as many bytes as `buffer` has from one index to another through `buffer`, which it
/// overwrites.
#[inline(always)]
fn copy_through(bytes: &mut [u8], from: usize, to: usize, buffer: &mut [u8])
    requires source { from + length buffer.old ≤ length bytes.old }
    requires target { to + length buffer.old ≤ length bytes.old }
    ensures bytes { bytes.new
        ≡ put bytes.old to (slice_range bytes.old from (from + length buffer.old)) }
    ensures size { length bytes.new ≡ length bytes.old }
{
    buffer.copy_from_slice(&bytes[from..from + buffer.len()]);
    put_at(bytes, to, buffer);
}
