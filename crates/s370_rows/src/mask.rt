//! Bytes of a register under a mask of four bits.
ghost use Rattle.std.specs.Prelude.{◌≡◌, ◌<◌, ◌≤◌, length};
ghost use Rattle.s370_rows.specs.Mask.{selected_bytes, selected_count, selects};

/// Returns whether a four-bit mask selects byte `place` of a word, of which the leftmost is 0.
#[inline(always)]
fn selects(mask: u8, place: usize) -> bool
    requires { place < 4 }
    ensures { result ≡ selects mask place }
{
    mask >> (3 - place) & 1 == 1
}

/// Returns how many bytes of a word a four-bit mask selects.
#[inline(always)]
pub fn selected_count(mask: u8) -> usize
    ensures count { result ≡ selected_count mask }
    ensures most { result ≤ 4 }
{
    let left = (mask >> 3 & 1) + (mask >> 2 & 1);
    let right = (mask >> 1 & 1) + (mask & 1);
    (left + right) as usize
}

/// Copies the bytes of a word that a mask selects to the front of `into`; STCM (BE) stores them.
#[inline]
pub fn select_bytes(word: u32, mask: u8, into: &mut [u8])
    requires { length into.old ≡ selected_count mask }
    ensures { into.new ≡ selected_bytes word mask }
{
    let bytes = word.to_be_bytes();
    let mut next = 0;
    for place in 0..4 {
        if selects(mask, place) {
            into[next] = bytes[place];
            next += 1;
        }
    }
}
