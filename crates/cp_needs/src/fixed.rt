//! Whether an input could change a program.
ghost use Rattle.std.specs.Prelude.{◌≡◌, ◌≤◌, ◌<◌, ◌+◌, ◌/◌, Contains, IfNone, IfSome, false, true};
ghost use Rattle.std.specs.Prelude.{ℕ};
ghost use Rattle.std.specs.List.Sorted.{IsNonDecreasing};
ghost use Rattle.cp_needs.specs.Noted.{IsFirstFrom, IsInPiece, IsInSome};

use s370_store::Range;

/// Returns the first of these ascending numbers that is `from` or greater, if there is one.
fn first_from(numbers: &[u32], from: u32) -> Option<u32>
    requires { IsNonDecreasing numbers.now }
    ensures some { IfSome result (IsFirstFrom numbers.now from) }
    ensures none { IfNone result ((other : ℕ) → Contains numbers.now other → from ≤ other → ⊥) }
{
    let index = match numbers.binary_search(&from) {
        Ok(_) => return Some(from),
        Err(index) => index,
    };
    if index < numbers.len() {
        Some(numbers[index])
    } else {
        None
    }
}

/// Returns the address where a piece of storage ends, or `end` if that is lower.
fn end_of(piece: Range, end: u32) -> u64
    ensures end { result ≤ end }
    ensures piece { result ≤ piece.start + piece.count }
    ensures last { (a : ℕ) → a < end → a < piece.start + piece.count → a < result }
{
    let past = u64::from(piece.start) + u64::from(piece.count);
    if past < u64::from(end) {
        past
    } else {
        u64::from(end)
    }
}

/// Returns whether a byte of a piece below `end` lies in one of these fullwords, which are given by
/// ascending fourths of their addresses.
fn touches(text: &[u32], piece: Range, end: u32) -> bool
    requires { IsNonDecreasing text.now }
    ensures some { result ≡ true
        → (a : ℕ) × (a < end) × IsInPiece piece a × Contains text.now (a / 4) }
    ensures none { result ≡ false → (a : ℕ) → a < end → IsInPiece piece a
        → Contains text.now (a / 4) → ⊥ }
{
    let past = end_of(piece, end);
    if past <= u64::from(piece.start) {
        return false;
    }
    match first_from(text, piece.start / 4) {
        Some(number) => u64::from(number) * 4 < past,
        None => false,
    }
}

/// Returns whether a byte of these pieces below `end` lies in one of these fullwords, which are
/// given by ascending fourths of their addresses.
pub(crate) fn meet(text: &[u32], pieces: &[Range], end: u32) -> bool
    requires { IsNonDecreasing text.now }
    ensures some { result ≡ true
        → (a : ℕ) × (a < end) × IsInSome pieces.now a × Contains text.now (a / 4) }
    ensures none { result ≡ false → (a : ℕ) → a < end → IsInSome pieces.now a
        → Contains text.now (a / 4) → ⊥ }
{
    for piece in pieces {
        if touches(text, *piece, end) {
            return true;
        }
    }
    false
}
