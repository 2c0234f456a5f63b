//! The header of an image: version, serial number and number of cylinders.
ghost use Rattle.std.specs.Prelude.{◌≡◌, ◌≤◌, ◌==◌, length, take, IfSome, IfNone, IsOk, IfOk};
ghost use Rattle.std.specs.Prelude.{IfErr};
ghost use Rattle.std.specs.List.{list_all};
ghost use Rattle.ckd_image.specs.Reading as image;
ghost use Rattle.ckd_image.specs.Reading.{HasNoHeader, IsHeader};
ghost use Rattle.ckd_image.specs.Parts.{IsHeaderFault};
ghost use Rattle.ckd_image.specs.declared.header.Version.{Version};

use crate::faults::ImageError;
use byteorder::{BigEndian, ByteOrder};

/// How many bytes a header has.
pub const HEADER_LENGTH: usize = 12;

/// The versions of images.
#[derive(Clone, Copy, PartialEq, Eq)]
pub enum Version {
    /// Up to 404 cylinders, and nothing after the tracks.
    One,
    /// Up to 808 cylinders, and the number of all records after the tracks.
    Two,
}

/// What a header says.
#[derive(Clone, Copy, PartialEq, Eq)]
pub struct Header {
    pub version: Version,
    pub volser: [u8; 6],
    pub cylinders: u16,
}

/// Returns the version of an image that begins with these four bytes, or `None` if they are of
/// none.
fn version_of(bytes: &[u8]) -> Option<Version>
    ensures some { IfSome result (λ version. bytes.now ≡ image.magic version) }
    ensures none { IfNone result ((version : Version) → bytes.now ≡ image.magic version → ⊥) }
{
    match bytes {
        b"CKD1" => Some(Version::One),
        b"CKD2" => Some(Version::Two),
        _ => None,
    }
}

/// Returns the most cylinders that an image of this version may have.
fn most_cylinders(version: Version) -> u16
    ensures value { result ≡ image.most_cylinders version }
    ensures few { result ≤ 808 }
{
    match version {
        Version::One => 404,
        Version::Two => 808,
    }
}

/// Returns whether a byte may be in a serial number: an upper-case letter or a digit.
fn is_serial_character(byte: u8) -> bool
    ensures { result ≡ image.is_serial_character byte }
{
    byte.is_ascii_uppercase() || byte.is_ascii_digit()
}

/// Returns whether all bytes are blanks.
fn are_blanks(bytes: &[u8]) -> bool
    ensures { result ≡ list_all (λ b. b == 32) bytes.now }
{
    bytes.iter().all(|b| *b == b' ')
}

/// Returns whether the bytes are characters of a serial number, and then only blanks.
fn is_padded(bytes: &[u8]) -> bool
    ensures { result ≡ image.is_padded bytes.now }
{
    for i in 0..bytes.len() {
        let byte = bytes[i];
        if byte == b' ' {
            return are_blanks(&bytes[i + 1..]);
        }
        if !is_serial_character(byte) {
            return false;
        }
    }
    true
}

/// Returns whether the bytes are a serial number of at least one character, and then only blanks.
fn is_volser(bytes: &[u8]) -> bool
    ensures { result ≡ image.is_volser bytes.now }
{
    match bytes.first() {
        Some(first) => is_serial_character(*first) && is_padded(&bytes[1..]),
        None => false,
    }
}

/// Returns the header that 12 bytes are, or `None` if they are no valid one.
fn header_of(bytes: &[u8]) -> Option<Header>
    requires { 12 ≤ length bytes.now }
    ensures some { IfSome result
        (λ header. IsHeader (take 12 bytes.now) header.version header.volser header.cylinders) }
    ensures none { IfNone result (HasNoHeader bytes.now) }
{
    let version = version_of(&bytes[..4])?;
    let cylinders = BigEndian::read_u16(&bytes[10..12]);
    if !is_volser(&bytes[4..10]) || cylinders == 0 || cylinders > most_cylinders(version) {
        return None;
    }
    let volser = [bytes[4], bytes[5], bytes[6], bytes[7], bytes[8], bytes[9]];
    Some(Header {
        version,
        volser,
        cylinders,
    })
}

/// Returns the header in the first 12 bytes, or the error if they are too few or no valid one.
///
/// # Errors
///
/// `Truncated` if there are fewer than 12 bytes, or `BadMagic` if they are no header.
pub fn read_header(bytes: &[u8]) -> Result<Header, ImageError>
    ensures there { IsOk result → 12 ≤ length bytes.now }
    ensures ok { IfOk result
        (λ header. IsHeader (take 12 bytes.now) header.version header.volser header.cylinders) }
    ensures err { IfErr result (IsHeaderFault bytes.now) }
{
    if bytes.len() < HEADER_LENGTH {
        return Err(ImageError::Truncated);
    }
    match header_of(bytes) {
        Some(header) => Ok(header),
        None => Err(ImageError::BadMagic),
    }
}
