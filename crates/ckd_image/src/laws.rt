//! Laws of reading and writing, as functions that promise them.
ghost use Rattle.ckd_image.specs.Reading.{OneReading, ReadsBack};

/// Proves that bytes are read as one volume or have one first fault; it has no effect.
///
/// So [`read_image`](crate::read_image) reads each image, and says each fault.
pub fn one_reading()
    ensures { OneReading }
{}

/// Proves that an image that is written is read back as the same volume; it has no effect.
///
/// What is read can also be written and read again.
pub fn reads_back()
    ensures { ReadsBack }
{}
