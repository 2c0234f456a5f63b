//! Images that are written in place of the files that are there.
use ckd_image::{ImageError, image};
use ckd_volume::Volume;
use s370_num::host::{Counted, HostFault, read_all};
use std::fs;
use std::fs::{File, OpenFile, OpenOptions};
use std::io::Write;
use std::rt::Files;

/// What is reported where the host makes, opens or renames no file: its first failure.
const FAILED: ImageError = ImageError::Device(1);

/// Writes the image of a volume to the file to which a path leads, in place of what is there.
///
/// It is written to a new file next to that one, with its permissions, which is renamed when it is
/// whole. So whatever fails, either image is there, and none that is half written. If no file can be
/// made next to it, the one that is there is written over, and where that fails it is written back.
/// All bytes of the image are there before a file is touched.
pub(crate) fn save_image_at<R: AllocGlobal + Files>(
    rt: &R,
    volume: &Volume,
    path: &str,
) -> Result<(), ImageError> {
    let place = place_of(rt, path)?;
    let Ok(bytes) = image(rt.alloc(), volume) else {
        return Err(ImageError::Memory);
    };
    let Ok(new) = format!(in rt.alloc(); "{place}.new") else {
        return Err(ImageError::Memory);
    };
    let Ok(old) = OpenOptions::new()
        .write(true)
        .create(true)
        .open(rt, place.as_str())
    else {
        return Err(FAILED);
    };
    match File::create_new(rt, new.as_str()) {
        Ok(file) => {
            keep_permissions(&old, &file);
            replace(rt, &bytes, file, &new, &place)
        }
        Err(_) => write_over(rt, &bytes, &place),
    }
}

/// Returns the path of the file to which a path leads by links; the path itself if that is not
/// found.
fn place_of<R: AllocGlobal + Files>(rt: &R, path: &str) -> Result<String, ImageError> {
    match fs::canonicalize(rt, path) {
        Ok(place) => Ok(place.into_string()),
        Err(_) => match String::from_str(rt.alloc(), path) {
            Ok(place) => Ok(place),
            Err(_) => Err(ImageError::Memory),
        },
    }
}

/// Gives the new file the permissions of the old one, if the host allows it.
fn keep_permissions<F: OpenFile>(old: &F, new: &F) {
    if let Ok(metadata) = old.metadata() {
        let _ = new.set_permissions(metadata.permissions());
    }
}

/// Writes an image to a new file, and renames that to `place` when it is whole; removes it if
/// either fails.
fn replace<R: AllocGlobal + Files>(
    rt: &R,
    bytes: &[u8],
    file: R::File,
    new: &str,
    place: &str,
) -> Result<(), ImageError> {
    let replaced = match write_whole(file, bytes) {
        Ok(()) => fs::rename(rt, new, place).map_err(|_| FAILED),
        Err(error) => Err(error),
    };
    if replaced.is_err() {
        let _ = fs::remove_file(rt, new);
    }
    replaced
}

/// Writes an image over the file at a place; if that fails, writes back what was there.
///
/// What is there is read before: so a host that fails once leaves either image whole.
fn write_over<R: AllocGlobal + Files>(rt: &R, bytes: &[u8], place: &str) -> Result<(), ImageError> {
    let Ok(file) = fs::open(rt, place) else {
        return Err(FAILED);
    };
    let old = match read_all(rt.alloc(), &mut Counted::new(file)) {
        Ok(old) => old,
        Err(HostFault::Memory) => return Err(ImageError::Memory),
        Err(HostFault::Device(_)) => return Err(FAILED),
    };
    let written = write_at(rt, bytes, place);
    if written.is_err() {
        let _ = write_at(rt, &old, place);
    }
    written
}

/// Writes these bytes over the file at a place, which has no others then; a file has to be there.
fn write_at<R: AllocGlobal + Files>(rt: &R, bytes: &[u8], place: &str) -> Result<(), ImageError> {
    match OpenOptions::new().write(true).open(rt, place) {
        Ok(file) => write_whole(file, bytes),
        Err(_) => Err(FAILED),
    }
}

/// Writes these bytes from the beginning of a file, which has no others then, and waits until the
/// host has all of them on its disk.
fn write_whole<F: Write + OpenFile + Drop>(mut file: F, bytes: &[u8]) -> Result<(), ImageError> {
    let written = match file.write_all(bytes) {
        Ok(()) => file.set_len(bytes.len() as u64),
        Err(error) => Err(error),
    };
    match written {
        Ok(()) => file.sync_all().map_err(|_| FAILED),
        Err(_) => Err(FAILED),
    }
}
