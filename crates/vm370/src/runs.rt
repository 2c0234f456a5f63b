//! What the program does with its files: it reads a directory and images, boots the system that
//! they state, plays or follows a script, and saves the images.
ghost use Rattle.std.specs.Prelude.{◌≡◌, [], ◌∷◌, IfErr, IfOk, OnOk, map};
ghost use Rattle.cp_core.specs.Boot.{IsBooted};
ghost use Rattle.program_host.specs.Deeds.{Adds, Opens};
ghost use Rattle.vm370.specs.Runs.{IsDirectoryAt, IsFailedSystemFollowing, IsFailedSystemRun};
ghost use Rattle.vm370.specs.Runs.{IsNoSystem, IsNotBooted, IsSystemFollowing, IsSystemOf};
ghost use Rattle.vm370.specs.Runs.{IsSystemRun, IsUnstated, system_volumes};

use crate::arguments::Options;
use crate::boot_faults::{boot_failure, names_of};
use crate::follow_arguments::SystemFollowOptions;
use crate::installation::SharedMachines;
use ckd_volume::Volume;
use cp_core::{Sizes, System};
use cp_directory::{Directory, read_directory};
use program_host::ProgramHost;
use programs::{
    Failure, HasVolumes, detail_of, follow_files, read_images, run_script, saved_paths,
};
use s370_num::host::{HostReader, HostWriter, read_all};
use std::alloc::Global;

impl HasVolumes for SharedMachines {
    ghost volumes = { system_volumes };

    /// Returns the volume of this index, if there is one.
    fn volume(&self, index: usize) -> Option<&Volume> {
        self.system().volume(index)
    }
}

/// Boots the system of the directory and the volumes that these options name, plays the script and
/// writes its transcript, and saves the images of the volumes if the options ask for that.
///
/// # Errors
///
/// A `Failure`: of a file, a text, an image or the boot, or refused memory.
pub fn run_files<H: ProgramHost, W: HostWriter>(
    alloc: Global,
    host: &mut H,
    options: &Options<'_>,
    writer: &mut W,
) -> Result<(), Failure>
    ensures ok { OnOk result
        (IsSystemRun H.gives H.File.remaining options.now (H.deeds host.old) (H.deeds host.new)
        (W.contents writer.old) (W.contents writer.new)) }
    ensures flushed { OnOk result (W.held writer.new ≡ []) }
    ensures err { IfErr result
        (IsFailedSystemRun H.gives H.File.remaining H.File.HostFile.failures options.now
        (H.deeds host.old) (H.deeds host.new) (W.contents writer.old) (W.contents writer.new)
        (W.HostFile.failures writer.old) (W.HostFile.failures writer.new)) }
{
    let volumes = options.volumes.as_slice();
    let saved = saved_paths(options.save, volumes);
    let mut machines = read_system(alloc, host, options.directory, volumes, options.sizes)?;
    run_script(alloc, host, &mut machines, options.script, saved, writer)
}

/// Boots the system that these options name, follows the parts of a script that an input has and
/// writes the answer to each, and saves the images of the volumes if asked to.
///
/// They are saved if the options ask for that and the input asked for its end.
///
/// # Errors
///
/// A `Failure`: of a file, a text, an image or the boot, or refused memory.
pub fn follow_system<H: ProgramHost, R: HostReader, W: HostWriter>(
    alloc: Global,
    host: &mut H,
    options: &SystemFollowOptions<'_>,
    reader: &mut R,
    writer: &mut W,
) -> Result<(), Failure>
    ensures ok { OnOk result
        (IsSystemFollowing H.gives H.File.remaining options.now (H.deeds host.old)
        (H.deeds host.new) (R.remaining reader.old) (R.remaining reader.new)
        (W.contents writer.old) (W.contents writer.new)) }
    ensures flushed { OnOk result (W.held writer.new ≡ []) }
    ensures err { IfErr result
        (IsFailedSystemFollowing H.gives H.File.remaining H.File.HostFile.failures options.now
        (H.deeds host.old) (H.deeds host.new) (R.remaining reader.old) (R.remaining reader.new)
        (W.contents writer.old) (W.contents writer.new)
        (record {
          reader_old = R.HostFile.failures reader.old;
          reader_new = R.HostFile.failures reader.new;
          writer_old = W.HostFile.failures writer.old;
          writer_new = W.HostFile.failures writer.new;
        })) }
{
    let volumes = options.volumes.as_slice();
    let saved = saved_paths(options.save, volumes);
    let machines = read_system(alloc, host, options.directory, volumes, options.sizes)?;
    follow_files(
        alloc,
        host,
        machines,
        detail_of(options.terminals),
        saved,
        reader,
        writer,
    )
}

/// Reads the directory at a path and then the images at these paths, boots the system that they
/// state, and returns its machines.
///
/// # Errors
///
/// A `Failure`: of a file, a text, an image or the boot, or refused memory.
pub fn read_system<H: ProgramHost>(
    alloc: Global,
    host: &mut H,
    directory: &str,
    volumes: &[&str],
    sizes: Sizes,
) -> Result<SharedMachines, Failure>
    ensures ok { IfOk result
        (IsSystemOf H.gives H.File.remaining directory.now (map (λ path. path.now) volumes.now)
        sizes (H.deeds host.old) (H.deeds host.new)) }
    ensures err { IfErr result
        (IsNoSystem H.gives H.File.remaining H.File.HostFile.failures directory.now
        (map (λ path. path.now) volumes.now) sizes (H.deeds host.old) (H.deeds host.new)) }
{
    let directory = read_users(alloc, host, directory)?;
    let volumes = read_images(alloc, host, volumes)?;
    boot(alloc, directory, volumes, sizes)
}

/// Reads the directory at a path.
fn read_users<H: ProgramHost>(alloc: Global, host: &mut H, path: &str) -> Result<Directory, Failure>
    ensures ok { IfOk result (IsDirectoryAt H.gives H.File.remaining path.now) }
    ensures deeds { OnOk result
        (Adds (H.deeds host.old) (H.deeds host.new) (Opens path.now ∷ [])) }
    ensures err { IfErr result
        (IsUnstated H.gives H.File.remaining H.File.HostFile.failures path.now
        (H.deeds host.old) (H.deeds host.new)) }
{
    let mut file = host.open(path)?;
    let text = read_all(alloc, &mut file)?;
    let directory = read_directory(alloc, &text)?;
    Ok(directory)
}

/// Boots a system of these sizes from a directory and volumes, and returns its machines.
fn boot(
    alloc: Global,
    directory: Directory,
    volumes: Vec<Volume>,
    sizes: Sizes,
) -> Result<SharedMachines, Failure>
    ensures ok { IfOk result (IsBooted directory volumes.items sizes.frames sizes.slots) }
    ensures err { IfErr result (IsNotBooted directory volumes.items sizes.frames) }
{
    let names = names_of(alloc, directory.users())?;
    match System::boot(alloc, directory, volumes, sizes) {
        Ok(system) => Ok(SharedMachines::new(system)),
        Err(error) => Err(boot_failure(alloc, names, error)),
    }
}
