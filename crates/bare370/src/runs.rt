//! What the program does with its files: it reads images, makes the machine of their volumes, plays
//! or follows a script, and saves the images.
ghost use Rattle.std.specs.Prelude.{◌≡◌, ◌≤◌, [], IfErr, IfOk, OnOk, map};
ghost use Rattle.bare370.specs.Runs.{IsFailedMachineFollowing, IsFailedMachineRun};
ghost use Rattle.bare370.specs.Runs.{IsMachineFollowing, IsMachineOf, IsMachineRun, IsMade};
ghost use Rattle.bare370.specs.Runs.{IsNoMachine, IsUnmade, attach_failure, blocks_of};
ghost use Rattle.bare370.specs.Runs.{machine_volumes};

use crate::arguments::BareOptions;
use crate::follow_arguments::MachineFollowOptions;
use crate::installation::{OneMachine, machine_of};
use ckd_volume::Volume;
use cp_directory::StorageSize;
use machine_devices::AttachError;
use program_host::ProgramHost;
use programs::{
    Failure, HasVolumes, detail_of, follow_files, read_images, run_script, saved_paths,
};
use s370_num::host::{HostReader, HostWriter};
use std::alloc::Global;

impl HasVolumes for OneMachine {
    ghost volumes = { machine_volumes };

    /// Returns the volume of the disk of this index, if there is one.
    fn volume(&self, index: usize) -> Option<&Volume> {
        match self.machine().disks().get(index) {
            Some(disk) => Some(disk.unit().volume()),
            None => None,
        }
    }
}

/// Makes the machine that these options name, plays the script and writes its transcript, and saves
/// the images of the volumes if the options ask for that.
///
/// # Errors
///
/// A `Failure`: of a file, a text, an image or the boot, or refused memory.
pub fn run_files<H: ProgramHost, W: HostWriter>(
    alloc: Global,
    host: &mut H,
    options: &BareOptions<'_>,
    writer: &mut W,
) -> Result<(), Failure>
    ensures ok { OnOk result
        (IsMachineRun H.gives H.File.remaining options.now (H.deeds host.old) (H.deeds host.new)
        (W.contents writer.old) (W.contents writer.new)) }
    ensures flushed { OnOk result (W.held writer.new ≡ []) }
    ensures err { IfErr result
        (IsFailedMachineRun H.gives H.File.remaining H.File.HostFile.failures options.now
        (H.deeds host.old) (H.deeds host.new) (W.contents writer.old) (W.contents writer.new)
        (W.HostFile.failures writer.old) (W.HostFile.failures writer.new)) }
{
    let volumes = options.volumes.as_slice();
    let saved = saved_paths(options.save, volumes);
    let mut machine = read_machine(alloc, host, options.storage, volumes)?;
    run_script(alloc, host, &mut machine, options.script, saved, writer)
}

/// Makes the machine that these options name, follows the parts of a script that an input has and
/// writes the answer to each, and saves the images of the volumes if asked to.
///
/// They are saved if the options ask for that and the input asked for its end.
///
/// # Errors
///
/// A `Failure`: of a file, a text, an image or the boot, or refused memory.
pub fn follow_machine<H: ProgramHost, R: HostReader, W: HostWriter>(
    alloc: Global,
    host: &mut H,
    options: &MachineFollowOptions<'_>,
    reader: &mut R,
    writer: &mut W,
) -> Result<(), Failure>
    ensures ok { OnOk result
        (IsMachineFollowing H.gives H.File.remaining options.now (H.deeds host.old)
        (H.deeds host.new) (R.remaining reader.old) (R.remaining reader.new)
        (W.contents writer.old) (W.contents writer.new)) }
    ensures flushed { OnOk result (W.held writer.new ≡ []) }
    ensures err { IfErr result
        (IsFailedMachineFollowing H.gives H.File.remaining H.File.HostFile.failures options.now
        (H.deeds host.old) (H.deeds host.new) (R.remaining reader.old) (R.remaining reader.new)
        (W.contents writer.old) (W.contents writer.new)
        (record {
          reader_old = R.HostFile.failures reader.old;
          reader_new = R.HostFile.failures reader.new;
          writer_old = W.HostFile.failures writer.old;
          writer_new = W.HostFile.failures writer.new;
        })) }
{
    let volumes = options.volumes.as_slice();
    let saved = saved_paths(options.save, volumes);
    let machine = read_machine(alloc, host, options.storage, volumes)?;
    follow_files(
        alloc,
        host,
        machine,
        detail_of(options.terminals),
        saved,
        reader,
        writer,
    )
}

/// Reads the images at these paths, and returns a machine that is off, with storage of this size
/// and a disk over each volume.
///
/// # Errors
///
/// A `Failure`: of a file, a text, an image or the boot, or refused memory.
pub fn read_machine<H: ProgramHost>(
    alloc: Global,
    host: &mut H,
    storage: StorageSize,
    volumes: &[&str],
) -> Result<OneMachine, Failure>
    ensures ok { IfOk result
        (IsMachineOf H.gives H.File.remaining (map (λ path. path.now) volumes.now)
        (blocks_of storage) (H.deeds host.old) (H.deeds host.new)) }
    ensures err { IfErr result
        (IsNoMachine H.gives H.File.remaining H.File.HostFile.failures
        (map (λ path. path.now) volumes.now) (H.deeds host.old) (H.deeds host.new)) }
{
    let volumes = read_images(alloc, host, volumes)?;
    made(alloc, storage.blocks(), volumes)
}

/// Returns a machine that is off, with this many blocks of storage and a disk over each of these
/// volumes.
fn made(alloc: Global, blocks: u32, volumes: Vec<Volume>) -> Result<OneMachine, Failure>
    requires least { 4 ≤ blocks }
    requires most { blocks ≤ 2048 }
    ensures ok { IfOk result (IsMade blocks volumes.items) }
    ensures err { IfErr result (IsUnmade volumes.items) }
{
    match machine_of(alloc, blocks, volumes) {
        Ok(machine) => Ok(machine),
        Err(error) => Err(unattached(error)),
    }
}

/// Returns the failure of a program for an error of attaching disks: too many of them are a usage
/// error.
fn unattached(error: AttachError) -> Failure
    ensures { result ≡ attach_failure error }
{
    match error {
        AttachError::Memory => Failure::Memory,
        // More volumes than a machine has disks, which are words that are not the program's.
        AttachError::Address => Failure::Usage,
    }
}
