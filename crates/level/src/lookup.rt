// Files of a level.
ghost use Rattle.std.specs.Prelude.{◌≡◌, ℕ, ◌≤◌, length, IfOk};
ghost use Rattle.device.specs.Held.{shows};
ghost use Rattle.level.specs.Lookups.{lookup_answer, read_fetched, read_answer, read_buffer};

use crate::check::check;
use crate::load::{WORKSPACE, directory_of};
use codec::name::Name;
use device::Device;
use directory::pending::Pending;
use directory::sound::Sound;
use volume::fault::FileFault;

// LOOKUP: where the file of a name starts, how many blocks it has, and its date word. A rule of the project: a tuple of three.
pub fn lookup<D: Device>(
    d: &D,
    work: &mut [u8],
    output: Option<Pending>,
    name: &[u8; 9],
) -> Result<(u32, u16, u16), FileFault>
    ensures answer { result ≡ lookup_answer (length work.old) (shows (D.Device.held d.now)) output name.now }
    ensures start { IfOk result (λ f. f.0 ≤ 200000000) }
{
    if work.len() < WORKSPACE {
        return Err(FileFault::WorkspaceTooSmall);
    }
    let name = Name::from_bytes(name)?;
    let total = check(d, work, output)?;
    let directory = Sound::new(directory_of(work, total));
    let Some(file) = directory.find_file(name) else {
        return Err(FileFault::NoSuchFile);
    };
    Ok((file.start, file.length, file.date))
}

// READ: one block of a file.
pub fn read_file<D: Device>(
    d: &D,
    work: &mut [u8],
    output: Option<Pending>,
    name: &[u8; 9],
    block: u16,
    into: &mut [u8; 512],
) -> Result<(), FileFault>
    ensures answer { result ≡ read_answer (read_fetched (length work.old) (shows (D.Device.held d.now)) output name.now block) }
    ensures buffer { into.new ≡ read_buffer (read_fetched (length work.old) (shows (D.Device.held d.now)) output name.now block) into.old }
{
    let (start, blocks, _) = lookup(d, work, output, name)?;
    if block >= blocks {
        return Err(FileFault::OutOfRange);
    }
    d.read(start + block as u32, into)?;
    Ok(())
}
