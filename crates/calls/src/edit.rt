// DELETE on a directory in the workspace and its level.
ghost use Rattle.std.specs.Prelude.{◌≡◌, None};
ghost use Rattle.device.specs.Held.{shows};
ghost use Rattle.device.specs.Stacks.{Became};
ghost use Rattle.edits.specs.Values.{value_of};
ghost use Rattle.calls.specs.Loaded.{Loaded};
ghost use Rattle.calls.specs.Plans.{plan_answer, plan_blocks, delete_change};

use changes::rewrite::empty_at;
use codec::name::Name;
use device::Device;
use directory::sound::Sound;
use places::find::find_place;
use store::store_from;
use volume::fault::FileFault;

// The file of a name becomes empty. For our other crates: the caller has loaded the directory.
pub(crate) fn delete_in<D: Device>(d: &mut D, dir: &mut [u8], name: Name) -> Result<(), FileFault>
    requires { Loaded (shows (D.Device.held d.old)) None dir.old }
    ensures answer { result ≡ plan_answer (delete_change (value_of dir.old) name) }
    ensures after { Became (D.Device.held d.old).stack (plan_blocks (shows (D.Device.held d.old)) (delete_change (value_of dir.old) name)) (D.Device.held d.new).stack }
    ensures fixed { D.Device.fixed d.new ≡ D.Device.fixed d.old }
{
    let file = find_place(Sound::new(dir), name).ok_or(FileFault::NoSuchFile)?;
    if file.protected {
        return Err(FileFault::Protected);
    }
    empty_at(dir, file.entry.segment, file.entry.index);
    store_from(d, dir, file.entry.segment)?;
    Ok(())
}
