// The listing of a level.
ghost use Rattle.std.specs.Prelude.{◌≡◌, ◌≤◌, length, IfOk, None};
ghost use Rattle.device.specs.Held.{shows};
ghost use Rattle.files.specs.Directories.{level_listing, directory_answer, directory_after};

use device::Device;
use directory::sound::Sound;
use level::check::check;
use level::load::directory_of;
use listing::write::write_listing;
use volume::fault::FileFault;

// DIRECTORY: the listing of a level, and its length.
pub(crate) fn list_level<D: Device>(
    d: &D,
    work: &mut [u8],
    listing: &mut [u8],
) -> Result<usize, FileFault>
    ensures answer { result ≡ directory_answer (level_listing (length work.old) (shows (D.Device.held d.now)) None) (length listing.old) }
    ensures listing { listing.new ≡ directory_after (level_listing (length work.old) (shows (D.Device.held d.now)) None) listing.old }
    ensures fits { IfOk result (λ n. n ≤ length listing.new) }
{
    let total = check(d, work, None)?;
    let directory = Sound::new(directory_of(work, total));
    let chain = directory.chain();
    write_listing(directory.entries(&chain), listing).ok_or(FileFault::ListingTooSmall)
}
