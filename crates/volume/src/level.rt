// The level that a device shows.
ghost use Rattle.std.specs.Prelude.{◌≡◌};
ghost use Rattle.device.specs.Held.{shows};
ghost use Rattle.volume.specs.Levels.{level_size, segments_fit};

use device::Device;

// The blocks of a level: as many as the device shows, up to 65,535.
pub fn level_size<D: Device>(d: &D) -> u16
    ensures { result ≡ level_size (shows (D.Device.held d.now)) }
{
    d.size().min(65_535) as u16
}

// Whether a directory of so many segments fits a level: from 1 to 31, with a block behind them.
pub fn segments_fit(total: u16, blocks: u16) -> bool
    ensures { result ≡ segments_fit total blocks }
{
    (1..=31).contains(&total) && 7 + 2 * total <= blocks
}
