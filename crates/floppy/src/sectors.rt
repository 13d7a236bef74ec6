// The sectors of an RX01: 26 of 128 bytes on each track, interleaved and skewed.
ghost use Rattle.std.specs.Prelude.{◌≡◌, ◌<◌};
ghost use Rattle.floppy.specs.Floppies.{interleave, sector};
ghost use Rattle.floppy.specs.Buffers.{Copied};

// The interleave: every second sector of the track, then those between.
fn interleaved(p: u32) -> u32
    requires { p < 26 }
    ensures { result ≡ interleave p }
{
    if p < 13 { 2 * p } else { 2 * p + 1 }
}

// Where sector l of the floppy lies, counted in sectors from the start of track 0. The floppy starts on track 1, and each track
// is skewed by 6 sectors against the one before.
pub(crate) fn sector_at(l: u32) -> u32
    requires { l < 1976 }
    ensures place { result ≡ sector l }
    ensures below { result < 2002 }
{
    let tracks = l / 26;
    26 * (tracks + 1) + (interleaved(l % 26) + 6 * tracks) % 26
}

// Copies sector i of one block to sector j of the other.
pub(crate) fn copy_sector(from: &[u8; 512], i: u32, to: &mut [u8; 512], j: u32)
    requires { (i < 4) × (j < 4) }
    ensures { Copied from.now i to.old j to.new }
{
    let taken = 128 * i as usize;
    let put = 128 * j as usize;
    to[put..put + 128].copy_from_slice(&from[taken..taken + 128]);
}
