// What a field does to a pack.
ghost use Rattle.std.specs.Prelude.{◌≡◌};
ghost use Rattle.files.specs.States.{state_of};
ghost use Rattle.run.specs.Fields.{known, performed};
ghost use Rattle.runfile.specs.Faults.{result_number, result_detail};

use device::Device;
use files::pack::Pack;
use runfile::fault::FieldFault;
use runfile::field::{Field, decode};

// Whether a tag is that of a field that the packer has.
pub fn is_known(tag: u8) -> bool
    ensures { result ≡ known tag }
{
    tag == 1
}

// Does what a field with this tag and this body says. The last arm is for the fields that are not built yet.
pub fn perform<D: Device>(pack: &mut Pack<D>, tag: u8, body: &[u8]) -> Result<(), FieldFault>
    ensures answer { result ≡ (performed (state_of D.Device.held pack.old) tag body.now).answer }
    ensures state { state_of D.Device.held pack.new ≡ (performed (state_of D.Device.held pack.old) tag body.now).after }
    ensures fixed { D.Device.fixed pack.new.levels.below ≡ D.Device.fixed pack.old.levels.below }
{
    if !is_known(tag) {
        return Err(FieldFault::UnknownTag);
    }
    let field = decode(tag, body)?;
    match field {
        Field::Initialize(segments) => pack.initialize(segments)?,
        _ => return Err(FieldFault::UnknownTag),
    }
    Ok(())
}

// The number that a line shows for an answer: 0 where the field was accepted.
pub(crate) fn number_of(answer: Result<(), FieldFault>) -> u8
    ensures { result ≡ result_number answer }
{
    answer.err().map_or(0, |e| e.number())
}

// The detail that a line shows for an answer.
pub(crate) fn detail_of(answer: Result<(), FieldFault>) -> u32
    ensures { result ≡ result_detail answer }
{
    answer.err().map_or(0, |e| e.detail())
}
