// An image goes out and comes back, while no other is out.
ghost use Rattle.bay_tests.specs.Home.{AreAllHome};
ghost use Rattle.std.specs.Prelude.{◌≡◌, ◌≤◌, OnOk, IsTrue};
ghost use Rattle.wol_bay.specs.Bay.{Holds};

use fixtures::same_at;
use std::test::Fail;
use wol_bay::{Bay, BayFault};
use wol_disk::{Block, Disk, Failed};

// Writes bytes to the first three blocks.
fn write_blocks<D: Disk>(disk: &mut D, byte: u8) -> Result<(), Failed>
    requires { 3 ≤ (D.state disk.old).size }
    ensures { (D.state disk.new).size ≡ (D.state disk.old).size }
{
    disk.write(0, &[[byte; 512]; 3])?;
    disk.sync()
}

// The first bytes of the first three blocks, of a disk that has as many.
fn first_bytes<D: Disk>(disk: &mut D) -> Result<(u8, u8, u8), Failed>
    ensures { (D.state disk.new).size ≡ (D.state disk.old).size }
{
    if disk.blocks() < 3 {
        return Err(Failed);
    }
    let mut out: [Block; 3] = [[0xff; 512]; 3];
    disk.read(0, &mut out)?;
    Ok((out[0][0], out[1][0], out[2][0]))
}

/// Makes an image of four blocks, writes to it, and puts it back. It answers how the disk fared.
pub(crate) fn write_image<B: Bay>(
    bay: &mut B,
    name: &str,
    byte: u8,
) -> Result<Result<(), Failed>, BayFault>
    requires { AreAllHome (B.state bay.old) }
    ensures home { AreAllHome (B.state bay.new) }
    ensures there { OnOk result (IsTrue B.Part.tells → Holds name.now (B.state bay.new)) }
{
    let mut parts = bay.create(name, &[4])?;
    let Some(mut part) = parts.pop() else {
        unreachable!()
    };
    let done = write_blocks(&mut part, byte);
    parts.push(part).unwrap();
    bay.detach(name, parts);
    Ok(done)
}

/// Takes an image out in parts of these sizes, reads the last one, and puts them back. It answers how the disk fared.
pub(crate) fn read_image<B: Bay>(
    bay: &mut B,
    name: &str,
    sizes: &[u64],
) -> Result<Result<(u8, u8, u8), Failed>, BayFault>
    requires { AreAllHome (B.state bay.old) }
    ensures home { AreAllHome (B.state bay.new) }
    ensures there { OnOk result (IsTrue B.Part.tells → Holds name.now (B.state bay.new)) }
{
    let mut parts = bay.attach(name, sizes)?;
    let Some(mut part) = parts.pop() else {
        bay.detach(name, parts);
        return Ok(Err(Failed));
    };
    let read = first_bytes(&mut part);
    parts.push(part).unwrap();
    bay.detach(name, parts);
    Ok(read)
}

/// An image is to be made so.
pub(crate) fn writes<B: Bay>(
    bay: &mut B,
    name: &str,
    byte: u8,
    want: Result<Result<(), Failed>, BayFault>,
) -> Result<(), Fail>
    requires { AreAllHome (B.state bay.old) }
    ensures { AreAllHome (B.state bay.new) }
{
    let found = write_image(bay, name, byte);
    same_at(&found, &want, &format_args!("{name} with {byte}"))
}

/// An image is to go out in parts of these sizes, or not to, and to have these bytes.
pub(crate) fn reads<B: Bay>(
    bay: &mut B,
    name: &str,
    sizes: &[u64],
    want: Result<Result<(u8, u8, u8), Failed>, BayFault>,
) -> Result<(), Fail>
    requires { AreAllHome (B.state bay.old) }
    ensures { AreAllHome (B.state bay.new) }
{
    let found = read_image(bay, name, sizes);
    same_at(
        &found,
        &want,
        &format_args!("{name} in {} parts", sizes.len()),
    )
}
