// Bays of one folder.
use super::bay_calls::{reads, writes};
use fixtures::{folder_of_image, same};
use std::fs;
use std::process::id;
use std::test::Fail;
use wol_bay::{Bay, BayFault, FileBay};

// An image of four blocks, the first three of which hold sevens, goes out in parts.
fn goes_out(bay: &mut FileBay<'_>) -> Result<(), Fail> {
    reads(bay, "usr0", &[4], Ok(Ok((7, 7, 7))))?;
    reads(bay, "usr0", &[1, 3], Ok(Ok((7, 7, 0))))?;
    reads(bay, "web0", &[4], Err(BayFault::Absent))?;
    let wrong = BayFault::WrongLength { bytes: 2048 };
    reads(bay, "usr0", &[4, 1], Err(wrong))
}

// It goes to one of the bays at a time, and is made anew.
fn goes_out_once(one: &mut FileBay<'_>, two: &mut FileBay<'_>) -> Result<(), Fail> {
    let parts = one.attach("usr0", &[1, 3])?;
    reads(two, "usr0", &[4], Err(BayFault::Failed))?;
    one.detach("usr0", parts);
    reads(two, "usr0", &[4], Ok(Ok((7, 7, 7))))?;
    let parts = one.create("usr0", &[2, 2])?;
    same(&parts.len(), &2)?;
    writes(two, "usr0", 8, Err(BayFault::Failed))?;
    drop(parts);
    reads(two, "usr0", &[4], Ok(Ok((0, 0, 0))))
}

#[test]
fn a_file_holds_its_image_and_goes_out_once_at_a_time(rt: HostRuntime) -> Result<(), Fail> {
    let alloc = rt.alloc();
    let (folder, file) = folder_of_image(&rt, "wol_bay", id(rt.process()))?;
    let mut one = FileBay::new(rt, alloc, folder.as_str());
    let mut two = FileBay::new(rt, alloc, folder.as_str());
    writes(&mut one, "usr0", 7, Ok(Ok(())))?;
    let bytes = fs::read(&rt, file.as_str())?;
    same(&bytes.len(), &2048)?;
    same(&bytes.get(1535), &Some(&7))?;
    same(&bytes.get(1536), &Some(&0))?;
    goes_out(&mut one)?;
    goes_out_once(&mut one, &mut two)?;
    fs::remove_dir_all(&rt, folder.as_str())?;
    Ok(())
}
