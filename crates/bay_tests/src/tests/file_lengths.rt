// Files of other lengths than an image's, and a file that can't be synced.
use super::bay_calls::reads;
use fixtures::{folder_of_image, same};
use std::fs;
use std::os::unix::fs::symlink;
use std::process::id;
use std::test::Fail;
use wol_bay::{Bay, BayFault, FileBay};

#[test]
fn a_file_of_another_length_is_no_image(rt: HostRuntime) -> Result<(), Fail> {
    let alloc = rt.alloc();
    let (folder, file) = folder_of_image(&rt, "wol_lengths", id(rt.process()))?;
    let mut bay = FileBay::new(rt, alloc, folder.as_str());
    for bytes in [0, 511, 1000, 1024, 1536, 2047, 2049, 4096] {
        let content = vec![in alloc; 7u8; bytes]?;
        fs::write(&rt, file.as_str(), content.as_slice())?;
        let wrong = BayFault::WrongLength {
            bytes: bytes as u64,
        };
        reads(&mut bay, "usr0", &[4], Err(wrong))?;
        reads(&mut bay, "usr0", &[1, 3], Err(wrong))?;
    }
    let content = vec![in alloc; 7u8; 2048]?;
    fs::write(&rt, file.as_str(), content.as_slice())?;
    reads(&mut bay, "usr0", &[1, 3], Ok(Ok((7, 7, 7))))?;
    fs::remove_dir_all(&rt, folder.as_str())?;
    Ok(())
}

// A file of the system's own takes an image without blocks, and can't be synced.
#[test]
fn what_cannot_be_synced_does_not_go_out(rt: HostRuntime) -> Result<(), Fail> {
    let alloc = rt.alloc();
    let (folder, file) = folder_of_image(&rt, "wol_syncs", id(rt.process()))?;
    symlink(&rt, "/proc/self/comm", file.as_str())?;
    let mut bay = FileBay::new(rt, alloc, folder.as_str());
    reads(&mut bay, "usr0", &[0], Err(BayFault::Failed))?;
    fs::remove_dir_all(&rt, folder.as_str())?;
    Ok(())
}
