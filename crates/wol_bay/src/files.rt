// Images in a folder, each in a file of its own.
ghost use Rattle.std.specs.Prelude.{◌≡◌, ◌≢◌, ◌+◌, ◌≤◌, [], None, OnOk, OnErr, IfOk, MatchBool, length, option_map, ◌<◌, ◌^◌, ◌*◌, IsErr};
ghost use Rattle.wol_bay.specs.Bay.{came_back};
ghost use Rattle.wol_bay.specs.Parts.{AreBlank, AreCut, blocks_of, faulty_places};
ghost use Rattle.wol_disk.specs.Disk.{Rose};

use crate::bays::Bay;
use crate::devices::make_zero;
use crate::fault::BayFault;
use crate::image_file::ImageFile;
use crate::kept_copies::drop_copies;
use crate::lengths::{BLOCK_BYTES, bytes_of_parts, is_length};
use std::alloc::Global;
use std::fs::{self, File, Metadata, OpenOptions, TryLockError};
use std::io::{self, ErrorKind, Seek, SeekFrom};
use std::os::unix::fs::{FileExt, FileTypeExt, MetadataExt, OpenOptionsExt};
use std::path::Path;
use std::sync::Arc;
use std::thread::sleep;
use std::time::Duration;
use wol_disk::{Block, Disk, Failed, NoMemory};

// How many syncs of an image may run at once.
const SYNCS: u64 = 4;

// The system's numbers for a process, and for a system, in which no more files can be open.
const TOO_MANY_OPEN: [i32; 2] = [24, 23];

// A lock that another process has is tried again so often in a second.
const TRIES: u64 = 50;

const TRY_MILLIS: u64 = 20;

// A device's lock is tried so often at least: others take it for a moment, as to see what is on the device that was just written.
const DEVICE_TRIES: u64 = 100;

/// A folder of images, which tells nothing of them. The image NAME is the file `NAME.vol`. The file is locked while
/// the image is out, so another bay that would hand out the same image fails. What goes out is what the disk has, also
/// where a sync of an earlier run failed. An image is made only where no other entry of the folder is the same file, as by
/// a link, and its file is made for its owner alone. No call makes or writes a file beyond a bound on its bytes: such a
/// call has failed, and the system, which might end the process for it, isn't asked.
///
/// The file may be a block device, which is as long as the image or longer; what lies behind the image stays. `create`
/// refuses a device that is no image yet and has something in its first MiB. Locks are of the node: a device has one.
///
/// A bay that is for reading also hands out an image that may only be read: each write to it has failed. What goes out
/// then is what the system keeps of it, since only who may write has that dropped.
#[derive(Drop)]
pub struct FileBay<'a> {
    rt: HostRuntime,
    alloc: Global,
    folder: &'a str,
    most_bytes: u64,
    // how many more times a lock that another process has is tried again
    tries: u64,
    // whether what may only be read goes out too
    is_for_reading: bool,
    // whether an image is made only where nothing has its name
    only_new: bool,
    faults: u64,
}

/// A part of an image in a file. The parts of an image share its open file, whose lock ends with the last of them. A part
/// has nothing to sync where a sync by another part came behind its last write. Once a sync has failed all later ones of the
/// file fail, since the system tells a failed sync once and may have lost what any part wrote.
#[derive(Drop)]
pub struct FilePart {
    image: Arc<ImageFile, Global>,
    // the number of the last write of this part
    last_write: u64,
    first: u64,
    blocks: u64,
    most_bytes: u64,
    faults: u64,
    ghost small: { blocks < 2 ^ 64 },
}

impl<'a> FileBay<'a> {
    ghost use Rattle.wol_bay.specs.Bay.{BayState};
    ghost use Rattle.wol_bay.specs.FileBay.{file_bay_state};

    /// The bay of this folder, without a bound on files. It waits for no lock, and hands out what may be written alone.
    pub fn new(rt: HostRuntime, alloc: Global, folder: &'a str) -> FileBay<'a>
        ensures { file_bay_state result ≡ record { told = None; faults = 0 } }
    {
        FileBay {
            rt,
            alloc,
            folder,
            most_bytes: u64::MAX,
            tries: 0,
            is_for_reading: false,
            only_new: false,
            faults: 0,
        }
    }

    /// The same bay, none of whose calls makes a file longer than so many bytes.
    pub fn within(self, most_bytes: u64) -> FileBay<'a>
        ensures { file_bay_state result ≡ file_bay_state self.entry }
    {
        FileBay { most_bytes, ..self }
    }

    /// The same bay, whose calls together wait for so many seconds, and hardly longer, for locks that others have.
    pub fn waiting(self, seconds: u64) -> FileBay<'a>
        ensures { file_bay_state result ≡ file_bay_state self.entry }
    {
        let tries = seconds.saturating_mul(TRIES);
        FileBay { tries, ..self }
    }

    /// The same bay, which also hands out images that may only be read, where that is wanted.
    pub fn for_reading(self, is_for_reading: bool) -> FileBay<'a>
        ensures { file_bay_state result ≡ file_bay_state self.entry }
    {
        FileBay {
            is_for_reading,
            ..self
        }
    }

    /// The same bay, which makes an image only where nothing has its name, where that is wanted: what another process has made
    /// meanwhile stays.
    pub fn making_new(self, only_new: bool) -> FileBay<'a>
        ensures { file_bay_state result ≡ file_bay_state self.entry }
    {
        FileBay { only_new, ..self }
    }

    fn path_of(&self, name: &str) -> Result<String, NoMemory> {
        let folder = self.folder;
        Ok(format!(in self.alloc; "{folder}/{name}.vol")?)
    }

    // Locks a new image's file, and waits for that as long as the bay still may.
    fn lock(&mut self, file: &File) -> io::Result<()>
        ensures { self.new.faults ≡ self.old.faults }
    {
        let (done, left) = lock_within(&self.rt, file, self.tries);
        self.tries = left;
        done
    }

    // The file at the path, made for its owner alone where nothing is there. A link that leads nowhere makes none.
    fn made(&self, path: &str) -> io::Result<File> {
        let new = OpenOptions::new()
            .read(true)
            .write(true)
            .create_new(true)
            .mode(0o600)
            .open(&self.rt, path);
        match new {
            Err(e) if e.kind() == ErrorKind::AlreadyExists && !self.only_new => OpenOptions::new()
                .read(true)
                .write(true)
                .open(&self.rt, path),
            new => new,
        }
    }

    // Makes the file anew, of so many zero bytes. It is emptied only once it is locked, since another bay may have
    // it out, and is known to be no other entry of the folder. Its entry in the folder is synced with it.
    fn make(&mut self, name: &str, path: &str, bytes: u64) -> io::Result<ImageFile>
        ensures { self.new.faults ≡ self.old.faults }
    {
        if bytes > self.most_bytes {
            return Err(io::Error::from(ErrorKind::FileTooLarge));
        }
        let mut file = self.made(path)?;
        self.lock(&file)?;
        let found = file.metadata()?;
        if self.has_another(name, path, &found)? {
            return Err(io::Error::from(ErrorKind::AlreadyExists));
        }
        if found.file_type().is_block_device() {
            make_zero(&self.rt, self.alloc, &mut file, bytes)?;
        } else {
            file.set_len(0)?;
            file.set_len(bytes)?;
            file.sync_all()?;
        }
        File::open(&self.rt, self.folder)?.sync_all()?;
        self.image_of(path, file)
    }

    // Whether the folder has this file under another name too, or it has one elsewhere. An entry whose name is no text
    // isn't looked at: no link to it is followed, and another name of the file is counted.
    fn has_another(&self, name: &str, path: &str, file: &Metadata) -> io::Result<bool> {
        let rt = (&self.rt, self.alloc);
        // Links that lead in a circle, or whose target is gone by now, are an error here: `is_same` takes such for no file.
        fs::canonicalize(&rt, path)?;
        if file.nlink() != 1 {
            return Ok(true);
        }
        for entry in fs::read_dir(&rt, self.folder)? {
            let entry = match entry {
                Ok(entry) => entry,
                Err(e) if e.kind() == ErrorKind::InvalidFilename => continue,
                Err(e) => return Err(e),
            };
            let is_own = entry.file_name().strip_suffix(".vol") == Some(name);
            if !is_own && self.is_same(entry.path(), file) {
                return Ok(true);
            }
        }
        Ok(false)
    }

    // Whether this file is at the end of the path. A link that leads nowhere leads to no file.
    fn is_same(&self, path: Path<'_>, file: &Metadata) -> bool {
        match fs::metadata(&self.rt, path) {
            Ok(found) => {
                is_one_file(&found, file)
                    || found.file_type().is_block_device()
                        && file.file_type().is_block_device()
                        && found.rdev() == file.rdev()
            }
            Err(_) => false,
        }
    }

    // Opens the file and locks it, and waits for that as long as the bay still may. `None` is std's answer that there is no
    // such file.
    fn open(&mut self, path: &str) -> io::Result<Option<Found>>
        ensures { self.new.faults ≡ self.old.faults }
    {
        let is_device = is_device(&self.rt, path);
        let tries = if is_device {
            self.tries.max(DEVICE_TRIES)
        } else {
            self.tries
        };
        let (opened, left) = open_within(&self.rt, path, is_device, self.is_for_reading, tries);
        self.tries = self.tries.min(left);
        match opened? {
            Some((file, is_writable)) => Ok(Some(Found::new(file, is_writable)?)),
            None => Ok(None),
        }
    }

    // Opens once more, for syncs, the file that is open from this path.
    fn open_again(&self, path: &str, file: &Metadata) -> io::Result<File> {
        let (again, _) = open_either(&self.rt, path, self.is_for_reading)?;
        let found = again.metadata()?;
        if is_one_file(&found, file) {
            Ok(again)
        } else {
            Err(io::Error::from(ErrorKind::NotFound))
        }
    }

    // The open file with other openings of it for its syncs, fewer where no more files can be open.
    fn image_of(&self, path: &str, file: File) -> io::Result<ImageFile> {
        let found = file.metadata()?;
        let mut others = Vec::new(self.alloc);
        for _ in 0..SYNCS {
            match self.open_again(path, &found) {
                Ok(again) => others.push(again)?,
                Err(e) if are_too_many_open(&e) && !others.is_empty() => break,
                Err(e) => return Err(e),
            }
        }
        match ImageFile::new(self.rt, self.alloc, file, others) {
            Ok(image) => Ok(image),
            Err(_) => Err(io::Error::from(ErrorKind::OutOfMemory)),
        }
    }

    // The same of an image that is there, of which the system keeps no copies then. Those of a device it drops itself,
    // when the last that had it open closes it. What is opened again behind that is compared with the locked file, so the copies
    // that were dropped are those of this file; and the files that are open for that moment aren't missing for syncs.
    fn image_of_disk(&self, path: &str, found: Found) -> io::Result<ImageFile> {
        if found.is_writable && !found.is_device {
            match drop_copies(&self.rt, path) {
                // nothing can be made beside it, so it is read as what may only be read
                Err(e) if self.is_for_reading && may_not_be_written(&e) => (),
                dropped => dropped?,
            }
        }
        self.image_of(path, found.file)
    }

    fn failed(&mut self) -> BayFault
        ensures fault { result ≡ BayFault.Failed }
        ensures counts { self.old.faults ≤ self.new.faults }
        ensures rose { Rose self.old.faults self.new.faults }
    {
        self.faults = self.faults.saturating_add(1);
        BayFault::Failed
    }
}

impl<'a> Bay for FileBay<'a> {
    type Part = FilePart;

    ghost use Rattle.wol_bay.specs.FileBay.{file_bay_state};

    ghost state = { file_bay_state };

    ghost apart = { λ b. tt };

    fn create(&mut self, name: &str, sizes: &[u64]) -> Result<Vec<FilePart>, BayFault> {
        let Ok(path) = self.path_of(name) else {
            return Err(BayFault::NoMemory);
        };
        let Some(bytes) = bytes_of_parts(sizes) else {
            return Err(self.failed());
        };
        let image = match self.make(name, path.as_str(), bytes) {
            Ok(image) => image,
            Err(e) if e.kind() == ErrorKind::OutOfMemory => return Err(BayFault::NoMemory),
            Err(_) => return Err(self.failed()),
        };
        match parts_of(self.alloc, image, sizes, self.most_bytes) {
            Ok(parts) => Ok(parts),
            Err(_) => Err(BayFault::NoMemory),
        }
    }

    fn attach(&mut self, name: &str, sizes: &[u64]) -> Result<Vec<FilePart>, BayFault> {
        let Ok(path) = self.path_of(name) else {
            return Err(BayFault::NoMemory);
        };
        let Ok(opened) = self.open(path.as_str()) else {
            return Err(self.failed());
        };
        let Some(found) = opened else {
            return Err(BayFault::Absent);
        };
        if !found.has(sizes) {
            let bytes = found.bytes;
            return Err(BayFault::WrongLength { bytes });
        }
        let image = match self.image_of_disk(path.as_str(), found) {
            Ok(image) => image,
            Err(e) if e.kind() == ErrorKind::OutOfMemory => return Err(BayFault::NoMemory),
            Err(_) => return Err(self.failed()),
        };
        match parts_of(self.alloc, image, sizes, self.most_bytes) {
            Ok(parts) => Ok(parts),
            Err(_) => Err(BayFault::NoMemory),
        }
    }

    fn detach(&mut self, name: &str, parts: Vec<FilePart>)
        ensures back { (file_bay_state self.new).told
            ≡ option_map (came_back name.now (blocks_of ⟦<FilePart as Disk>⟧.state parts.items)
            (faulty_places ⟦<FilePart as Disk>⟧.state parts.items))
            (file_bay_state self.old).told }
        ensures cause { faulty_places ⟦<FilePart as Disk>⟧.state parts.items ≢ []
            → Rose (file_bay_state self.old).faults (file_bay_state self.new).faults }
        ensures calm { faulty_places ⟦<FilePart as Disk>⟧.state parts.items ≡ []
            → (file_bay_state self.new).faults ≡ (file_bay_state self.old).faults }
        ensures counts { (file_bay_state self.old).faults ≤ (file_bay_state self.new).faults }
    {
        if has_fault(&parts) {
            self.failed();
        }
    }
}

// Locks the file. A lock that another process has is tried again as often as is said; how often is left comes with it.
fn lock_within(clock: &HostRuntime, file: &File, tries: u64) -> (io::Result<()>, u64) {
    for tried in 0..=tries {
        match file.try_lock() {
            Ok(()) => return (Ok(()), tries.saturating_sub(tried)),
            Err(TryLockError::WouldBlock) => {}
            Err(TryLockError::Error(e)) => return (Err(e), tries.saturating_sub(tried)),
        }
        if tried < tries {
            sleep(clock, Duration::from_millis(TRY_MILLIS));
        }
    }
    (Err(io::Error::from(ErrorKind::WouldBlock)), 0)
}

// Opens a file to be read and written; where it may only be read, and that is enough, to be read. With it comes whether it
// may be written.
fn open_either(rt: &HostRuntime, path: &str, is_for_reading: bool) -> io::Result<(File, bool)> {
    match OpenOptions::new().read(true).write(true).open(rt, path) {
        Ok(file) => Ok((file, true)),
        Err(e) if is_for_reading && may_not_be_written(&e) => Ok((File::open(rt, path)?, false)),
        Err(e) => Err(e),
    }
}

// Whether a file couldn't be opened since it may not be written.
fn may_not_be_written(e: &io::Error) -> bool {
    e.kind() == ErrorKind::PermissionDenied || e.kind() == ErrorKind::ReadOnlyFilesystem
}

// Whether two files are one.
fn is_one_file(a: &Metadata, b: &Metadata) -> bool {
    a.dev() == b.dev() && a.ino() == b.ino()
}

// Whether a device is at the end of the path.
fn is_device(rt: &HostRuntime, path: &str) -> bool {
    fs::metadata(rt, path).is_ok_and(|found| found.file_type().is_block_device())
}

// Opens the file and locks it; `None` is std's answer that there is no such file. A lock that another process has is tried again as
// often as is said; how often is left comes with it. The file is opened anew for each try, a device once more behind its lock, and
// any file behind another process's lock: the system drops what it keeps of a device only when nobody has it open, and that other
// one may have lost some of it.
fn open_within(
    rt: &HostRuntime,
    path: &str,
    is_device: bool,
    is_for_reading: bool,
    tries: u64,
) -> (io::Result<Option<(File, bool)>>, u64) {
    let mut is_others = is_device;
    for tried in 0..=tries {
        let left = tries.saturating_sub(tried);
        let (file, is_writable) = match open_either(rt, path, is_for_reading) {
            Ok(opened) => opened,
            Err(e) if e.kind() == ErrorKind::NotFound => return (Ok(None), left),
            Err(e) => return (Err(e), left),
        };
        match file.try_lock() {
            Ok(()) if !is_others => return (Ok(Some((file, is_writable))), left),
            Ok(()) => is_others = false,
            Err(TryLockError::WouldBlock) => is_others = true,
            Err(TryLockError::Error(e)) => return (Err(e), left),
        }
        drop(file);
        if is_others && left > 0 {
            sleep(rt, Duration::from_millis(TRY_MILLIS));
        }
    }
    (Err(io::Error::from(ErrorKind::WouldBlock)), 0)
}

// Whether a file couldn't be opened since too many are.
fn are_too_many_open(e: &io::Error) -> bool {
    e.raw_os_error()
        .is_some_and(|number| TOO_MANY_OPEN.contains(&number))
}

// What is open at an image's name, and its length. Of a device the system tells none: it is where its end is.
#[derive(Drop)]
struct Found {
    file: File,
    bytes: u64,
    is_device: bool,
    is_writable: bool,
}

impl Found {
    fn new(mut file: File, is_writable: bool) -> io::Result<Found> {
        let found = file.metadata()?;
        let is_device = found.file_type().is_block_device();
        let bytes = if is_device {
            file.seek(SeekFrom::End(0))?
        } else {
            found.len()
        };
        Ok(Found {
            file,
            bytes,
            is_device,
            is_writable,
        })
    }

    // Whether an image of these parts is there. A device may be longer.
    fn has(&self, sizes: &[u64]) -> bool {
        let is_longer = self.is_device
            && bytes_of_parts(sizes).is_some_and(|needed| needed <= self.bytes);
        is_longer || is_length(self.bytes, sizes)
    }
}

// The parts of a file.
fn parts_of(
    alloc: Global,
    image: ImageFile,
    sizes: &[u64],
    most_bytes: u64,
) -> Result<Vec<FilePart>, NoMemory>
    ensures blank { IfOk result
        (λ parts. AreBlank ⟦<FilePart as Disk>⟧.state None sizes.now parts.items) }
    ensures cut { IfOk result
        (λ parts. AreCut ⟦<FilePart as Disk>⟧.state None sizes.now parts.items) }
{
    let shared = Arc::new(alloc, image)?;
    let mut parts = Vec::new(alloc);
    let mut first: u64 = 0;
    for size in sizes {
        let image = Arc::try_clone(&shared)?;
        parts.push(FilePart {
            image,
            last_write: 1,
            first,
            blocks: *size,
            most_bytes,
            faults: 0,
        })?;
        first = first.saturating_add(*size);
    }
    Ok(parts)
}

fn has_fault(parts: &[FilePart]) -> bool
    ensures { MatchBool result (faulty_places ⟦<FilePart as Disk>⟧.state parts.now ≢ [])
        (faulty_places ⟦<FilePart as Disk>⟧.state parts.now ≡ []) }
{
    for part in parts {
        if part.faults > 0 {
            return true;
        }
    }
    false
}

impl FilePart {
    // Where a block begins in the file.
    fn offset_of(&self, at: u64) -> Result<u64, Failed>
        ensures { IfOk result (λ offset. offset ≡ 512 * (self.now.first + at)) }
    {
        self.first
            .checked_add(at)
            .and_then(|block| block.checked_mul(BLOCK_BYTES))
            .ok_or(Failed)
    }

    fn read_blocks(&self, at: u64, out: &mut [Block]) -> Result<(), Failed>
        ensures { length out.new ≡ length out.old }
    {
        let offset = self.offset_of(at)?;
        match self
            .image
            .file
            .read_exact_at(out.as_flattened_mut(), offset)
        {
            Ok(()) => Ok(()),
            Err(_) => Err(Failed),
        }
    }

    // Writes the blocks, unless they end behind the bound.
    fn write_blocks(&self, at: u64, from: &[Block]) -> Result<(), Failed>
        ensures within { self.now.most_bytes < 512 * (self.now.first + at + length from.now)
            → IsErr result }
    {
        let offset = self.offset_of(at)?;
        let bytes = from.as_flattened();
        let end = offset.checked_add(bytes.len() as u64).ok_or(Failed)?;
        if end > self.most_bytes {
            return Err(Failed);
        }
        match self.image.file.write_all_at(bytes, offset) {
            Ok(()) => Ok(()),
            Err(_) => Err(Failed),
        }
    }

    // Counts what a call answered.
    fn counted(&mut self, done: Result<(), Failed>) -> Result<(), Failed>
        ensures result { result ≡ done }
        ensures blocks { self.new.blocks ≡ self.old.blocks }
        ensures counts { self.old.faults ≤ self.new.faults }
        ensures cause { OnErr done (Rose self.old.faults self.new.faults) }
        ensures calm { OnOk done (self.new.faults ≡ self.old.faults) }
    {
        if done.is_err() {
            self.faults = self.faults.saturating_add(1);
        }
        done
    }
}

impl Disk for FilePart {
    ghost use Rattle.std.specs.Prelude.{false};
    ghost use Rattle.wol_bay.specs.FilePart.{file_part_state, file_part_sound, file_part_told};

    ghost state = { file_part_state };

    ghost sound = { file_part_sound };

    ghost tells = { false };

    ghost told = { file_part_told };

    fn blocks(&self) -> u64 {
        self.blocks
    }

    fn read(&mut self, at: u64, out: &mut [Block]) -> Result<(), Failed> {
        let done = self.read_blocks(at, out);
        self.counted(done)
    }

    fn write(&mut self, at: u64, from: &[Block]) -> Result<(), Failed> {
        let done = self.write_blocks(at, from);
        self.last_write = self.image.number_of_write();
        self.counted(done)
    }

    fn sync(&mut self) -> Result<(), Failed> {
        let done = self.image.sync(self.last_write);
        self.counted(done)
    }
}
