// The parts of an image, as the bay hands them out and as they are read.
ghost use Rattle.std.specs.Prelude.{◌≡◌, ◌≤◌, ◌+◌, [], length, All, vec_len, vec_capacity};

use spin_model::Spun;
use wol_disk::Disk;

/// The parts of an image, each of which is reached by a token of its volume alone.
#[derive(Drop)]
pub struct ImageParts<D: Disk> {
    /// Label and view.
    pub label: Spun<D>,
    pub home: Spun<D>,
    /// The segments in order.
    pub segments: Vec<Spun<D>>,
}

impl<D: Disk> ImageParts<D> {
    ghost use Rattle.spin_model.specs.Spun.{volume_of};
    ghost use Rattle.volume_images.specs.Disks.{disks_of, AreOfVolume};

    /// The parts that a bay handed out, as those of this volume. The list is emptied, and keeps its room.
    pub fn take_apart(volume: u32, parts: &mut Vec<D>, room: Vec<Spun<D>>) -> ImageParts<D>
        requires two { 2 ≤ vec_len parts.old }
        requires empty { room.items ≡ [] }
        requires room { vec_len parts.old ≤ vec_capacity room + 2 }
        ensures parts { disks_of result ≡ parts.old.items }
        ensures volume { AreOfVolume volume result }
        ensures empty { parts.new.items ≡ [] }
        ensures capacity { vec_capacity parts.new ≡ vec_capacity parts.old }
    {
        let mut segments = room;
        while parts.len() > 2 {
            let Some(part) = parts.pop() else {
                unreachable!()
            };
            segments.push_reserved(Spun::new(volume, part));
        }
        segments.reverse();
        let Some(home) = parts.pop() else {
            unreachable!()
        };
        let Some(label) = parts.pop() else {
            unreachable!()
        };
        ImageParts {
            label: Spun::new(volume, label),
            home: Spun::new(volume, home),
            segments,
        }
    }

    /// The parts for the bay, in the list that it handed out. No memory is taken.
    pub fn put_together(self, room: Vec<D>) -> Vec<D>
        requires empty { room.items ≡ [] }
        requires room { 2 + length self.segments.items ≤ vec_capacity room }
        ensures { result.items ≡ disks_of self }
    {
        let ImageParts {
            label,
            home,
            mut segments,
        } = self;
        let mut parts = room;
        parts.push_reserved(label.into_inner());
        parts.push_reserved(home.into_inner());
        segments.reverse();
        while let Some(segment) = segments.pop() {
            parts.push_reserved(segment.into_inner());
        }
        segments.destroy_empty();
        parts
    }
}
