// Putting a disk back where it was taken from.
ghost use Rattle.std.specs.Prelude.{◌≡◌, ◌+◌, ◌<◌, ◌∷◌};
ghost use Rattle.std.specs.Vec.{vec_len, vec_capacity};

use cut_disk::Disk;

/// Puts a disk at the beginning of a list, in room that is there; it can't fail, and takes no memory.
pub fn put_first<D: Disk>(disks: &mut Vec<D>, disk: D)
    requires { vec_len disks.old < vec_capacity disks.old }
    ensures items { disks.new.items ≡ disk ∷ disks.old.items }
    ensures length { vec_len disks.new ≡ vec_len disks.old + 1 }
    ensures room { vec_capacity disks.new ≡ vec_capacity disks.old }
{
    disks.push_reserved(disk);
    disks.rotate_right(1);
}
