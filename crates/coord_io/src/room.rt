//! Bytes within a room.
ghost use Rattle.std.specs.Prelude.{◌≡◌, ◌≤◌, ◌++◌, if◌then◌else◌, Some, None};
ghost use Rattle.std.specs.Vec.{vec_capacity};
ghost use Rattle.coord_io.specs.Quiet.{within};

/// Adds the piece, if the bytes stay within the room, and says whether it did. It takes no memory.
pub fn add_within(bytes: &mut Vec<u8>, room: u32, piece: &[u8]) -> bool
    requires { room ≤ vec_capacity bytes.old }
    ensures exact { (if result then Some bytes.new.items else None) ≡ within room (bytes.old.items ++ piece.now) }
    ensures reserved { room ≤ vec_capacity bytes.new }
{
    bytes.len() + piece.len() <= room as usize && bytes.extend_from_slice(piece).is_ok()
}
