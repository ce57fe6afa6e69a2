// The bound that the stores over lent memory share.
ghost use Rattle.std.specs.Prelude.{◌≡◌, min};

// The most numbers that a store over lent memory counts.
pub const MOST: usize = 4_096;

// How many numbers a store counts whose memory has room for this many.
pub(crate) fn counted(room: usize) -> usize
    ensures { result ≡ min 4096 room }
{
    room.min(MOST)
}
