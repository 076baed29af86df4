//! The front of a line: the timestamp and the number of its time-point. It is written from its last byte to its first.
ghost use Rattle.std.specs.Prelude.{◌≡◌, ◌++◌, ◌+◌, ◌≤◌, codes, decimal, drop};
ghost use Rattle.mfotl_model.specs.VerdictText.{line_front};

use itoa::write_digits;

/// Room for the longest front, and for one byte behind it.
pub(crate) const ROOM: usize = 64;

/// Where a front ends.
pub(crate) const END: usize = ROOM - 1;

// What stands between the two numbers.
const WORDS: [u8; WORDS_LENGTH] = *b" (time point ";

// How many bytes that has.
const WORDS_LENGTH: usize = 13;

// The most bytes of a mark and a timestamp behind it.
const TIME_ROOM: usize = 21;

// The last two bytes of a front, and where they begin.
fn put_end(room: &mut [u8; ROOM]) -> usize
    ensures at { result + 2 ≡ END }
    ensures written { drop result room.new ≡ codes "):" ++ drop END room.old }
{
    room[END - 1] = b':';
    room[END - 2] = b')';
    END - 2
}

// The words that end at a place, and where they begin.
fn put_words(room: &mut [u8; ROOM], end: usize) -> usize
    requires { (WORDS_LENGTH ≤ end) × (end ≤ ROOM) }
    ensures at { result + WORDS_LENGTH ≡ end }
    ensures written { drop result room.new ≡ codes " (time point " ++ drop end room.old }
{
    let start = end - WORDS_LENGTH;
    room[start..end].copy_from_slice(&WORDS);
    start
}

// A mark and a timestamp behind it that ends at a place, and where the mark stands.
fn put_time(room: &mut [u8; ROOM], end: usize, ts: u64) -> usize
    requires { (TIME_ROOM ≤ end) × (end ≤ ROOM) }
    ensures within { result ≤ END }
    ensures written { drop result room.new ≡ codes "@" ++ decimal ts ++ drop end room.old }
{
    let start = write_digits(ts, room, end) - 1;
    room[start] = b'@';
    start
}

/// Writes the front so that it ends before the last byte, and answers where it begins.
pub(crate) fn put_front(room: &mut [u8; ROOM], point: u64, ts: u64) -> usize
    ensures within { result ≤ END }
    ensures written { drop result room.new ≡ line_front ts point ++ drop END room.old }
{
    let end = put_end(room);
    let number = write_digits(point, room, end);
    let words = put_words(room, number);
    put_time(room, words, ts)
}
