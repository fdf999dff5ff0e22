// 16-bit words in a list of bytes, low byte first, and the elements of a list of 16-bit numbers.
ghost use Rattle.std.specs.Prelude.{◌≡◌, ◌+◌, ◌*◌, ◌/◌, ◌%◌, ◌<◌, ◌≤◌, length, get_or, set};
ghost use Rattle.lists.specs.Lists.{largest};
ghost use Rattle.graph.specs.File.{words_at};
ghost use Rattle.graph.specs.File.{word as File·word};

// The word at place i, 16 bits wide as it is stored.
#[tactic(auto, unfolding(crate::specs::File::word))]
pub fn word16(file: &[u8], i: usize) -> u16
    requires { 2 * i + 1 < length file.now }
    ensures { result ≡ File·word file.now i }
{
    u16::from_le_bytes([file[2 * i], file[2 * i + 1]])
}

// The word at place i.
pub fn word(file: &[u8], i: usize) -> usize
    requires { 2 * i + 1 < length file.now }
    ensures value { result ≡ File·word file.now i }
    ensures upper_bound { result < 65536 }
{
    usize::from(word16(file, i))
}

// The largest of the `count` words from `place` on; 0 where there are none. The loop has no exit on
// the way, so it is compiled to steps over several words at a time.
pub fn largest_word(file: &[u8], place: usize, count: usize) -> u16
    requires { 2 * (place + count) ≤ length file.now }
    ensures { result ≡ largest (words_at file.now place 1 count) }
{
    let mut found = 0;
    for i in 0..count {
        found = found.max(word16(file, place + i));
    }
    found
}

// The element at place i.
pub fn element(list: &[u16], i: usize) -> usize
    requires { i < length list.now }
    ensures value { result ≡ get_or list.now i 0 }
    ensures upper_bound { result < 65536 }
{
    usize::from(list[i])
}

// Stores the word w at place i. The cast is of a number whose bound is required: `try_from` and
// `unwrap` ask for the same.
pub fn put(file: &mut [u8], i: usize, w: usize)
    requires i_in_bounds { 2 * i + 1 < length file.old }
    requires w_bound { w < 65536 }
    ensures { file.new ≡ set (set file.old (2 * i) (w % 256)) (2 * i + 1) (w / 256) }
{
    let [low, high] = (w as u16).to_le_bytes();
    file[2 * i] = low;
    file[2 * i + 1] = high;
}
