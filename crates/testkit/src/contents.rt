// Lists of bytes and of words alike: guarded places, known contents, comparisons.
ghost use Rattle.std.specs.Prelude.{◌≡◌, take};

// Numbers that fill a list with contents that are known at every place.
pub trait Stamped: Copy + PartialEq {
    // The number that `stamp` puts at a place.
    fn stamp_of(place: usize, tag: Self) -> Self;
}

impl Stamped for u8 {
    fn stamp_of(place: usize, tag: u8) -> u8 {
        (place % 59) as u8 * 3 + tag % 50 + 1
    }
}

// Never 0, and different at neighbouring places.
impl Stamped for u16 {
    fn stamp_of(place: usize, tag: u16) -> u16 {
        (place % 1009) as u16 * 41 + tag % 20000 + 1
    }
}

// The number that `stamp` puts at a place.
pub fn stamp_of<T: Stamped>(place: usize, tag: T) -> T {
    T::stamp_of(place, tag)
}

// Gives a list contents that are known at every place.
pub fn stamp<T: Stamped>(list: &mut [T], tag: T) {
    for (i, x) in list.iter_mut().enumerate() {
        *x = T::stamp_of(i, tag);
    }
}

// Whether every place from `from` on still holds what `stamp` put there.
pub fn is_stamped<T: Stamped>(list: &[T], from: usize, tag: T) -> bool {
    let mut places = list.iter().enumerate().skip(from);
    places.all(|(i, x)| *x == T::stamp_of(i, tag))
}

// Whether the list holds the value at every place from `from` on.
pub fn is_filled<T: Copy + PartialEq>(list: &[T], from: usize, value: T) -> bool {
    list.iter().skip(from).all(|x| *x == value)
}

// Whether the list has `count` places or more, and the first `count` hold the value. The count is no
// length of the list: one that passes its end is answered with false, which a cut slice could not tell.
pub fn holds<T: Copy + PartialEq>(list: &[T], count: usize, value: T) -> bool {
    list.get(..count)
        .is_some_and(|first| first.iter().all(|x| *x == value))
}

// Whether both lists have `count` places or more, and agree in the first `count`.
pub fn agree<T: Copy + PartialEq>(a: &[T], b: &[T], count: usize) -> bool {
    match (a.get(..count), b.get(..count)) {
        (Some(starts), Some(others)) => starts == others,
        _ => false,
    }
}

// The first places of a list, as many as are asked for, or all where it has fewer.
pub fn first<T>(list: &[T], asked: usize) -> &[T]
    ensures { result.now ≡ take asked list.now }
{
    &list[..asked.min(list.len())]
}

// The same, to write to.
pub fn lent<T>(list: &mut [T], asked: usize) -> &mut [T]
    ensures { result.now ≡ take asked list.old }
{
    let count = asked.min(list.len());
    &mut list[..count]
}

// What stands at the place, or 0 past the end.
pub fn at<T: Copy + Default>(list: &[T], place: usize) -> T {
    list.get(place).copied().unwrap_or_default()
}

// Stores the value; past the end nothing.
pub fn put<T: Copy>(list: &mut [T], place: usize, value: T) {
    if place < list.len() {
        list[place] = value;
    }
}
