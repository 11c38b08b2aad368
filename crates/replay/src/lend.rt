// Copies of lists as calls take them.
ghost use Rattle.std.specs.Prelude.{◌≡◌, ℕ, ◌%◌, map, take, length};

// A type that calls take numbers in: the lowest bits of a list's number.
pub(crate) trait Entry: Copy {
    ghost lowest_of: { ℕ → Self };

    fn lowest(n: u64) -> Self
        ensures { result ≡ lowest_of n };
}

impl Entry for u8 {
    ghost lowest_of = { λ n. n % 256 };

    fn lowest(n: u64) -> u8 {
        (n % 256) as u8
    }
}

impl Entry for u32 {
    ghost lowest_of = { λ n. n % 4294967296 };

    fn lowest(n: u64) -> u32 {
        (n % 4294967296) as u32
    }
}

// The copy of a list that a call is lent, as much of it as there is room for.
pub(crate) fn lent<'a, T: Entry>(list: &[u64], room: &'a mut [T]) -> &'a mut [T]
    ensures { result.now ≡ map T.lowest_of (take (length room.old) list.now) }
{
    let n = list.len().min(room.len());
    for i in 0..n {
        room[i] = T::lowest(list[i]);
    }
    &mut room[..n]
}
