//! Size classes.

ghost use Rattle.std.specs.Prelude.{◌≡◌, ◌-◌, ◌/◌, ◌<◌, ◌≤◌};
ghost use Rattle.gc_gen2.specs.Class.{class_of as class_for, IsClass, cells_in};

/// The words of a page.
pub const PAGE_WORDS: u64 = 1024;

/// The size class of a size of 2 to 64 words: the least multiple of 4 that is at least the size.
pub fn class_of(size: u64) -> u8
    requires some { 2 ≤ size }
    requires few { size ≤ 64 }
    ensures value { result ≡ class_for size }
    ensures class { IsClass result }
    ensures enough { size ≤ result }
{
    (size.div_ceil(4) * 4) as u8
}

/// The index of a class among the sixteen: 0 for 4 words, 15 for 64.
pub fn index_of(class: u8) -> usize
    requires { IsClass class }
    ensures index { result ≡ class / 4 - 1 }
    ensures sixteen { result < 16 }
{
    usize::from(class / 4 - 1)
}

/// How many cells of a class a page has, 16 to 256.
pub fn cells_in_page(class: u8) -> u16
    requires { IsClass class }
    ensures { result ≡ cells_in class }
{
    PAGE_WORDS as u16 / u16::from(class)
}

/// How many whole cells of a class lie in so many words of a page. Each division is one by a constant, which costs a
/// multiplication and no division.
pub fn cells_before(class: u8, words: u16) -> u16
    requires { IsClass class }
    ensures { result ≡ words / class }
{
    match class {
        4 => words / 4,
        8 => words / 8,
        12 => words / 12,
        16 => words / 16,
        20 => words / 20,
        24 => words / 24,
        28 => words / 28,
        32 => words / 32,
        36 => words / 36,
        40 => words / 40,
        44 => words / 44,
        48 => words / 48,
        52 => words / 52,
        56 => words / 56,
        60 => words / 60,
        _ => words / 64,
    }
}
