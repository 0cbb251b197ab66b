//! The options of a script that is played.

/// What the options ask for: the words of a semispace half, 64 to 65,536; the pages of a mutator, 1 to 128;
/// whether the collections are reported; and whether a summary stands in place of the replies.
#[derive(Clone, Copy, Debug, PartialEq, Eq)]
pub struct Opts {
    pub nursery: u32,
    pub pages: u16,
    pub reports: bool,
    pub summary: bool,
}

impl Opts {
    /// What is played where no option says otherwise.
    pub const DEFAULT: Opts = Opts {
        nursery: 4096,
        pages: 8,
        reports: false,
        summary: false,
    };
}
