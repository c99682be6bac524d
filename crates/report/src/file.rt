// What is held of a file.
ghost use Rattle.std.specs.Prelude.{length};
ghost use Rattle.report.specs.Held.{Enough};

// The first bytes of a file of `bytes` bytes: all of them, or more than any session has.
#[derive(Clone, Copy)]
pub struct File<'a> {
    pub head: &'a [u8],
    pub bytes: u64,
    ghost enough: { Enough (length head.now) bytes },
}
