// The contexts in which a client may ask about blocks.
ghost use Rattle.std.specs.Prelude.{◌≡◌};
ghost use Rattle.nbd_options.specs.Haggled.{name_of, number_of, is_front as is_front_of};

/// What a client may ask about blocks.
#[derive(Clone, Copy, PartialEq, Eq)]
pub enum Context {
    /// Which are zeros.
    Allocation,
    /// Which are marked.
    Bitmap,
}

impl Context {
    /// Its name.
    pub(crate) fn name(self) -> &'static [u8]
        ensures { result.now ≡ name_of self }
    {
        match self {
            Context::Allocation => b"base:allocation",
            Context::Bitmap => b"qemu:dirty-bitmap:cow",
        }
    }

    /// Whether its name is one of all that begin so.
    pub(crate) fn is_front(self, query: &[u8]) -> bool
        ensures { result ≡ is_front_of self query.now }
    {
        match self {
            Context::Allocation => query == b"base:".as_slice(),
            Context::Bitmap => {
                query == b"qemu:".as_slice() || query == b"qemu:dirty-bitmap:".as_slice()
            }
        }
    }

    /// Its number in a session that has chosen it. A list has no numbers.
    pub(crate) fn number(self, chooses: bool) -> u32
        ensures { result ≡ number_of chooses self }
    {
        if !chooses {
            return 0;
        }
        match self {
            Context::Allocation => 1,
            Context::Bitmap => 2,
        }
    }
}
