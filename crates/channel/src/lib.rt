// What the channels of a pass share: load and store operations, whatever a Clear carries. In `color` what a slot does, in
// `pass` a channel as a pass gives it.
// Every function is total, and its contract is an equation with the definition, under the translations of specs/; but `resolve`
// asks that the function that is handed in may be called, and speaks of what it computes, and `clear_value` of its type's default.
#![tactic(auto)]

pub mod color;
pub mod pass;

ghost use Rattle.std.specs.Prelude.{◌≡◌};
ghost use Rattle.definition.specs.Channel as Ch;
ghost use Rattle.definition.specs.Pass.{ops_bits};
ghost use Rattle.channel.specs.Operations.{keep_in, load_in, ops_in};

// ── stores

// W3C GPUStoreOp.
#[derive(Clone, Copy, PartialEq, Eq)]
pub enum StoreOp {
    Store,
    Discard,
}

// By the field's number: 0 Store, 1 Discard.
impl From<u32> for StoreOp {
    ghost from_gives = { λ n r. keep_in r ≡ Ch.keep_of n };

    fn from(n: u32) -> StoreOp {
        if n == 0 {
            StoreOp::Store
        } else {
            StoreOp::Discard
        }
    }
}

impl StoreOp {
    // Whether what is drawn is kept.
    pub fn stores(self) -> bool
        ensures { result ≡ keep_in self }
    {
        self == StoreOp::Store
    }

    // 8 Store, 16 Discard.
    fn hal_ops(self) -> u32
        ensures { result ≡ Ch.store_bits (keep_in self) }
    {
        match self {
            StoreOp::Store => 8,
            StoreOp::Discard => 16,
        }
    }
}

// ── loads

// W3C GPULoadOp, and DontCare: a Clear carries its value.
#[derive(Clone, Copy)]
pub enum LoadOp<V> {
    Load,
    Clear(V),
    DontCare,
}

impl<V: Copy> LoadOp<V> {
    // By the field's number: 0 Load, 1 Clear, 2 DontCare.
    pub fn of(n: u32, clear: V) -> LoadOp<V>
        ensures { load_in result ≡ Ch.load_of n clear }
    {
        match n {
            1 => LoadOp::Clear(clear),
            2 => LoadOp::DontCare,
            _ => LoadOp::Load,
        }
    }

    // 1 Load, 2 Clear, 4 DontCare.
    fn hal_ops(self) -> u32
        ensures { result ≡ Ch.load_bits (load_in self) }
    {
        match self {
            LoadOp::Load => 1,
            LoadOp::Clear(_) => 2,
            LoadOp::DontCare => 4,
        }
    }

    // Whether what is there is read.
    pub fn loads(self) -> bool
        ensures { result ≡ Ch.loads (load_in self) }
    {
        matches!(self, LoadOp::Load)
    }

    // Whether any value may be there.
    pub fn ignores(self) -> bool
        ensures { result ≡ Ch.ignores (load_in self) }
    {
        matches!(self, LoadOp::DontCare)
    }

    // Whether both are of one kind, whatever a Clear carries.
    pub fn eq_variant<W: Copy>(self, other: LoadOp<W>) -> bool
        ensures { result ≡ Ch.same_load (load_in self) (load_in other) }
    {
        (self.loads() == other.loads()) & (self.ignores() == other.ignores())
    }

    // The value of a Clear, `zero` where nothing is cleared.
    pub fn clear_value_or(self, zero: V) -> V
        ensures { result ≡ Ch.clear_value zero (load_in self) }
    {
        match self {
            LoadOp::Clear(value) => value,
            LoadOp::Load | LoadOp::DontCare => zero,
        }
    }
}

// ── both

// Clear or DontCare, with Discard.
pub fn check_transient_attachment_ops<V: Copy>(load: LoadOp<V>, store: StoreOp) -> bool
    ensures { result ≡ Ch.transient_ops (load_in load) (keep_in store) }
{
    (!load.loads()) & (store == StoreOp::Discard)
}

// What an attachment or a channel does.
#[derive(Clone, Copy)]
pub struct Operations<V> {
    pub load: LoadOp<V>,
    pub store: StoreOp,
}

impl<V: Copy> Operations<V> {
    // 1 to 4 for the load, and 8 or 16 for the store.
    pub fn hal_ops(self) -> u32
        ensures { result ≡ ops_bits (ops_in self) }
    {
        self.load.hal_ops() + self.store.hal_ops()
    }
}
