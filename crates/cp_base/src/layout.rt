// Where a program stands.
ghost use Rattle.std.specs.Prelude.{◌≡◌, ◌↔◌, ◌≤◌, ◌+◌, ◌^◌, IsTrue};
ghost use Rattle.cp_base.specs.Regions.{Holds, IsPlaced, Apart, AreApart, IsAligned, IsAlignedWord};

const ADDRESSES: u64 = 1 << 32;

/// The place of a program in memory, in bytes: its code and its data begin at `code` and `cdata`,
/// its stack is the `stack` bytes below `top`.
#[derive(Clone, Copy, Debug, PartialEq, Eq)]
pub struct Layout {
    pub code: u32,
    pub cdata: u32,
    pub top: u32,
    pub stack: u32,
}

impl Layout {
    /// Whether code of `code` bytes and data of `size` bytes may stand here: the four numbers are
    /// multiples of 16, `stack` is at most `top`, and the three regions lie apart, in memory, and
    /// not at address 0.
    pub fn holds(&self, code: u64, size: u64) -> bool
        ensures { IsTrue result ↔ Holds self.now code size }
    {
        if !self.is_aligned() || self.stack > self.top {
            return false;
        }
        let stack = Region::new(self.top - self.stack, u64::from(self.stack));
        let code = Region::new(self.code, code);
        let data = Region::new(self.cdata, size);
        if !code.is_placed() || !data.is_placed() || !stack.is_placed() {
            return false;
        }
        are_apart(&code, &data, &stack)
    }

    fn is_aligned(&self) -> bool
        ensures { IsTrue result ↔ IsAligned self.now }
    {
        is_aligned_word(self.code)
            && is_aligned_word(self.cdata)
            && is_aligned_word(self.top)
            && is_aligned_word(self.stack)
    }
}

/// `len` bytes from the address `base` on.
#[derive(Clone, Copy)]
pub struct Region {
    base: u64,
    len: u64,
}

impl Region {
    fn new(base: u32, len: u64) -> Region
        ensures { result ≡ record { base = base; len = len } }
    {
        Region {
            base: u64::from(base),
            len,
        }
    }

    // Whether each byte has an address other than 0 and below 2^32.
    fn is_placed(&self) -> bool
        ensures { IsTrue result ↔ IsPlaced self.now }
    {
        match self.base.checked_add(self.len) {
            Some(end) => end <= ADDRESSES && (self.base != 0 || self.len == 0),
            None => false,
        }
    }

    // Whether the two have no address in common.
    fn is_apart(&self, other: &Region) -> bool
        requires here { self.now.base + self.now.len ≤ 2 ^ 32 }
        requires there { other.now.base + other.now.len ≤ 2 ^ 32 }
        ensures { IsTrue result ↔ Apart self.now other.now }
    {
        self.len == 0
            || other.len == 0
            || self.base + self.len <= other.base
            || other.base + other.len <= self.base
    }
}

// Whether no two of the three have an address in common.
fn are_apart(one: &Region, two: &Region, three: &Region) -> bool
    requires one { one.now.base + one.now.len ≤ 2 ^ 32 }
    requires two { two.now.base + two.now.len ≤ 2 ^ 32 }
    requires three { three.now.base + three.now.len ≤ 2 ^ 32 }
    ensures { IsTrue result ↔ AreApart one.now two.now three.now }
{
    one.is_apart(two) && one.is_apart(three) && two.is_apart(three)
}

fn is_aligned_word(n: u32) -> bool
    ensures { IsTrue result ↔ IsAlignedWord n }
{
    n % 16 == 0
}
