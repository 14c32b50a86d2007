// Accesses to the bytes of the data.
ghost use Rattle.std.specs.Prelude.{◌≡◌, ◌%◌, ◌==◌, ◌≤◌, ◌+◌, ◌-◌, ℕ, true, false, length, Some, None, MatchOption, IsTrue, if◌then◌else◌, ◌∷◌, []};
ghost use Rattle.run_model.specs.Accesses as accesses;
ghost use Rattle.c_interpreter.specs.Places.{IsAt};
ghost use Rattle.run_model.specs.Accesses.{can_access, loaded, stored, copied, number_of, part, with_part, bytes_of, extended};

use cp_base::{Kind, Op, To, apply};

fn width(kind: Kind) -> u32
    ensures { result ≡ accesses.width kind }
{
    match kind {
        Kind::U8 | Kind::I8 => 1,
        Kind::U16 | Kind::I16 => 2,
        Kind::W32 => 4,
    }
}

fn is_multiple(address: u32, align: u32) -> bool
    ensures { result ≡ (address % align == 0) }
{
    if align == 0 {
        address == 0
    } else {
        address % align == 0
    }
}

// The index of the bytes that an access has, where it may be made.
fn index_of(bytes: &[u8], base: u32, align: u32, address: u32, size: u32) -> Option<usize>
    ensures { MatchOption result (can_access base bytes.now align address size ≡ false) (λ index. IsAt base bytes.now align address size index) }
{
    if !is_multiple(address, align) || address < base {
        return None;
    }
    let index = (address - base) as usize;
    if index + size as usize <= bytes.len() {
        Some(index)
    } else {
        None
    }
}

// The number that four bytes are, the least byte first.
fn word(first: u8, second: u8, third: u8, fourth: u8) -> u32
    ensures { result ≡ number_of (first ∷ second ∷ third ∷ fourth ∷ []) }
{
    let high = u32::from(third) + 256 * u32::from(fourth);
    u32::from(first) + 256 * (u32::from(second) + 256 * high)
}

// The word that stands at an index.
fn word_at(bytes: &[u8], kind: Kind, at: usize) -> u32
    requires { at + accesses.width kind ≤ length bytes.now }
    ensures { result ≡ extended kind (number_of (part bytes.now at (accesses.width kind))) }
{
    match kind {
        Kind::U8 => word(bytes[at], 0, 0, 0),
        Kind::I8 => apply(Op::Conv(To::I8), word(bytes[at], 0, 0, 0), 0),
        Kind::U16 => word(bytes[at], bytes[at + 1], 0, 0),
        Kind::I16 => apply(Op::Conv(To::I16), word(bytes[at], bytes[at + 1], 0, 0), 0),
        Kind::W32 => word(bytes[at], bytes[at + 1], bytes[at + 2], bytes[at + 3]),
    }
}

/// The word at an address; none where it cannot be accessed.
pub fn load(bytes: &[u8], base: u32, kind: Kind, address: u32) -> Option<u32>
    ensures { result ≡ loaded base bytes.now kind address }
{
    let size = width(kind);
    match index_of(bytes, base, size, address, size) {
        Some(at) => Some(word_at(bytes, kind, at)),
        None => None,
    }
}

// Writes the low bytes of a word at an index.
fn put_word(bytes: &mut [u8], kind: Kind, at: usize, word: u32)
    requires { at + accesses.width kind ≤ length bytes.old }
    ensures { bytes.new ≡ with_part bytes.old at (bytes_of (accesses.width kind) word) }
{
    match kind {
        Kind::U8 | Kind::I8 => bytes[at] = (word % 256) as u8,
        Kind::U16 | Kind::I16 => {
            bytes[at] = (word % 256) as u8;
            bytes[at + 1] = (word / 256 % 256) as u8;
        }
        Kind::W32 => put_four(bytes, at, word),
    }
}

#[tactic(auto, using(crate::proofs::Bytes::put_four))]
fn put_four(bytes: &mut [u8], at: usize, word: u32)
    requires { at + 4 ≤ length bytes.old }
    ensures { bytes.new ≡ with_part bytes.old at (bytes_of 4 word) }
{
    bytes[at] = (word % 256) as u8;
    bytes[at + 1] = (word / 256 % 256) as u8;
    bytes[at + 2] = (word / 256 / 256 % 256) as u8;
    bytes[at + 3] = (word / 256 / 256 / 256 % 256) as u8;
}

/// Writes the low bytes of a word at an address, where it can be accessed, and answers whether it could.
pub fn store(bytes: &mut [u8], base: u32, kind: Kind, address: u32, word: u32) -> bool
    ensures is { stored base bytes.old kind address word ≡ (if result then Some bytes.new else None) }
    ensures same { result ≡ false → bytes.new ≡ bytes.old }
{
    let size = width(kind);
    match index_of(bytes, base, size, address, size) {
        Some(at) => {
            put_word(bytes, kind, at, word);
            true
        }
        None => false,
    }
}

// Copies the bytes from one index on to another.
fn copy_part(bytes: &mut [u8], to: usize, from: usize, size: usize)
    requires to { to + size ≤ length bytes.old }
    requires from { from + size ≤ length bytes.old }
    ensures { bytes.new ≡ with_part bytes.old to (part bytes.old from size) }
{
    bytes.copy_within(from..from + size, to);
}

/// Copies bytes from one address to another, where both can be accessed and they are one or the bytes do not meet, and
/// answers whether it could.
pub fn copy(bytes: &mut [u8], base: u32, size: u32, align: u32, to: u32, from: u32) -> bool
    ensures is { copied base bytes.old size align to from ≡ (if result then Some bytes.new else None) }
    ensures same { result ≡ false → bytes.new ≡ bytes.old }
{
    let Some(target) = index_of(bytes, base, align, to, size) else {
        return false;
    };
    let Some(source) = index_of(bytes, base, align, from, size) else {
        return false;
    };
    if to != from && !are_apart(size, to, from) {
        return false;
    }
    copy_part(bytes, target, source, size as usize);
    true
}

fn are_apart(size: u32, a: u32, b: u32) -> bool
    ensures { result ≡ accesses.are_apart size a b }
{
    let a = u64::from(a);
    let b = u64::from(b);
    let size = u64::from(size);
    a + size <= b || b + size <= a
}
