// The bytes that a program reaches: its data, and its stack.
ghost use Rattle.std.specs.Prelude.{◌≡◌, ℕ, ◌+◌, ◌%◌, ◌<◌, ◌≤◌, length, slice_index, slice_set, IfSome, Some, None, true, if◌then◌else◌};
ghost use Rattle.rv_code.specs.Machine.{store_bytes};
ghost use Rattle.rv_stepper.specs.Space.{IsSpace, memory_of, may_access, place_of, bytes_at, with_bytes, width_of, loaded_word, extended};

use cp_base::{Kind, Layout, Op, To, apply};
use std::marker::Model;

/// The bytes of the data and then those of the stack, with the addresses where they are.
#[derive(Drop)]
pub struct Memory {
    bytes: Vec<u8>,
    layout: Layout,
    size: u64,
}

impl Model for Memory {
    ghost use Rattle.std.specs.Prelude.{◌≡◌, ◌+◌};
    ghost use Rattle.std.specs.Vec.{vec_len};
    ghost use Rattle.rv_stepper.specs.Space.{Space, IsSpace};

    ghost Value = { Space };

    ghost view = { λ m. record { layout = m.layout; size = m.size; bytes = m.bytes.items } };

    ghost invariant = { λ m. (vec_len m.bytes ≡ m.size + m.layout.stack) × IsSpace m.layout m.size };
}

impl Memory {
    pub fn new(bytes: Vec<u8>, layout: Layout, size: u64) -> Memory
        requires len { length bytes.items ≡ size + layout.stack }
        requires space { IsSpace layout size }
        ensures { result ≡ record { layout = layout; size = size; bytes = bytes.items } }
    {
        Memory {
            bytes,
            layout,
            size,
        }
    }

    /// The address of the first instruction.
    pub fn code(&self) -> u32
        ensures { result ≡ self.now.layout.code }
    {
        self.layout.code
    }

    // Where an access finds its first byte, if it is allowed.
    #[inline(always)]
    fn place(&self, address: u32, width: u32) -> Option<usize>
        requires { 0 < width }
        ensures place { result ≡ place_of self.now address width }
        ensures within { IfSome result (λ index. index + width ≤ length self.now.bytes) }
    {
        if address % width != 0 {
            return None;
        }
        let start = u64::from(address);
        let end = start + u64::from(width);
        let cdata = u64::from(self.layout.cdata);
        let base = u64::from(self.layout.top - self.layout.stack);
        if cdata <= start && end <= cdata + self.size {
            return Some((start - cdata) as usize);
        }
        if base <= start && end <= u64::from(self.layout.top) {
            return Some((self.size + (start - base)) as usize);
        }
        None
    }

    /// Whether a byte may be read and written here.
    pub fn can_access(&self, address: u32) -> bool
        ensures { result ≡ may_access self.now.layout self.now.size address 1 }
    {
        self.place(address, 1).is_some()
    }

    /// The byte at an address, if it may be read.
    pub fn byte(&self, address: u32) -> Option<u8>
        ensures { result ≡ (if may_access self.now.layout self.now.size address 1 then Some (memory_of self.now address) else None) }
    {
        let index = self.place(address, 1)?;
        Some(self.bytes[index])
    }

    /// Stores the low bytes of a word, and answers whether that is allowed.
    #[inline(always)]
    pub fn store(&mut self, kind: Kind, address: u32, word: u32) -> bool
        ensures tested { result ≡ may_access self.old.layout self.old.size address (width_of kind) }
        ensures stored { result ≡ true → memory_of self.new ≡ store_bytes (memory_of self.old) address (width_of kind) word }
        ensures layout { self.new.layout ≡ self.old.layout }
        ensures size { self.new.size ≡ self.old.size }
    {
        let Some(index) = self.place(address, width_of(kind)) else {
            return false;
        };
        put(&mut self.bytes, kind, index, word);
        true
    }

    /// What a load of this kind gives, if it is allowed.
    #[inline(always)]
    pub fn load(&self, kind: Kind, address: u32) -> Option<u32>
        ensures { result ≡ loaded_word self.now kind address }
    {
        let index = self.place(address, width_of(kind))?;
        Some(read(self.bytes.as_slice(), kind, index))
    }
}

#[inline(always)]
fn width_of(kind: Kind) -> u32
    ensures value { result ≡ width_of kind }
    ensures some { 0 < result }
{
    match kind {
        Kind::U8 | Kind::I8 => 1,
        Kind::U16 | Kind::I16 => 2,
        Kind::W32 => 4,
    }
}

// The bytes from an index on, as a word.
#[inline(always)]
fn read(bytes: &[u8], kind: Kind, index: usize) -> u32
    requires { index + width_of kind ≤ length bytes.now }
    ensures { result ≡ extended kind (bytes_at bytes.now index (width_of kind)) }
{
    match kind {
        Kind::U8 => byte_at(bytes, index),
        Kind::I8 => apply(Op::Conv(To::I8), byte_at(bytes, index), 0),
        Kind::U16 => half_at(bytes, index),
        Kind::I16 => apply(Op::Conv(To::I16), half_at(bytes, index), 0),
        Kind::W32 => word_at(bytes, index),
    }
}

#[inline(always)]
fn byte_at(bytes: &[u8], index: usize) -> u32
    requires { index + 1 ≤ length bytes.now }
    ensures { result ≡ bytes_at bytes.now index 1 }
{
    u32::from(bytes[index])
}

#[inline(always)]
fn half_at(bytes: &[u8], index: usize) -> u32
    requires { index + 2 ≤ length bytes.now }
    ensures { result ≡ bytes_at bytes.now index 2 }
{
    u32::from(bytes[index]) + 256 * u32::from(bytes[index + 1])
}

#[inline(always)]
fn word_at(bytes: &[u8], index: usize) -> u32
    requires { index + 4 ≤ length bytes.now }
    ensures { result ≡ bytes_at bytes.now index 4 }
{
    let low = u32::from(bytes[index]) + 256 * u32::from(bytes[index + 1]);
    let high = u32::from(bytes[index + 2]) + 256 * u32::from(bytes[index + 3]);
    low + 65536 * high
}

#[inline(always)]
fn put(bytes: &mut [u8], kind: Kind, index: usize, word: u32)
    requires { index + width_of kind ≤ length bytes.old }
    ensures { bytes.new ≡ with_bytes bytes.old index (width_of kind) word }
{
    match kind {
        Kind::U8 | Kind::I8 => put_byte(bytes, index, word),
        Kind::U16 | Kind::I16 => put_half(bytes, index, word),
        Kind::W32 => put_word(bytes, index, word),
    }
}

#[inline(always)]
fn put_byte(bytes: &mut [u8], index: usize, word: u32)
    requires { index + 1 ≤ length bytes.old }
    ensures { bytes.new ≡ with_bytes bytes.old index 1 word }
{
    bytes[index] = (word % 256) as u8;
}

#[inline(always)]
fn put_half(bytes: &mut [u8], index: usize, word: u32)
    requires { index + 2 ≤ length bytes.old }
    ensures { bytes.new ≡ with_bytes bytes.old index 2 word }
{
    put_byte(bytes, index, word);
    put_byte(bytes, index + 1, word / 256);
}

#[inline(always)]
fn put_word(bytes: &mut [u8], index: usize, word: u32)
    requires { index + 4 ≤ length bytes.old }
    ensures { bytes.new ≡ with_bytes bytes.old index 4 word }
{
    put_half(bytes, index, word);
    put_half(bytes, index + 2, word / 65536);
}
