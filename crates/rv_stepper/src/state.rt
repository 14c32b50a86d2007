// The state of a run, and what changes it.
ghost use Rattle.std.specs.Prelude.{◌≡◌, ℕ, ◌+◌, ◌%◌, ◌<◌, List, map, slice_get, slice_index, true, Some, IfSome, All, Contains};
ghost use Rattle.std.specs.Option.{option_map};
ghost use Rattle.rv_code.specs.Machine.{LoadedProgram, Goes, gives, jumps, branches, loads, stores, reads_byte, writes_byte, environment_call, fetched, obeys, step};
ghost use Rattle.rv_stepper.specs.Space.{width_of, extended, may_access};
ghost use Rattle.rv_stepper.specs.Effects.{does};
ghost use Rattle.rv_stepper.specs.States.{machine_of, next_of, is_called, word_of_register, instr_of, Reaches, Keeps};

use crate::effect::{Effect, effect_of};
use crate::memory::Memory;
use crate::program::Instr;
use cp_base::Kind;

// The registers of the environment call.
const A0: u8 = 10;

const A1: u8 = 11;

const A2: u8 = 12;

const A7: u8 = 17;

// Its numbers, in a7.
const READ: u32 = 63;

const WRITE: u32 = 64;

const EXIT: u32 = 93;

/// What a step came to.
#[derive(Clone, Copy)]
pub enum Stepped {
    /// The run goes on.
    Went,
    /// The run goes on, after this byte of output.
    Wrote(u8),
    /// The run ended with this status.
    Ended(u8),
    /// There is no step.
    Stuck,
}

/// The state between two instructions, but for the output. An instruction names a register by a byte, so
/// there is a word for each byte; a well-formed unit names the first 32 alone.
#[derive(Drop)]
pub struct State {
    pub pc: u32,
    pub registers: [u32; 256],
    pub memory: Memory,
    pub taken: usize,
}

impl State {
    // The word of a register.
    #[inline(always)]
    fn word(&self, register: u8) -> u32
        ensures { result ≡ word_of_register self.now.registers register }
    {
        if register == 0 {
            0
        } else {
            self.registers[usize::from(register)]
        }
    }

    // A word into a register, and on.
    #[inline(always)]
    fn put(&mut self, rd: u8, word: u32)
        ensures step { (out : List ℕ) → Goes (machine_of self.new out) ≡ gives (machine_of self.old out) rd word }
        ensures memory { self.new.memory ≡ self.old.memory }
    {
        self.registers[usize::from(rd)] = word;
        self.pc = self.pc.wrapping_add(4);
    }

    #[inline(always)]
    fn give(&mut self, rd: u8, word: u32) -> Stepped
        ensures step { (out : List ℕ) → next_of result self.new out ≡ gives (machine_of self.old out) rd word }
        ensures memory { self.new.memory ≡ self.old.memory }
    {
        self.put(rd, word);
        Stepped::Went
    }

    #[inline(always)]
    fn jump(&mut self, rd: u8, target: u32) -> Stepped
        ensures step { (out : List ℕ) → next_of result self.new out ≡ jumps (machine_of self.old out) rd target }
        ensures memory { self.new.memory ≡ self.old.memory }
    {
        self.registers[usize::from(rd)] = self.pc.wrapping_add(4);
        self.pc = target;
        Stepped::Went
    }

    #[inline(always)]
    fn branch(&mut self, is_taken: bool, distance: u32) -> Stepped
        ensures step { (out : List ℕ) → next_of result self.new out ≡ branches (machine_of self.old out) is_taken distance }
        ensures memory { self.new.memory ≡ self.old.memory }
    {
        let by = if is_taken { distance } else { 4 };
        self.pc = self.pc.wrapping_add(by);
        Stepped::Went
    }

    #[inline(always)]
    fn load(&mut self, kind: Kind, address: u32, rd: u8) -> Stepped
        ensures step { (p : LoadedProgram) (out : List ℕ) → Reaches p self.old.memory → next_of result self.new out ≡ loads p (machine_of self.old out) rd address (width_of kind) (extended kind) }
        ensures memory { self.new.memory ≡ self.old.memory }
    {
        match self.memory.load(kind, address) {
            Some(word) => self.give(rd, word),
            None => Stepped::Stuck,
        }
    }

    #[inline(always)]
    fn store(&mut self, kind: Kind, address: u32, word: u32) -> Stepped
        ensures step { (p : LoadedProgram) (out : List ℕ) → Reaches p self.old.memory → next_of result self.new out ≡ stores p (machine_of self.old out) address (width_of kind) word }
        ensures kept { Keeps self.old.memory self.new.memory }
    {
        if self.memory.store(kind, address, word) {
            self.pc = self.pc.wrapping_add(4);
            Stepped::Went
        } else {
            Stepped::Stuck
        }
    }

    // Whether the environment is called with this number, on one byte of this file.
    fn is_call(&self, number: u32, file: u32) -> bool
        ensures { result ≡ is_called self.now number file }
    {
        let is_number = self.word(A7) == number;
        let is_file = self.word(A0) == file;
        let is_one = self.word(A2) == 1;
        is_number & is_file & is_one & self.memory.can_access(self.word(A1))
    }

    // The next byte of the input to the address in a1.
    fn read_byte(&mut self, input: &[u8]) -> Stepped
        requires { may_access self.old.memory.layout self.old.memory.size (slice_index self.old.registers 11) 1 ≡ true }
        ensures step { (out : List ℕ) → next_of result self.new out ≡ reads_byte (machine_of self.old out) (slice_get input.now self.old.taken) (slice_index self.old.registers 11) }
        ensures kept { Keeps self.old.memory self.new.memory }
    {
        let Some(byte) = input.get(self.taken) else {
            return self.give(A0, 0);
        };
        let address = self.word(A1);
        let _ = self.memory.store(Kind::U8, address, u32::from(*byte));
        self.taken += 1;
        self.give(A0, 1)
    }

    // The byte at the address in a1 to the output.
    fn write_byte(&mut self) -> Stepped
        requires { may_access self.old.memory.layout self.old.memory.size (slice_index self.old.registers 11) 1 ≡ true }
        ensures step { (out : List ℕ) → next_of result self.new out ≡ writes_byte (machine_of self.old out) (slice_index self.old.registers 11) }
        ensures memory { self.new.memory ≡ self.old.memory }
    {
        let Some(byte) = self.memory.byte(self.word(A1)) else {
            unreachable!();
        };
        self.put(A0, 1);
        Stepped::Wrote(byte)
    }

    fn call(&mut self, input: &[u8]) -> Stepped
        ensures step { (p : LoadedProgram) (out : List ℕ) → Reaches p self.old.memory → next_of result self.new out ≡ environment_call p input.now (machine_of self.old out) }
        ensures kept { Keeps self.old.memory self.new.memory }
    {
        if self.is_call(READ, 0) {
            return self.read_byte(input);
        }
        if self.is_call(WRITE, 1) {
            return self.write_byte();
        }
        if self.word(A7) == EXIT {
            Stepped::Ended((self.word(A0) % 256) as u8)
        } else {
            Stepped::Stuck
        }
    }

    // What the instruction does, done.
    #[inline(always)]
    fn perform(&mut self, effect: Effect, rd: u8, two: u32, value: u32, input: &[u8]) -> Stepped
        ensures step { (p : LoadedProgram) (out : List ℕ) → Reaches p self.old.memory → next_of result self.new out ≡ does p input.now (machine_of self.old out) rd two value effect }
        ensures kept { Keeps self.old.memory self.new.memory }
    {
        match effect {
            Effect::Gives(word) => self.give(rd, word),
            Effect::Jumps(target) => self.jump(rd, target),
            Effect::Branches(is_taken) => self.branch(is_taken, value),
            Effect::Loads(kind, address) => self.load(kind, address, rd),
            Effect::Stores(kind, address) => self.store(kind, address, two),
            Effect::Calls => self.call(input),
        }
    }

    // The instruction at the program counter, if there is one.
    #[inline(always)]
    fn fetch(&self, code: &[Instr]) -> Option<Instr>
        ensures { (p : LoadedProgram) → p.layout ≡ self.now.memory.layout → p.code ≡ map instr_of code.now → option_map instr_of result ≡ fetched p self.now.pc }
    {
        let start = self.memory.code();
        if self.pc % 4 == 0 && start <= self.pc {
            code.get(((self.pc - start) / 4) as usize).copied()
        } else {
            None
        }
    }

    /// One step.
    #[inline(always)]
    pub fn step(&mut self, code: &[Instr], input: &[u8]) -> Stepped
        ensures step { (p : LoadedProgram) (out : List ℕ) → Reaches p self.old.memory → p.code ≡ map instr_of code.now → next_of result self.new out ≡ step p input.now (machine_of self.old out) }
        ensures kept { Keeps self.old.memory self.new.memory }
    {
        let Some(instr) = self.fetch(code) else {
            return Stepped::Stuck;
        };
        self.obey(instr, input)
    }

    #[inline(always)]
    fn obey(&mut self, instr: Instr, input: &[u8]) -> Stepped
        ensures step { (p : LoadedProgram) (out : List ℕ) → Reaches p self.old.memory → next_of result self.new out ≡ obeys p input.now (machine_of self.old out) (Some (instr_of instr)) }
        ensures kept { Keeps self.old.memory self.new.memory }
    {
        let Instr {
            name,
            rd,
            rs1,
            rs2,
            value,
        } = instr;
        let two = self.word(rs2);
        let effect = effect_of(name, self.pc, self.word(rs1), two, value);
        self.perform(effect, rd, two, value, input)
    }
}
