// What every other crate uses: files and sinks, bytes and names, the layout of a program, and the
// operations on words.
//
// In comes what the host gives: files, standard input, sinks. Out go whole files and whole texts,
// or a refusal whose cause a contract names.
//
// The idea: the outside is behind two traits, `Files` and `Sink`. Each has a count of faults
// that never falls, and may tell its contents: the bytes of the files, the bytes written so far.
// The crates above are generic in the traits and proved from their clauses. `MemFiles` and
// `MemSink` tell all; `StdFiles` and `StdSink` are the real ones, and tell nothing; `StdSink` says beside
// its trait what its writer gained.
// `specs/Outside.antt` and `specs/Taking.antt` have what the clauses say, `specs/Memory.antt` what
// contracts see of the objects in memory.
//
// The invariant: a call answers `Failed` only where the count rose in it, or stands at its type's end,
// or where the contents of the files are told and lack the name that was asked for.
//
// The theorem, on `put_all`, of a sink that tells its bytes: after `Ok` it has gained the whole piece;
// after `Failed` it has gained a front of it and not all, and its count of faults rose or stands at its
// type's end.
//
// A `Layout` is where a program of the RV32IM machine is in the one address space of 2^32 bytes (The
// RISC-V Instruction Set Manual, Volume I, 1.4); `specs/Regions.antt` has the rule over addresses.
// `specs/Words.antt` defines the operations on words of 32 bits (Volume I, 2.4, 2.6 and 7), for the crates
// above. `apply` is the operations that the nodes of a graph have on words (`specs/Operations.antt`). `Kind` is
// the width of an access, and `RunFault` why a run of a program was cut off.
#![tactic(auto)]

mod bytes;
mod files;
mod layout;
mod memory_files;
mod memory_sink;
mod name;
mod op;
mod run_fault;
mod sink;
mod system;

pub use bytes::Bytes;
pub use files::{Files, TakeFault};
pub use layout::Layout;
pub use memory_files::MemFiles;
pub use memory_sink::MemSink;
pub use name::{Name, Names};
pub use op::{Kind, Op, Relation, To, apply};
pub use run_fault::RunFault;
pub use sink::{Failed, Sink, put_all, put_number};
pub use sqlite_items::Items;
pub use system::{StdFiles, StdSink};
