// Operations, as they are printed.
ghost use Rattle.std.specs.Prelude.{◌≡◌, ◌++◌, codes, OnOk};
ghost use Rattle.std.specs.Fmt.{decimal};
ghost use Rattle.firm_text.specs.Text.{kind_word, relation_word, to_word, mode_word, word_op_text, op_text};

use cp_base::{Bytes, Kind, Op, Relation, To};
use firm_nodes::{Mode, NodeOp};
use std::alloc::AllocError;

// The operation, with what it has besides operands.
pub(crate) fn put_op(out: &mut Bytes, op: NodeOp) -> Result<(), AllocError>
    ensures { OnOk result (out.new ≡ out.old ++ op_text op) }
{
    match op {
        NodeOp::Start => out.push_all(b"Start"),
        NodeOp::Param(number) => put_numbered(out, "Param ", number),
        NodeOp::Const(number) => {
            out.push_all(b"Const ")?;
            out.push_number(number)
        }
        NodeOp::Addr(offset) => {
            out.push_all(b"Addr ")?;
            out.push_number(offset)
        }
        NodeOp::Unknown => out.push_all(b"Unknown"),
        NodeOp::Apply(op) => put_word_op(out, op),
        NodeOp::Load(kind) => put_named(out, "Load ", kind_word(kind)),
        NodeOp::Store(kind) => put_named(out, "Store ", kind_word(kind)),
        NodeOp::Call(number) => put_numbered(out, "Call ", number),
        NodeOp::Get => out.push_all(b"Get"),
        NodeOp::Put => out.push_all(b"Put"),
        NodeOp::ProjM => out.push_all(b"ProjM"),
        NodeOp::ProjR => out.push_all(b"ProjR"),
        NodeOp::Phi(mode) => put_named(out, "Phi ", mode_word(mode)),
    }
}

fn put_numbered(out: &mut Bytes, word: &str, number: usize) -> Result<(), AllocError>
    ensures { OnOk result (out.new ≡ out.old ++ (word.now ++ decimal number)) }
{
    out.push_all(word.as_bytes())?;
    out.push_number(number)
}

fn put_named(out: &mut Bytes, word: &str, name: &str) -> Result<(), AllocError>
    ensures { OnOk result (out.new ≡ out.old ++ (word.now ++ name.now)) }
{
    out.push_all(word.as_bytes())?;
    out.push_all(name.as_bytes())
}

fn put_word_op(out: &mut Bytes, op: Op) -> Result<(), AllocError>
    ensures { OnOk result (out.new ≡ out.old ++ word_op_text op) }
{
    match op {
        Op::Add => out.push_all(b"Add"),
        Op::Sub => out.push_all(b"Sub"),
        Op::Mul => out.push_all(b"Mul"),
        Op::DivS => out.push_all(b"DivS"),
        Op::DivU => out.push_all(b"DivU"),
        Op::ModS => out.push_all(b"ModS"),
        Op::ModU => out.push_all(b"ModU"),
        Op::Shl => out.push_all(b"Shl"),
        Op::ShrS => out.push_all(b"ShrS"),
        Op::ShrU => out.push_all(b"ShrU"),
        Op::And => out.push_all(b"And"),
        Op::Or => out.push_all(b"Or"),
        Op::Eor => out.push_all(b"Eor"),
        Op::Cmp(relation) => put_named(out, "Cmp ", relation_word(relation)),
        Op::Conv(to) => put_named(out, "Conv ", to_word(to)),
    }
}

fn kind_word(kind: Kind) -> &'static str
    ensures { result.now ≡ kind_word kind }
{
    match kind {
        Kind::U8 => "U8",
        Kind::I8 => "I8",
        Kind::U16 => "U16",
        Kind::I16 => "I16",
        Kind::W32 => "W32",
    }
}

fn relation_word(relation: Relation) -> &'static str
    ensures { result.now ≡ relation_word relation }
{
    match relation {
        Relation::Eq => "Eq",
        Relation::Ne => "Ne",
        Relation::LtS => "LtS",
        Relation::LtU => "LtU",
        Relation::LeS => "LeS",
        Relation::LeU => "LeU",
        Relation::GtS => "GtS",
        Relation::GtU => "GtU",
        Relation::GeS => "GeS",
        Relation::GeU => "GeU",
    }
}

fn to_word(to: To) -> &'static str
    ensures { result.now ≡ to_word to }
{
    match to {
        To::U8 => "U8",
        To::I8 => "I8",
        To::U16 => "U16",
        To::I16 => "I16",
        To::Truth => "Truth",
    }
}

fn mode_word(mode: Mode) -> &'static str
    ensures { result.now ≡ mode_word mode }
{
    match mode {
        Mode::Word => "Word",
        Mode::Memory => "Memory",
        Mode::Tuple => "Tuple",
    }
}
