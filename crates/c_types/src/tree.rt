// The typed tree: a unit whose types are gone, as objects, functions, statements and expressions over words.
use cp_base::{Items, Kind, Name, To};
use sqlite_items::Boxed;

/// A whole unit. The functions stand in the order of their definitions.
#[derive(Drop)]
pub struct Unit {
    pub objects: Objects,
    pub functions: Funcs,
}

pub type Objects = Items<Object>;

pub type Funcs = Items<Func>;

pub type Cells = Items<Cell>;

pub type Exprs = Items<Expr>;

pub type Stmts = Items<Stmt>;

pub type Groups = Items<Group>;

pub type Words = Items<u32>;

/// A static object, or a string literal, whose name is empty. Bytes that are in no cell are 0.
#[derive(Debug, Drop)]
pub struct Object {
    pub name: Name,
    pub size: u32,
    pub align: u32,
    pub cells: Cells,
}

/// What the `width` bytes from `offset` on are, least byte first.
#[derive(Clone, Copy, Debug, PartialEq, Eq)]
pub struct Cell {
    pub offset: u32,
    pub width: u8,
    pub value: CellValue,
}

#[derive(Clone, Copy, Debug, PartialEq, Eq)]
pub enum CellValue {
    Number(u32),
    /// The address of an object, and an addend.
    Address(usize, u32),
}

/// A function. Its locals are the parameters, then the declared ones, then hidden ones, each in order of appearance.
#[derive(Drop)]
pub struct Func {
    pub name: Name,
    pub params: usize,
    pub locals: usize,
    /// It gives a value.
    pub gives: bool,
    pub body: Stmt,
}

/// An operator; S is for signed operands, U for unsigned ones.
#[derive(Clone, Copy, Debug, PartialEq, Eq)]
pub enum COp {
    AddS,
    AddU,
    SubS,
    SubU,
    MulS,
    MulU,
    DivS,
    DivU,
    RemS,
    RemU,
    ShlS,
    ShlU,
    ShrS,
    ShrU,
    LtS,
    LtU,
    LeS,
    LeU,
    GtS,
    GtU,
    GeS,
    GeU,
    And,
    Or,
    Xor,
    Eq,
    Ne,
}

/// An expression over words.
#[derive(Drop)]
pub enum Expr {
    Const(u32),
    /// An object's address, plus an addend.
    Address(usize, u32),
    Local(usize),
    SetLocal(usize, Boxed<Expr>),
    /// What stands at an address.
    Load(Kind, Boxed<Expr>),
    /// The address, the value.
    Store(Kind, Boxed<Expr>, Boxed<Expr>),
    Binary(COp, Boxed<Expr>, Boxed<Expr>),
    Convert(To, Boxed<Expr>),
    /// `&&`
    Both(Boxed<Expr>, Boxed<Expr>),
    /// `||`
    Either(Boxed<Expr>, Boxed<Expr>),
    /// `?:`
    Choose(Boxed<Expr>, Boxed<Expr>, Boxed<Expr>),
    /// `,`
    Seq(Boxed<Expr>, Boxed<Expr>),
    /// The function's number, the arguments.
    Call(usize, Exprs),
    GetChar,
    PutChar(Boxed<Expr>),
    /// Size and alignment of a struct, the place that it is copied to, the place that it is copied from.
    Copy(u32, u32, Boxed<Expr>, Boxed<Expr>),
}

/// A statement.
#[cycle(statements)]
#[derive(Drop)]
pub enum Stmt {
    Block(Stmts),
    /// The value is dropped.
    Drop(Boxed<Expr>),
    /// The declaration of a local without initializer.
    Unset(usize),
    Return(Option<Boxed<Expr>>),
    If(Boxed<Expr>, Boxed<Stmt>, Boxed<Stmt>),
    /// The test, the step, the body.
    Loop(Option<Boxed<Expr>>, Option<Boxed<Expr>>, Boxed<Stmt>),
    /// The body, the test.
    DoLoop(Boxed<Stmt>, Boxed<Expr>),
    Break,
    Continue,
    Switch(Boxed<Expr>, Groups),
}

/// What stands behind some labels of a `switch`, up to the next labels.
#[cycle(statements)]
#[derive(Drop)]
pub struct Group {
    pub labels: Words,
    /// The default is among them.
    pub other: bool,
    pub body: Stmts,
}
