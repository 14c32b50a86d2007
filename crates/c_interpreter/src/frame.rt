// What is left to do when a part of a program has run.
use c_types::{COp, Expr, Func, Group, Kind, Stmt, To};
use run_model::Outcome;
use sqlite_items::Boxed;

/// A construct one part of which runs: what it does with what that part gives.
#[derive(Clone, Copy)]
pub enum Frame<'u> {
    SetLocal(usize),
    Load(Kind),
    /// The value that is to be stored is open.
    StoreTo(Kind, &'u Expr),
    Store(Kind, u32),
    CopyTo(u32, u32, &'u Expr),
    Copy(u32, u32, u32),
    BinaryLeft(COp, &'u Expr),
    Binary(COp, u32),
    Convert(To),
    Both(&'u Expr),
    Either(&'u Expr),
    Choose(&'u Expr, &'u Expr),
    Seq(&'u Expr),
    PutChar,
    /// The arguments behind the one that runs.
    Arguments(&'u [Expr]),
    Argument(u32),
    CallTo(usize),
    /// The value is dropped, and the statement ends.
    Drop,
    Return,
    If(&'u Stmt, &'u Stmt),
    Switch(&'u [Group]),
    SwitchEnd,
    Stmts(&'u [Stmt]),
    Groups(&'u [Group]),
    /// The whole loop, its step, its body.
    LoopTest(&'u Stmt, &'u Option<Boxed<Expr>>, &'u Stmt),
    LoopBody(&'u Stmt, &'u Option<Boxed<Expr>>),
    LoopStep(&'u Stmt),
    DoLoopBody(&'u Stmt, &'u Expr),
    DoLoopTest(&'u Stmt),
    /// A call of a function: where the locals of its caller begin and end, and how many calls were active there.
    Call(&'u Func, usize, usize, u64),
}

/// How a statement ended.
#[derive(Clone, Copy)]
pub enum Ending {
    Normal,
    Breaks,
    Continues,
    Returns(Option<u32>),
}

/// What comes next.
#[derive(Clone, Copy)]
pub enum Task<'u> {
    Expr(&'u Expr),
    /// The arguments of a call from the first of these on.
    Exprs(&'u [Expr]),
    Stmt(&'u Stmt),
    Stmts(&'u [Stmt]),
    /// So many groups are passed.
    Groups(usize, &'u [Group]),
    Value(Option<u32>),
    /// The values of all arguments.
    Values,
    Ending(Ending),
    /// One turn is used, and then the statement runs.
    Turn(&'u Stmt),
    /// The function is called, where the depth allows it, and one turn is used.
    Call(&'u Func),
    Stop(Outcome),
}
