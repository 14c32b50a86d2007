// The kinds of syntax nodes.
ghost use Rattle.std.specs.Prelude.{◌≡◌};
ghost use Rattle.c_syntax.specs.TreeText.{kind_word};

use c_lexer::IntType;

/// What a node of the syntax tree is. A line says what kids it has, in source order.
#[derive(Clone, Copy, Debug, PartialEq, Eq)]
pub enum SynKind {
    /// Functions and declarations.
    Unit,
    /// Specs, a declarator, a block.
    Function,
    /// Specs, then an `InitDecl` for each declarator.
    Declaration,
    /// A declarator, and an initializer where there is one.
    InitDecl,
    /// Initializers.
    Braces,
    /// Words, struct and enum specifiers.
    Specs,
    /// A keyword or a typedef name among specs; its text is the word.
    Word,
    /// Members, where it has a body; its text is the tag.
    StructSpec,
    /// Specs, then declarators.
    Member,
    /// Enumerators, where it has a body; its text is the tag.
    EnumSpec,
    /// The value, where there is one; its text is the name.
    Enumer,
    /// The name that a declarator declares; its text is the name.
    Ident,
    /// The inner declarator.
    Pointer,
    /// The inner declarator, and the length where there is one.
    ArrayOf,
    /// The inner declarator, then parameters.
    Takes,
    /// Specs, and a declarator or `NoName`.
    Param,
    /// The place of a name that is absent.
    NoName,
    /// Specs, and a declarator without a name, or `NoName`.
    TypeName,
    /// Declarations and statements.
    Block,
    /// The expression.
    ExprStmt,
    /// `;` alone, or an absent part of `for`.
    Empty,
    /// The condition, a statement, and that of `else` where there is one.
    If,
    /// The condition, the statement.
    While,
    /// The statement, the condition.
    Do,
    /// The first part, the condition, the step, the statement.
    For,
    Break,
    Continue,
    /// The value, where there is one.
    Return,
    /// The expression, then labels and statements.
    Switch,
    /// The constant.
    Case,
    Default,
    /// An expression, or a declarator, in parentheses.
    Paren,
    /// An integer constant, with its type.
    Int(IntType),
    Char,
    Str,
    /// A name that is used; its text is the name.
    Var,
    /// The operand; its text is the operator, as in the next three.
    Unary,
    /// The operand, with `++` or `--` behind it.
    Post,
    Binary,
    Assign,
    /// The condition, and the two others.
    Cond,
    Comma,
    /// The array, the index.
    Index,
    /// The function, then the arguments.
    Call,
    /// The struct; its text is the member.
    Dot,
    /// The pointer; its text is the member.
    Arrow,
    /// A type name, the operand.
    Cast,
    /// `sizeof` of an expression.
    SizeExpr,
    /// `sizeof` of a type name.
    SizeType,
}

/// The word of a kind in the text of a tree.
pub fn kind_word(kind: SynKind) -> &'static str
    ensures { result.now ≡ kind_word kind }
{
    match kind {
        SynKind::Unit => "unit",
        SynKind::Function => "function",
        SynKind::Declaration => "declaration",
        SynKind::InitDecl => "initdecl",
        SynKind::Braces => "braces",
        SynKind::Specs => "specs",
        SynKind::Word => "word",
        SynKind::StructSpec => "struct",
        SynKind::Member => "member",
        SynKind::EnumSpec => "enum",
        SynKind::Enumer => "enumer",
        SynKind::Ident => "name",
        SynKind::Pointer => "pointer",
        SynKind::ArrayOf => "array",
        SynKind::Takes => "takes",
        SynKind::Param => "param",
        SynKind::NoName => "noname",
        SynKind::TypeName => "typename",
        SynKind::Block => "block",
        SynKind::ExprStmt => "expr",
        SynKind::Empty => "empty",
        SynKind::If => "if",
        SynKind::While => "while",
        SynKind::Do => "do",
        SynKind::For => "for",
        SynKind::Break => "break",
        SynKind::Continue => "continue",
        SynKind::Return => "return",
        SynKind::Switch => "switch",
        SynKind::Case => "case",
        SynKind::Default => "default",
        SynKind::Paren => "paren",
        SynKind::Int(_) => "int",
        SynKind::Char => "char",
        SynKind::Str => "string",
        SynKind::Var => "var",
        SynKind::Unary => "unary",
        SynKind::Post => "post",
        SynKind::Binary => "binary",
        SynKind::Assign => "assign",
        SynKind::Cond => "cond",
        SynKind::Comma => "comma",
        SynKind::Index => "index",
        SynKind::Call => "call",
        SynKind::Dot => "dot",
        SynKind::Arrow => "arrow",
        SynKind::Cast => "cast",
        SynKind::SizeExpr => "sizeexpr",
        SynKind::SizeType => "sizetype",
    }
}
