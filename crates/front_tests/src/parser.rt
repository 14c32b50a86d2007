// Units with their trees, and units that have none, given to the calls of `c_parser`.
use c_lexer::lex;
use c_parser::{ParseFault, parse};
use c_syntax::tree_text;
use cp_base::Bytes;
use std::alloc::{AllocError, Global};
use std::test::Fail;

// The text of a tree that is written in one line: kids in parentheses, with commas between.
fn lines_of(alloc: Global, tree: &str) -> Result<Bytes, AllocError> {
    let mut text = Bytes::new(alloc);
    let mut level = 0usize;
    for byte in tree.as_bytes() {
        match *byte {
            b'(' => {
                level = level.saturating_add(1);
                put_line_end(&mut text, level)?;
            }
            b',' => put_line_end(&mut text, level)?,
            b')' => level = level.saturating_sub(1),
            _ => text.push_all(&[*byte])?,
        }
    }
    text.push_all(b"\n")?;
    Ok(text)
}

fn put_line_end(text: &mut Bytes, level: usize) -> Result<(), AllocError> {
    text.push_all(b"\n")?;
    for _ in 0..level {
        text.push_all(b"  ")?;
    }
    Ok(())
}

// These pieces, one after another.
fn joined(alloc: Global, pieces: &[&str]) -> Result<Bytes, AllocError> {
    let mut text = Bytes::new(alloc);
    for piece in pieces {
        text.push_all(piece.as_bytes())?;
    }
    Ok(text)
}

// A piece so many times between two others.
fn repeated(
    alloc: Global,
    front: &str,
    piece: &str,
    times: usize,
    end: &str,
) -> Result<Bytes, AllocError> {
    let mut text = joined(alloc, &[front])?;
    for _ in 0..times {
        text.push_all(piece.as_bytes())?;
    }
    text.push_all(end.as_bytes())?;
    Ok(text)
}

// The text has this tree.
fn has_tree(alloc: Global, text: &[u8], tree: &str) -> bool {
    let Ok(tokens) = lex(alloc, text) else {
        return false;
    };
    let Ok(syntax) = parse(alloc, &tokens) else {
        return false;
    };
    match (tree_text(alloc, &syntax), lines_of(alloc, tree)) {
        (Ok(lines), Ok(wanted)) => lines.as_slice() == wanted.as_slice(),
        _ => false,
    }
}

// The text is refused with this fault.
fn has_fault(alloc: Global, text: &[u8], fault: ParseFault) -> bool {
    let Ok(tokens) = lex(alloc, text) else {
        return false;
    };
    matches!(parse(alloc, &tokens), Err(found) if found == fault)
}

// Expressions with their trees.
static EXPRESSIONS: [(&str, &str); 40] = [
    ("a", "var a"),
    ("1", "int 1"),
    ("'A'", "char 65"),
    ("\"ab\" \"c\"", "string 3"),
    ("(a)", "paren(var a)"),
    ("a[1]", "index(var a,int 1)"),
    ("f()", "call(var f)"),
    ("f(a,b=1)", "call(var f,var a,assign =(var b,int 1))"),
    ("a.b->c", "arrow c(dot b(var a))"),
    ("a++--", "post --(post ++(var a))"),
    ("++a", "unary ++(var a)"),
    ("- -a", "unary -(unary -(var a))"),
    ("*p++", "unary *(post ++(var p))"),
    ("&a[0]", "unary &(index(var a,int 0))"),
    ("!~a", "unary !(unary ~(var a))"),
    ("sizeof a", "sizeexpr(var a)"),
    ("sizeof(int)", "sizetype(typename(specs(word int),noname))"),
    ("sizeof(a)", "sizeexpr(paren(var a))"),
    ("sizeof(a)[0]", "sizeexpr(index(paren(var a),int 0))"),
    (
        "sizeof(int)-1",
        "binary -(sizetype(typename(specs(word int),noname)),int 1)",
    ),
    ("(int)a", "cast(typename(specs(word int),noname),var a)"),
    (
        "(int)(char)a",
        "cast(typename(specs(word int),noname),cast(typename(specs(word char),noname),var a))",
    ),
    (
        "(int*)p",
        "cast(typename(specs(word int),pointer(noname)),var p)",
    ),
    (
        "(int(*)[3])p",
        "cast(typename(specs(word int),array(paren(pointer(noname)),int 3)),var p)",
    ),
    ("a*b+c", "binary +(binary *(var a,var b),var c)"),
    ("a+b*c", "binary +(var a,binary *(var b,var c))"),
    ("a-b-c", "binary -(binary -(var a,var b),var c)"),
    (
        "a<<b<c==d&e^f|g&&h||i",
        "binary ||(binary &&(binary |(binary ^(binary &(binary ==(binary <(binary <<(var a,var b),\
         var c),var d),var e),var f),var g),var h),var i)",
    ),
    (
        "a||b&&c|d^e&f!=g>h>>i-j%k",
        "binary ||(var a,binary &&(var b,binary |(var c,binary ^(var d,binary &(var e,\
         binary !=(var f,binary >(var g,binary >>(var h,binary -(var i,binary %(var j,var k))))))))))",
    ),
    ("a?b:c?d:e", "cond(var a,var b,cond(var c,var d,var e))"),
    ("a?b,c:d", "cond(var a,comma(var b,var c),var d)"),
    ("a||b?c:d", "cond(binary ||(var a,var b),var c,var d)"),
    ("a=b?c:d", "assign =(var a,cond(var b,var c,var d))"),
    ("a=b+=c", "assign =(var a,assign +=(var b,var c))"),
    ("a,b,c", "comma(comma(var a,var b),var c)"),
    ("*a=b", "assign =(unary *(var a),var b)"),
    ("a<<=1", "assign <<=(var a,int 1)"),
    ("-a*b", "binary *(unary -(var a),var b)"),
    ("(a)+b", "binary +(paren(var a),var b)"),
    ("&*a", "unary &(unary *(var a))"),
];

// The expression is the statement of a function, and has this tree there.
fn has_expression(alloc: Global, expression: &str, tree: &str) -> Result<bool, AllocError> {
    let unit = joined(alloc, &["int f(){", expression, ";}"])?;
    let front = "unit(function(specs(word int),takes(name f),block(expr(";
    let wanted = joined(alloc, &[front, tree, "))))"])?;
    match std::str::from_utf8(wanted.as_slice()) {
        Ok(wanted) => Ok(has_tree(alloc, unit.as_slice(), wanted)),
        Err(_) => Ok(false),
    }
}

#[test]
fn expressions(rt: HostRuntime) -> Result<(), Fail> {
    for (text, tree) in &EXPRESSIONS {
        assert!(rt; has_expression(rt.alloc(), text, tree)?, "{text}");
    }
    Ok(())
}

// Statements with their trees.
static STATEMENTS: [(&str, &str); 8] = [
    ("switch(x){}", "switch(var x)"),
    (
        "switch(x){case 1:default:;}",
        "switch(var x,case(int 1),default,empty)",
    ),
    (
        "switch(x){case 1:;y;case 2:;}",
        "switch(var x,case(int 1),empty,expr(var y),case(int 2),empty)",
    ),
    (
        "switch(x){case 1:switch(y){default:break;}break;}",
        "switch(var x,case(int 1),switch(var y,default,break),break)",
    ),
    (
        "while(x)switch(y){default:continue;}",
        "while(var x,switch(var y,default,continue))",
    ),
    (
        "switch(x){case 1?2:3:;}",
        "switch(var x,case(cond(int 1,int 2,int 3)),empty)",
    ),
    (
        "if(x)switch(y){default:if(z);}else;",
        "if(var x,switch(var y,default,if(var z,empty)),empty)",
    ),
    (
        "switch(x){default:{int y;}}",
        "switch(var x,default,block(declaration(specs(word int),initdecl(name y))))",
    ),
];

// The statement is the only one of a function, and has this tree there.
fn has_statement(alloc: Global, statement: &str, tree: &str) -> Result<bool, AllocError> {
    let unit = joined(alloc, &["int f(){", statement, "}"])?;
    let front = "unit(function(specs(word int),takes(name f),block(";
    let wanted = joined(alloc, &[front, tree, ")))"])?;
    match std::str::from_utf8(wanted.as_slice()) {
        Ok(wanted) => Ok(has_tree(alloc, unit.as_slice(), wanted)),
        Err(_) => Ok(false),
    }
}

#[test]
fn statements(rt: HostRuntime) -> Result<(), Fail> {
    for (text, tree) in &STATEMENTS {
        assert!(rt; has_statement(rt.alloc(), text, tree)?, "{text}");
    }
    Ok(())
}

// Units with their trees.
static UNITS: [(&str, &str); 28] = [
    (
        "int x;",
        "unit(declaration(specs(word int),initdecl(name x)))",
    ),
    ("int;", "unit(declaration(specs(word int)))"),
    (
        "int *a,b[3],f(void),g();",
        "unit(declaration(specs(word int),initdecl(pointer(name a)),initdecl(array(name b,int 3)),\
         initdecl(takes(name f)),initdecl(takes(name g))))",
    ),
    (
        "int (*p)[2];",
        "unit(declaration(specs(word int),initdecl(array(paren(pointer(name p)),int 2))))",
    ),
    (
        "int f(int a,char*,int[]);",
        "unit(declaration(specs(word int),initdecl(takes(name f,param(specs(word int),name a),\
         param(specs(word char),pointer(noname)),param(specs(word int),array(noname))))))",
    ),
    (
        "int f(void*p);",
        "unit(declaration(specs(word int),initdecl(takes(name f,param(specs(word void),\
         pointer(name p))))))",
    ),
    (
        "int a[]={1,2,};",
        "unit(declaration(specs(word int),initdecl(array(name a),braces(int 1,int 2))))",
    ),
    (
        "int a[2][2]={{1},{2}};",
        "unit(declaration(specs(word int),initdecl(array(array(name a,int 2),int 2),\
         braces(braces(int 1),braces(int 2)))))",
    ),
    (
        "struct s{int a,*b;}x;",
        "unit(declaration(specs(struct s(member(specs(word int),name a,pointer(name b)))),\
         initdecl(name x)))",
    ),
    ("struct s;", "unit(declaration(specs(struct s)))"),
    (
        "struct{char c;}x;",
        "unit(declaration(specs(struct(member(specs(word char),name c))),initdecl(name x)))",
    ),
    (
        "enum e{A,B=2,}x;",
        "unit(declaration(specs(enum e(enumer A,enumer B(int 2))),initdecl(name x)))",
    ),
    (
        "typedef int t;t x;",
        "unit(declaration(specs(word typedef,word int),initdecl(name t)),\
         declaration(specs(word t),initdecl(name x)))",
    ),
    (
        "typedef int t;unsigned t;",
        "unit(declaration(specs(word typedef,word int),initdecl(name t)),\
         declaration(specs(word unsigned),initdecl(name t)))",
    ),
    (
        "typedef int t;const t;",
        "unit(declaration(specs(word typedef,word int),initdecl(name t)),\
         declaration(specs(word const,word t)))",
    ),
    (
        "typedef int t;int f(){return (t)-1;}",
        "unit(declaration(specs(word typedef,word int),initdecl(name t)),function(specs(word int),\
         takes(name f),block(return(cast(typename(specs(word t),noname),unary -(int 1))))))",
    ),
    (
        "typedef int t;int f(){int t;return (t)-1;}",
        "unit(declaration(specs(word typedef,word int),initdecl(name t)),function(specs(word int),\
         takes(name f),block(declaration(specs(word int),initdecl(name t)),\
         return(binary -(paren(var t),int 1)))))",
    ),
    (
        "typedef int t;int f(){{int t;}t x;}",
        "unit(declaration(specs(word typedef,word int),initdecl(name t)),function(specs(word int),\
         takes(name f),block(block(declaration(specs(word int),initdecl(name t))),\
         declaration(specs(word t),initdecl(name x)))))",
    ),
    (
        "typedef int t;int f(){enum{t};return t;}",
        "unit(declaration(specs(word typedef,word int),initdecl(name t)),function(specs(word int),\
         takes(name f),block(declaration(specs(enum(enumer t))),return(var t))))",
    ),
    (
        "typedef int t;int f(int(t));",
        "unit(declaration(specs(word typedef,word int),initdecl(name t)),\
         declaration(specs(word int),initdecl(takes(name f,param(specs(word int),paren(name t))))))",
    ),
    (
        "int f(){if(a)if(b)x;else y;}",
        "unit(function(specs(word int),takes(name f),block(if(var a,\
         if(var b,expr(var x),expr(var y))))))",
    ),
    (
        "int f(){if(a){if(b)x;}else y;}",
        "unit(function(specs(word int),takes(name f),block(if(var a,\
         block(if(var b,expr(var x))),expr(var y)))))",
    ),
    (
        "int f(){while(a)do b;while(c);}",
        "unit(function(specs(word int),takes(name f),block(while(var a,do(expr(var b),var c)))))",
    ),
    (
        "int f(){for(;;);}",
        "unit(function(specs(word int),takes(name f),block(for(empty,empty,empty,empty))))",
    ),
    (
        "int f(){for(int i=0;i<2;i++)continue;}",
        "unit(function(specs(word int),takes(name f),block(for(declaration(specs(word int),\
         initdecl(name i,int 0)),binary <(var i,int 2),post ++(var i),continue))))",
    ),
    (
        "int f(){for(a;b;)break;return;}",
        "unit(function(specs(word int),takes(name f),block(for(var a,var b,empty,break),return)))",
    ),
    (
        "typedef int f(){f;}",
        "unit(function(specs(word typedef,word int),takes(name f),block(expr(var f))))",
    ),
    (
        "static int f(void){;{}}",
        "unit(function(specs(word static,word int),takes(name f),block(empty,block)))",
    ),
];

#[test]
fn units(rt: HostRuntime) {
    for (text, tree) in &UNITS {
        assert!(rt; has_tree(rt.alloc(), text.as_bytes(), tree), "{text}");
    }
}

// Units behind `typedef int t;`, with the trees of what stands behind it. Letters stand for what comes again and again:
// E for an expression that declares `t`, S for `(t)-1` where `t` is no typedef name, C for the same where it is one.
static SCOPED: [(&str, &str); 14] = [
    (
        "int f(){switch(E){default:(t)-1;}(t)-1;}",
        "function(specs(word int),takes(name f),block(switch(E,default,expr(S)),expr(S)))",
    ),
    (
        "int f(){switch(x){case E:(t)-1;}(t)-1;}",
        "function(specs(word int),takes(name f),block(switch(var x,case(E),expr(S)),expr(C)))",
    ),
    (
        "int f(){switch(x){default:E;(t)-1;}(t)-1;}",
        "function(specs(word int),takes(name f),block(switch(var x,default,expr(E),expr(S)),expr(C)))",
    ),
    (
        "int f(){int t=(t)-1;}",
        "function(specs(word int),takes(name f),block(declaration(specs(word int),initdecl(name t,S))))",
    ),
    (
        "int f(){int t,a[(t)-1];}",
        "function(specs(word int),takes(name f),block(declaration(specs(word int),initdecl(name t),\
         initdecl(array(name a,S)))))",
    ),
    (
        "int f(int t,int a[(t)-1]);",
        "declaration(specs(word int),initdecl(takes(name f,param(specs(word int),name t),\
         param(specs(word int),array(name a,S)))))",
    ),
    (
        "int f(int t),a[(t)-1];",
        "declaration(specs(word int),initdecl(takes(name f,param(specs(word int),name t))),\
         initdecl(array(name a,C)))",
    ),
    (
        "int f(int g(int t),int a[(t)-1]);",
        "declaration(specs(word int),initdecl(takes(name f,param(specs(word int),\
         takes(name g,param(specs(word int),name t))),param(specs(word int),array(name a,C)))))",
    ),
    (
        "int f(int t,int g(int a[(t)-1]));",
        "declaration(specs(word int),initdecl(takes(name f,param(specs(word int),name t),\
         param(specs(word int),takes(name g,param(specs(word int),array(name a,S)))))))",
    ),
    (
        "typedef int u;int (*f(int t))(int u){(t)-1;(u)-1;}",
        "declaration(specs(word typedef,word int),initdecl(name u)),function(specs(word int),\
         takes(paren(pointer(takes(name f,param(specs(word int),name t)))),param(specs(word int),name u)),\
         block(expr(S),expr(cast(typename(specs(word u),noname),unary -(int 1)))))",
    ),
    (
        "typedef int u;int (*f(int u))(int t){(t)-1;(u)-1;}",
        "declaration(specs(word typedef,word int),initdecl(name u)),function(specs(word int),\
         takes(paren(pointer(takes(name f,param(specs(word int),name u)))),param(specs(word int),name t)),\
         block(expr(C),expr(binary -(paren(var u),int 1))))",
    ),
    (
        "int f(){if(E);(t)-1;}",
        "function(specs(word int),takes(name f),block(if(E,empty),expr(S)))",
    ),
    (
        "int f(){for(;E;);(t)-1;}",
        "function(specs(word int),takes(name f),block(for(empty,E,empty,empty),expr(C)))",
    ),
    (
        "int f(){struct{int t;};(t)-1;}",
        "function(specs(word int),takes(name f),block(declaration(specs(struct(member(specs(word int),\
         name t)))),expr(C)))",
    ),
];

// The text with the letters of `SCOPED` spelled out, behind this front.
fn spelled(alloc: Global, front: &str, text: &str, e: &str) -> Result<Bytes, AllocError> {
    let mut whole = joined(alloc, &[front])?;
    for byte in text.as_bytes() {
        match *byte {
            b'E' => whole.push_all(e.as_bytes())?,
            b'S' => whole.push_all(b"binary -(paren(var t),int 1)")?,
            b'C' => whole.push_all(b"cast(typename(specs(word t),noname),unary -(int 1))")?,
            _ => whole.push_all(&[*byte])?,
        }
    }
    Ok(whole)
}

fn has_scopes(alloc: Global, text: &str, tree: &str) -> Result<bool, AllocError> {
    let unit = spelled(alloc, "typedef int t;", text, "sizeof(enum{t})")?;
    let front = "unit(declaration(specs(word typedef,word int),initdecl(name t)),";
    let e = "sizetype(typename(specs(enum(enumer t)),noname))";
    let mut wanted = spelled(alloc, front, tree, e)?;
    wanted.push_all(b")")?;
    match std::str::from_utf8(wanted.as_slice()) {
        Ok(wanted) => Ok(has_tree(alloc, unit.as_slice(), wanted)),
        Err(_) => Ok(false),
    }
}

#[test]
fn scopes_of_names(rt: HostRuntime) -> Result<(), Fail> {
    for (text, tree) in &SCOPED {
        assert!(rt; has_scopes(rt.alloc(), text, tree)?, "{text}");
    }
    Ok(())
}

#[test]
fn typedef_hidden(rt: HostRuntime) {
    let tree = "unit(declaration(specs(word typedef,word int),initdecl(name t)),\
                function(specs(word int),takes(name f,param(specs(word int),name t)),\
                block(return(binary *(paren(var t),int 2)))))";
    assert!(rt;
        has_tree(
            rt.alloc(),
            b"typedef int t;int f(int t){return (t)*2;}",
            tree
        )
    );
    let fault = ParseFault::Syntax { at: 7 };
    assert!(rt; has_fault(rt.alloc(), b"typedef int t;int x=t;", fault));
}

// Units without a tree, each with the number of the token that cannot stand there.
static FAULTS: [(&str, usize); 24] = [
    ("", 0),
    (";", 0),
    ("{}", 0),
    ("int", 1),
    ("int goto;", 1),
    ("int x y;", 2),
    ("int (int);", 2),
    ("struct{};", 2),
    ("int a[;", 3),
    ("int f(", 3),
    ("int f(void;", 4),
    ("int f(int());", 5),
    ("int x=1,;", 5),
    ("int f(){else;}", 5),
    ("int f(){case 1:;}", 5),
    ("int f(){return 1", 7),
    ("int f(){x+ =1;}", 7),
    ("int f(){f(,);}", 7),
    ("int f(){a?:b;}", 7),
    ("int f(){a+b=c;}", 8),
    ("int f(){(int);}", 8),
    ("int main(void){return 7}", 8),
    ("int f(){a=b=;}", 9),
    ("int f(){do a;while(b)}", 12),
];

#[test]
fn faults_of_reading(rt: HostRuntime) {
    for (text, at) in &FAULTS {
        let fault = ParseFault::Syntax { at: *at };
        assert!(rt; has_fault(rt.alloc(), text.as_bytes(), fault), "{text}");
    }
}

// Statements of `int f ( ) { S }` that have no tree there, each with the byte of the token that cannot stand there.
static REFUSED: [(&str, usize); 18] = [
    ("default : ;", 12),
    ("case 1 : ;", 12),
    ("switch x { }", 19),
    ("switch ( ) { }", 21),
    ("switch ( x ) case 1 : ;", 25),
    ("switch ( x ) { ; case 1 : ; }", 27),
    ("switch ( x ) { break ; }", 27),
    ("switch ( x ) { int y ; case 1 : ; }", 27),
    ("switch ( x ) { case : ; }", 32),
    ("switch ( x ) { case 1 , 2 : ; }", 34),
    ("switch ( x ) { default 1 : ; }", 35),
    ("switch ( x ) { case 1 : }", 36),
    ("switch ( x ) { case 1 : int y ; }", 36),
    ("switch ( x ) { case 1 : ; int y ; }", 38),
    ("switch ( x ) { case 1 : { case 2 : ; } }", 38),
    ("switch ( x ) { case 1 : ;", 39),
    ("switch ( x ) { case 1 : if ( y ) case 2 : ; }", 45),
    ("switch ( x ) { case 1 : ; default : }", 48),
];

// The text is refused at the token that begins at this byte, or at its end.
fn is_refused_at(alloc: Global, text: &[u8], byte: usize) -> bool {
    let Ok(tokens) = lex(alloc, text) else {
        return false;
    };
    let Err(ParseFault::Syntax { at }) = parse(alloc, &tokens) else {
        return false;
    };
    match tokens.as_slice().get(at) {
        Some(token) => token.start == byte,
        None => text.len() == byte,
    }
}

#[test]
fn refused_statements(rt: HostRuntime) -> Result<(), Fail> {
    for (text, byte) in &REFUSED {
        let unit = joined(rt.alloc(), &["int f ( ) { ", text, " }"])?;
        assert!(rt; is_refused_at(rt.alloc(), unit.as_slice(), *byte), "{text}");
    }
    Ok(())
}

// `int main(void){return ((0));}`, with so many pairs of parentheses.
fn nested(alloc: Global, pairs: usize) -> Result<Bytes, AllocError> {
    let mut text = repeated(alloc, "int main(void){return ", "(", pairs, "0")?;
    let end = repeated(alloc, "", ")", pairs, ";}")?;
    text.push_all(end.as_slice())?;
    Ok(text)
}

// The height of the tree of a text; 0 where it has none.
fn height_of(alloc: Global, text: &[u8]) -> usize {
    let Ok(tokens) = lex(alloc, text) else {
        return 0;
    };
    match parse(alloc, &tokens) {
        Ok(syntax) => syntax.height(),
        Err(_) => 0,
    }
}

#[test]
fn nested_parentheses(rt: HostRuntime) -> Result<(), Fail> {
    let low = nested(rt.alloc(), 495)?;
    assert_eq!(rt; height_of(rt.alloc(), low.as_slice()), 500);
    let high = nested(rt.alloc(), 496)?;
    let fault = ParseFault::TooDeep { at: 503 };
    assert!(rt; has_fault(rt.alloc(), high.as_slice(), fault));
    Ok(())
}

// Pieces that nest when they are repeated, each with the number of the token that is too deep.
static NESTS: [(&str, &str, usize); 6] = [
    ("int main(void){return ", "(", 503),
    ("int main(void)", "{", 504),
    ("int main(void){return ", "- ", 503),
    ("int ", "*", 499),
    ("int main(void){return ", "a[", 999),
    ("int main(void){return ", "1+", 999),
];

#[test]
fn deep_inputs(rt: HostRuntime) -> Result<(), Fail> {
    for (front, piece, at) in &NESTS {
        let text = repeated(rt.alloc(), front, piece, 100000, "1;}")?;
        let fault = ParseFault::TooDeep { at: *at };
        assert!(rt; has_fault(rt.alloc(), text.as_slice(), fault), "{piece}");
    }
    Ok(())
}
