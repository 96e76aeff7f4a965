// Trees of sources: every sentence of the grammar, with the shape of what it spells.
use crate::harness::tree_of;
use crate::shapes::{Detail, shape};
use std::alloc::Global;
use std::test::Fail;

/// Files, and the shapes of their structs and procedures.
const FILES: [(&str, &str); 16] = [
    ("", ""),
    ("struct t;", ""),
    ("struct s { int a; };", "(struct s (a int))\n"),
    (
        "struct s { int a, *b; char c, *d; struct t *e, *f; };",
        "(struct s (a int) (b int*) (c char) (d char*) (e t*) (f t*))\n",
    ),
    (
        "static struct s { char a; }; extern struct t; static extern static struct u { char a; };",
        "(struct s (a char))\n(struct u (a char))\n",
    ),
    (
        "struct s { const int a; int const b; const const char const *const const c; struct s const *d; const struct s *e; };",
        "(struct s (a int) (b int) (c char*) (d s*) (e s*))\n",
    ),
    ("void f();", "(proc void f (params) _)\n"),
    ("int f(void);", "(proc int f (params) _)\n"),
    ("char *f(int);", "(proc char* f (params ( int)) _)\n"),
    (
        "static struct s *f(char *, struct s *, const char a);",
        "(proc s* f (params ( char*) ( s*) (a char)) _)\n",
    ),
    (
        "extern static const struct s const *const f(int a, int const *b);",
        "(proc s* f (params (a int) (b int*)) _)\n",
    ),
    ("void f() { }", "(proc void f (params) (block))\n"),
    (
        "static void f(void) { }",
        "(proc void f (params) (block))\n",
    ),
    (
        "char f(int a, char *b, struct s *c) { return a; }",
        "(proc char f (params (a int) (b char*) (c s*)) (block (return a)))\n",
    ),
    (
        "int f(int a); struct s { int a; }; int *g() { }",
        "(struct s (a int))\n(proc int f (params (a int)) _)\n(proc int* g (params) (block))\n",
    ),
    // Words that mean nothing, comments and an included file leave nothing.
    (
        "#include <stdlib.h>\n/* f */ extern int f(void); // f\nstruct s;",
        "(proc int f (params) _)\n",
    ),
];

/// What stands in a body, and the shapes of its statements.
const BODIES: [(&str, &str); 57] = [
    // Blocks and declarations.
    ("", ""),
    ("{ }", " (block)"),
    (
        "{ ; { } int a; }",
        " (block nothing (block) (local a int _))",
    ),
    ("int a;", " (local a int _)"),
    ("char *a;", " (local a char* _)"),
    ("struct s *a;", " (local a s* _)"),
    (
        "int a, *b, c;",
        " (local a int _) (local b int* _) (local c int _)",
    ),
    (
        "char a = 1, *b = NULL, c = a;",
        " (local a char 1) (local b char* NULL) (local c char a)",
    ),
    ("struct s *p, *q = p;", " (local p s* _) (local q s* p)"),
    (
        "const int a = 1 + 2; int const *const p; x = a; int b;",
        " (local a int (Add 1 2)) (local p int* _) (= x a) (local b int _)",
    ),
    // Assignments.
    ("x = 1;", " (= x 1)"),
    ("p->n = 1;", " (= (-> p n) 1)"),
    ("p->a->b = q->c;", " (= (-> (-> p a) b) (-> q c))"),
    ("p[i] = 1;", " (= (at p i) 1)"),
    ("p[i][j] = 1;", " (= (at (at p i) j) 1)"),
    ("p[0]->a[1] = 2;", " (= (at (-> (at p 0) a) 1) 2)"),
    ("(p)->n = 1;", " (= (-> p n) 1)"),
    ("((a || b))[0] = 1;", " (= (at (Or a b) 0) 1)"),
    ("f()->n = 1;", " (= (-> (call f) n) 1)"),
    ("f(1)[0] = 2;", " (= (at (call f 1) 0) 2)"),
    ("\"ab\"[0] = 'a';", " (= (at \"ab\" 0) 97)"),
    ("'a'[p] = 1;", " (= (at 97 p) 1)"),
    ("1[p] = 2;", " (= (at 1 p) 2)"),
    ("NULL->n = 1;", " (= (-> NULL n) 1)"),
    ("malloc(sizeof *p)->n = 1;", " (= (-> (malloc of *p) n) 1)"),
    (
        "(char *)calloc(1, 1)[0] = 1;",
        " (= (at (calloc as char* 1) 0) 1)",
    ),
    // One more and one less.
    ("x++;", " (= x (Add x 1))"),
    ("x--;", " (= x (Sub x 1))"),
    ("p->a->b++;", " (= (-> (-> p a) b) (Add (-> (-> p a) b) 1))"),
    ("p->n--;", " (= (-> p n) (Sub (-> p n) 1))"),
    // Calls, `free` and jumps.
    ("f();", " (do (call f))"),
    (
        "f(1, x + 1, g(), NULL);",
        " (do (call f 1 (Add x 1) (call g) NULL))",
    ),
    ("free(p);", " (free p)"),
    ("free((p->n));", " (free (-> p n))"),
    (";", " nothing"),
    (
        "break; continue; return; return x;",
        " break continue (return _) (return x)",
    ),
    // Each `else` belongs to the nearest `if` that can take it.
    ("if (a) x = 1;", " (if a (= x 1) _)"),
    ("if (a) ; else x = 2;", " (if a nothing (= x 2))"),
    (
        "if (a) if (b) x = 1; else x = 2;",
        " (if a (if b (= x 1) (= x 2)) _)",
    ),
    (
        "if (a) if (b) ; else ; else x = 3;",
        " (if a (if b nothing nothing) (= x 3))",
    ),
    (
        "if (a) ; else if (b) ; else if (c) ; else x = 4;",
        " (if a nothing (if b nothing (if c nothing (= x 4))))",
    ),
    (
        "if (a) { if (b) ; } else ;",
        " (if a (block (if b nothing _)) nothing)",
    ),
    (
        "if (a) while (b) if (c) ; else ;",
        " (if a (while b (if c nothing nothing)) _)",
    ),
    (
        "if (a) for (;;) if (b) ; else ; else ;",
        " (if a (for (first) _ _ (if b nothing nothing)) nothing)",
    ),
    ("if (a) { } if (b) ;", " (if a (block) _) (if b nothing _)"),
    // Loops.
    ("while (a) { }", " (while a (block))"),
    (
        "while (a && b) while ((c)) x = 1;",
        " (while (And a b) (while c (= x 1)))",
    ),
    ("for (;;) ;", " (for (first) _ _ nothing)"),
    (
        "for (i = 0; i < 3; i++) break;",
        " (for (first (= i 0)) (Lt i 3) (= i (Add i 1)) break)",
    ),
    (
        "for (int i = 0, *p; ; ) ;",
        " (for (first (local i int 0) (local p int* _)) _ _ nothing)",
    ),
    (
        "for (const struct s *p = q; p; ) { }",
        " (for (first (local p s* q)) p _ (block))",
    ),
    (
        "for (f(); ; g(1)) ;",
        " (for (first (do (call f))) _ (do (call g 1)) nothing)",
    ),
    (
        "for (free(p); !p; free(q)) ;",
        " (for (first (free p)) (Not p) (free q) nothing)",
    ),
    (
        "for (i--; ; p->n = 1) ;",
        " (for (first (= i (Sub i 1))) _ (= (-> p n) 1) nothing)",
    ),
    (
        "for (; a; p[0] = 1) ;",
        " (for (first) a (= (at p 0) 1) nothing)",
    ),
    (
        "for (; ; p->n--) ;",
        " (for (first) _ (= (-> p n) (Sub (-> p n) 1)) nothing)",
    ),
    (
        "for (;;) for (;;) continue;",
        " (for (first) _ _ (for (first) _ _ continue))",
    ),
];

/// Expressions and their shapes.
const VALUES: [(&str, &str); 78] = [
    // Operands.
    ("0", "0"),
    ("2147483647", "2147483647"),
    ("'a'", "97"),
    ("'\\0'", "0"),
    ("'\\''", "39"),
    ("\"\"", "\"\""),
    ("\"a\\\"b\"", "\"a\"b\""),
    ("NULL", "NULL"),
    ("x", "x"),
    ("(x)", "x"),
    ("((1))", "1"),
    ("f()", "(call f)"),
    ("f(x)", "(call f x)"),
    ("f(1, g(2, (3)), \"s\")", "(call f 1 (call g 2 3) \"s\")"),
    ("f(a || b, -c)", "(call f (Or a b) (Neg c))"),
    // Members and elements.
    ("p->a", "(-> p a)"),
    ("p->a->b", "(-> (-> p a) b)"),
    ("p[i]", "(at p i)"),
    ("p[i][a || b]", "(at (at p i) (Or a b))"),
    ("p->a[i]->b", "(-> (at (-> p a) i) b)"),
    ("f(x)->a", "(-> (call f x) a)"),
    ("(p)[0]", "(at p 0)"),
    ("(a + b)[0]", "(at (Add a b) 0)"),
    ("\"ab\"[1]", "(at \"ab\" 1)"),
    ("NULL->a", "(-> NULL a)"),
    ("1[p]", "(at 1 p)"),
    ("malloc(4)[0]", "(at (malloc 4) 0)"),
    ("(char *)malloc(4)[0]", "(at (malloc as char* 4) 0)"),
    // One operand.
    ("-x", "(Neg x)"),
    ("!x", "(Not x)"),
    ("!-!x", "(Not (Neg (Not x)))"),
    ("- -x", "(Neg (Neg x))"),
    ("-p->a", "(Neg (-> p a))"),
    ("!p[0]", "(Not (at p 0))"),
    ("-f(x)", "(Neg (call f x))"),
    ("!(a && b)", "(Not (And a b))"),
    // Two operands: each line of the grammar, to the left.
    ("a * b / c % d", "(Rem (Div (Mul a b) c) d)"),
    ("a + b - c", "(Sub (Add a b) c)"),
    ("a - b - c", "(Sub (Sub a b) c)"),
    ("a - (b - c)", "(Sub a (Sub b c))"),
    ("a < b <= c > d >= e", "(Ge (Gt (Le (Lt a b) c) d) e)"),
    ("a == b != c == d", "(Eq (Ne (Eq a b) c) d)"),
    ("a && b && c", "(And (And a b) c)"),
    ("a || b || c", "(Or (Or a b) c)"),
    // Each line before and after the next one.
    ("a + b * c - d", "(Sub (Add a (Mul b c)) d)"),
    ("a * b + c / d", "(Add (Mul a b) (Div c d))"),
    ("(a + b) * c", "(Mul (Add a b) c)"),
    ("a < b + c >= d", "(Ge (Lt a (Add b c)) d)"),
    ("a == b < c != d", "(Ne (Eq a (Lt b c)) d)"),
    ("a && b == c && d", "(And (And a (Eq b c)) d)"),
    ("a || b && c || d", "(Or (Or a (And b c)) d)"),
    (
        "a || b && c == d < e + f * -g",
        "(Or a (And b (Eq c (Lt d (Add e (Mul f (Neg g)))))))",
    ),
    (
        "!a * b + c < d == e && f || g",
        "(Or (And (Eq (Lt (Add (Mul (Not a) b) c) d) e) f) g)",
    ),
    ("a - -b", "(Sub a (Neg b))"),
    ("-a * !b", "(Mul (Neg a) (Not b))"),
    // Allocations of bytes.
    ("malloc(4)", "(malloc 4)"),
    ("malloc(n * 2)", "(malloc (Mul n 2))"),
    (
        "malloc(n * m + k / l)",
        "(malloc (Add (Mul n m) (Div k l)))",
    ),
    ("malloc(a || b)", "(malloc (Or a b))"),
    ("calloc(n + 1, 1)", "(calloc (Add n 1))"),
    // Units.
    ("malloc(sizeof(int))", "(malloc of int)"),
    ("malloc(sizeof(const char))", "(malloc of char)"),
    ("malloc(sizeof(struct s const))", "(malloc of struct s)"),
    ("malloc(sizeof *p)", "(malloc of *p)"),
    ("malloc(sizeof(*p))", "(malloc of *p)"),
    ("calloc(1, sizeof(struct s))", "(calloc of struct s 1)"),
    ("calloc(a || b, sizeof *p)", "(calloc of *p (Or a b))"),
    // How many units, on either side.
    ("malloc(sizeof *p * n)", "(malloc of *p n)"),
    ("malloc(n * sizeof *p)", "(malloc of *p n)"),
    ("malloc(sizeof(*p) * n / m)", "(malloc of *p (Div n m))"),
    ("malloc(n % m * sizeof(*p))", "(malloc of *p (Rem n m))"),
    ("malloc(sizeof(int) * n * m)", "(malloc of int (Mul n m))"),
    ("malloc(-n * sizeof(char))", "(malloc of char (Neg n))"),
    ("malloc((n + 1) * sizeof(int))", "(malloc of int (Add n 1))"),
    // Casts.
    ("(int *)malloc(4)", "(malloc as int* 4)"),
    (
        "((struct s *)malloc(sizeof(struct s)))",
        "(malloc as s* of struct s)",
    ),
    (
        "(const char const *const)calloc(n, 1)",
        "(calloc as char* n)",
    ),
    (
        "malloc(malloc(4)[0]) == f((int *)calloc(1, sizeof(int)))",
        "(Eq (malloc (at (malloc 4) 0)) (call f (calloc as int* of int 1)))",
    ),
];

/// Files with the bytes of every span.
const SPANS: [(&str, &str); 15] = [
    // An item begins after `static` and `extern` and ends with its `;`.
    (
        "static struct s { int a, *b; };",
        "(struct s (a int)@22-23 (b int*)@25-27)@7-31\n",
    ),
    (
        "extern int *f(const int a, char *);",
        "(proc int* f@12-13 (params (a int)@14-25 ( char*)@27-33) _@34-35)@7-35\n",
    ),
    (
        "int f(int const);",
        "(proc int f@4-5 (params ( int)@6-15) _@16-17)@0-17\n",
    ),
    // A declarator with its initialiser.
    (
        "void f(void) { int a = 1, *const b; }",
        "(proc void f@5-6 (params) (block (local a int 1@23-24)@19-24 (local b int* _)@26-34)@13-37@36-37)@0-37\n",
    ),
    // Parentheses around the whole of a node are no part of it, those in it are.
    (
        "void f(void) { x = (a + b) * c; }",
        "(proc void f@5-6 (params) (block (= x@15-16 (Mul (Add a@20-21 b@24-25)@20-25 c@29-30)@19-30)@15-30)@13-33@32-33)@0-33\n",
    ),
    (
        "void f(void) { (x)->n = (y); }",
        "(proc void f@5-6 (params) (block (= (-> x@16-17 n)@15-21 y@25-26)@15-27)@13-30@29-30)@0-30\n",
    ),
    (
        "void f(void) { x = -(y); }",
        "(proc void f@5-6 (params) (block (= x@15-16 (Neg y@21-22)@19-23)@15-23)@13-26@25-26)@0-26\n",
    ),
    (
        "void f(void) { x = g(a)[(i)]; }",
        "(proc void f@5-6 (params) (block (= x@15-16 (at (call g a@21-22)@19-23 i@25-26)@19-28)@15-28)@13-31@30-31)@0-31\n",
    ),
    // A cast is a part of the allocation.
    (
        "void f(void) { p = (int *)malloc((n) * sizeof(int)); }",
        "(proc void f@5-6 (params) (block (= p@15-16 (malloc as int* of int n@34-35)@19-51)@15-51)@13-54@53-54)@0-54\n",
    ),
    // Both copies of a path have its spans; what is made has the span of the statement.
    (
        "void f(void) { p->n++; }",
        "(proc void f@5-6 (params) (block (= (-> p@15-16 n)@15-19 (Add (-> p@15-16 n)@15-19 1@15-21)@15-21)@15-21)@13-24@23-24)@0-24\n",
    ),
    // Which statements end with their `;`.
    (
        "void f(void) { if (a) g(); else return; }",
        "(proc void f@5-6 (params) (block (if a@19-20 (do (call g)@22-25)@22-25 (return _)@32-39)@15-39)@13-41@40-41)@0-41\n",
    ),
    (
        "void f(void) { while (a) x = 1; }",
        "(proc void f@5-6 (params) (block (while a@22-23 (= x@25-26 1@29-30)@25-30)@15-31)@13-33@32-33)@0-33\n",
    ),
    (
        "void f(void) { for (i = 0; i; i++) ; }",
        "(proc void f@5-6 (params) (block (for (first (= i@20-21 0@24-25)@20-25) i@27-28 (= i@30-31 (Add i@30-31 1@30-33)@30-33)@30-33 nothing@35-36)@15-36)@13-38@37-38)@0-38\n",
    ),
    (
        "void f(void) { free((p)); break; }",
        "(proc void f@5-6 (params) (block (free p@21-22)@15-24 break@26-32)@13-34@33-34)@0-34\n",
    ),
    (
        "int f(void) { return (x); }",
        "(proc int f@4-5 (params) (block (return x@22-23)@14-25)@12-27@26-27)@0-27\n",
    ),
];

/// A file of several lines, and the line and the column at which each span starts.
const LINES: (&str, &str) = (
    "int\n  f(\n\tint a)\n{\n  a =\n1 + 2;\n}",
    "(proc int f@2:3 (params (a int)@3:2) (block (= a@5:3 (Add 1@6:1 2@6:5)@6:1)@5:3)@4:1@7:1)@1:1\n",
);

fn shape_of(alloc: Global, detail: Detail, source: &str) -> Result<String, Fail> {
    let tree = tree_of(alloc, source.as_bytes())?;
    Ok(shape(alloc, detail, &tree)?)
}

#[test]
fn files_have_their_shapes(rt: HostRuntime) -> Result<(), Fail> {
    for (source, expected) in &FILES {
        let given = shape_of(rt.alloc(), Detail::Nothing, source)?;
        assert_eq!(rt; given.as_str(), *expected, "in {source}");
    }
    Ok(())
}

#[test]
fn statements_have_their_shapes(rt: HostRuntime) -> Result<(), Fail> {
    for (body, expected) in &BODIES {
        let source = format!(in rt.alloc(); "void f(void) {{ {body} }}")?;
        let expected = format!(in rt.alloc(); "(proc void f (params) (block{expected}))\n")?;
        let given = shape_of(rt.alloc(), Detail::Nothing, source.as_str())?;
        assert_eq!(rt; given.as_str(), expected.as_str());
    }
    Ok(())
}

#[test]
fn expressions_have_their_shapes(rt: HostRuntime) -> Result<(), Fail> {
    for (value, expected) in &VALUES {
        let source = format!(in rt.alloc(); "void f(void) {{ x = {value}; }}")?;
        let expected = format!(in rt.alloc(); "(proc void f (params) (block (= x {expected})))\n")?;
        let given = shape_of(rt.alloc(), Detail::Nothing, source.as_str())?;
        assert_eq!(rt; given.as_str(), expected.as_str());
    }
    Ok(())
}

#[test]
fn spans_run_from_first_to_last_token(rt: HostRuntime) -> Result<(), Fail> {
    for (source, expected) in &SPANS {
        let given = shape_of(rt.alloc(), Detail::Bytes, source)?;
        assert_eq!(rt; given.as_str(), *expected, "in {source}");
    }
    let (source, expected) = LINES;
    let given = shape_of(rt.alloc(), Detail::Lines, source)?;
    assert_eq!(rt; given.as_str(), expected);
    Ok(())
}
