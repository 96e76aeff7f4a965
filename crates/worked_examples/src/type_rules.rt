// The rules of types: sources that break one, and sources that come near it.
use crate::harness::refused_with;
use std::test::Fail;

/// A source of one line, the byte from 0 of the node to which its first broken rule belongs, and the
/// rule's number.
struct Broken {
    source: &'static [u8],
    at: u32,
    rule: u32,
}

const BREACHES: [Broken; 90] = [
    Broken {
        source: b"struct s { int a; }; struct s { int a; }; int main(void) { return 0; }",
        at: 21,
        rule: 1,
    },
    Broken {
        source: b"struct s { int a; }; struct t { int a; }; static struct s { char *b; }; int main(void) { return 0; }",
        at: 49,
        rule: 1,
    },
    Broken {
        source: b"struct s { int a; char a; }; int main(void) { return 0; }",
        at: 23,
        rule: 2,
    },
    Broken {
        source: b"struct s { int a, *b, c, *b; }; int main(void) { return 0; }",
        at: 25,
        rule: 2,
    },
    Broken {
        source: b"int f(int a); int f(char a) { return a; } int main(void) { return 0; }",
        at: 14,
        rule: 3,
    },
    Broken {
        source: b"int f(int a); int f(int b) { return b; } int f(int c) { return c; } int main(void) { return 0; }",
        at: 41,
        rule: 3,
    },
    Broken {
        source: b"int f(int a) { return a; } static char f(int a); int main(void) { return 0; }",
        at: 34,
        rule: 3,
    },
    Broken {
        source: b"int *f(int n); int main(void) { return 0; }",
        at: 0,
        rule: 4,
    },
    Broken {
        source: b"int g(void); extern struct s *f(void); int main(void) { return 0; }",
        at: 20,
        rule: 4,
    },
    Broken {
        source: b"int f(int a, int a); int main(void) { return 0; }",
        at: 13,
        rule: 5,
    },
    Broken {
        source: b"void f(void) { int x; char x; } int main(void) { return 0; }",
        at: 27,
        rule: 5,
    },
    Broken {
        source: b"void f(int a) { int a; } int main(void) { return 0; }",
        at: 20,
        rule: 5,
    },
    Broken {
        source: b"void f(void) { for (int i = 0, i = 1; i < 2; i++) ; } int main(void) { return 0; }",
        at: 31,
        rule: 5,
    },
    Broken {
        source: b"void f(void) { x = 1; } int main(void) { return 0; }",
        at: 15,
        rule: 6,
    },
    Broken {
        source: b"int f(void) { return g(); } int main(void) { return 0; }",
        at: 21,
        rule: 6,
    },
    Broken {
        source: b"void f(void) { { int x; x = 1; } x = 1; } int main(void) { return 0; }",
        at: 33,
        rule: 6,
    },
    Broken {
        source: b"void f(void) { for (int i = 0; i < 2; i++) ; i = 1; } int main(void) { return 0; }",
        at: 45,
        rule: 6,
    },
    Broken {
        source: b"void f(void) { int a = b, b; } int main(void) { return 0; }",
        at: 23,
        rule: 6,
    },
    Broken {
        source: b"int g(int a); int f(void) { return g(); } int main(void) { return 0; }",
        at: 35,
        rule: 7,
    },
    Broken {
        source: b"void g(int *a); void f(void) { g(1); } int main(void) { return 0; }",
        at: 31,
        rule: 7,
    },
    Broken {
        source: b"void g(int a); void f(void) { g(NULL); } int main(void) { return 0; }",
        at: 30,
        rule: 7,
    },
    Broken {
        source: b"struct s { int a; }; int f(struct s *p) { return p->b; } int main(void) { return 0; }",
        at: 49,
        rule: 8,
    },
    Broken {
        source: b"int f(int *p) { return p->a; } int main(void) { return 0; }",
        at: 23,
        rule: 8,
    },
    Broken {
        source: b"int f(struct s *p) { return p->a; } int main(void) { return 0; }",
        at: 28,
        rule: 8,
    },
    Broken {
        source: b"int f(void) { return NULL->a; } int main(void) { return 0; }",
        at: 21,
        rule: 8,
    },
    Broken {
        source: b"int f(int n) { return n[0]; } int main(void) { return 0; }",
        at: 22,
        rule: 9,
    },
    Broken {
        source: b"int f(int *p, int *q) { return p[q]; } int main(void) { return 0; }",
        at: 31,
        rule: 9,
    },
    Broken {
        source: b"int f(int *p) { return p[NULL]; } int main(void) { return 0; }",
        at: 23,
        rule: 9,
    },
    Broken {
        source: b"int f(int *p) { return -p; } int main(void) { return 0; }",
        at: 23,
        rule: 10,
    },
    Broken {
        source: b"int f(int *p) { return p + 1; } int main(void) { return 0; }",
        at: 23,
        rule: 10,
    },
    Broken {
        source: b"int f(int *p, int *q) { return p < q; } int main(void) { return 0; }",
        at: 31,
        rule: 10,
    },
    Broken {
        source: b"int f(void) { return 1 - NULL; } int main(void) { return 0; }",
        at: 21,
        rule: 10,
    },
    Broken {
        source: b"int f(int *p, char *q) { return p == q; } int main(void) { return 0; }",
        at: 32,
        rule: 11,
    },
    Broken {
        source: b"int f(int n) { return n == NULL; } int main(void) { return 0; }",
        at: 22,
        rule: 11,
    },
    Broken {
        source: b"int f(void) { return NULL == NULL; } int main(void) { return 0; }",
        at: 21,
        rule: 11,
    },
    Broken {
        source: b"int f(void) { return 0 != NULL; } int main(void) { return 0; }",
        at: 21,
        rule: 11,
    },
    Broken {
        source: b"int f(int *p) { return p == 1 - 1; } int main(void) { return 0; }",
        at: 23,
        rule: 11,
    },
    Broken {
        source: b"int f(void) { if (NULL) return 0; return 1; } int main(void) { return 0; }",
        at: 14,
        rule: 12,
    },
    Broken {
        source: b"int f(void) { return !NULL; } int main(void) { return 0; }",
        at: 21,
        rule: 12,
    },
    Broken {
        source: b"void f(void) { for (; NULL; ) ; } int main(void) { return 0; }",
        at: 15,
        rule: 12,
    },
    Broken {
        source: b"int f(int n) { return n && NULL; } int main(void) { return 0; }",
        at: 22,
        rule: 12,
    },
    Broken {
        source: b"int main(void) { int x; x = malloc(4); return 0; }",
        at: 24,
        rule: 13,
    },
    Broken {
        source: b"void f(void) { int *p = 1; } int main(void) { return 0; }",
        at: 19,
        rule: 13,
    },
    Broken {
        source: b"void f(int n) { n = NULL; } int main(void) { return 0; }",
        at: 16,
        rule: 13,
    },
    Broken {
        source: b"void f(int *p, char *q) { p = q; } int main(void) { return 0; }",
        at: 26,
        rule: 13,
    },
    Broken {
        source: b"void f(void) { struct t *p; p = malloc(sizeof(struct t)); } int main(void) { return 0; }",
        at: 32,
        rule: 14,
    },
    Broken {
        source: b"void f(void) { int *p; p = (char *)malloc(sizeof(int)); } int main(void) { return 0; }",
        at: 27,
        rule: 14,
    },
    Broken {
        source: b"struct t { int a; }; void f(int n) { struct t *p = calloc(n, sizeof(struct t)); } int main(void) { return 0; }",
        at: 51,
        rule: 14,
    },
    Broken {
        source: b"struct t { int a; }; void f(void) { struct t *p = malloc(1 * sizeof(struct t)); } int main(void) { return 0; }",
        at: 50,
        rule: 14,
    },
    Broken {
        source: b"void f(int *p) { int *q = malloc(p * sizeof(int)); } int main(void) { return 0; }",
        at: 26,
        rule: 14,
    },
    Broken {
        source: b"void f(void) { int *q = malloc(sizeof *x); } int main(void) { return 0; }",
        at: 24,
        rule: 14,
    },
    Broken {
        source: b"void f(int n) { int *q = malloc(sizeof *n); } int main(void) { return 0; }",
        at: 25,
        rule: 14,
    },
    Broken {
        source: b"void f(int n) { free(n); } int main(void) { return 0; }",
        at: 16,
        rule: 15,
    },
    Broken {
        source: b"void f(void) { free(NULL); } int main(void) { return 0; }",
        at: 15,
        rule: 15,
    },
    Broken {
        source: b"void f(void) { free(0); } int main(void) { return 0; }",
        at: 15,
        rule: 15,
    },
    Broken {
        source: b"void f(void) { return 1; } int main(void) { return 0; }",
        at: 15,
        rule: 16,
    },
    Broken {
        source: b"int f(void) { return; } int main(void) { return 0; }",
        at: 14,
        rule: 16,
    },
    Broken {
        source: b"char *f(int *p) { return p; } int main(void) { return 0; }",
        at: 18,
        rule: 16,
    },
    Broken {
        source: b"int f(void) { return NULL; } int main(void) { return 0; }",
        at: 14,
        rule: 16,
    },
    Broken {
        source: b"void f(void) { return x; } int main(void) { return 0; }",
        at: 15,
        rule: 16,
    },
    Broken {
        source: b"void f(void) { break; } int main(void) { return 0; }",
        at: 15,
        rule: 17,
    },
    Broken {
        source: b"void f(int n) { while (n) { n = 0; } continue; } int main(void) { return 0; }",
        at: 37,
        rule: 17,
    },
    Broken {
        source: b"void g(void); int f(void) { return g(); } int main(void) { return 0; }",
        at: 35,
        rule: 18,
    },
    Broken {
        source: b"void g(void); void f(int n) { n = g(); } int main(void) { return 0; }",
        at: 34,
        rule: 18,
    },
    Broken {
        source: b"int f(void) { return NULL == y; } int main(void) { return 0; }",
        at: 21,
        rule: 19,
    },
    Broken {
        source: b"void g(void); int f(void) { return NULL != g(); } int main(void) { return 0; }",
        at: 35,
        rule: 19,
    },
    Broken {
        source: b"void f(void) { x = 1; break; } int main(void) { return 0; }",
        at: 15,
        rule: 6,
    },
    Broken {
        source: b"void f(void) { break; x = 1; } int main(void) { return 0; }",
        at: 15,
        rule: 17,
    },
    Broken {
        source: b"int f(int a); char f(int a, int a); int main(void) { return 0; }",
        at: 14,
        rule: 3,
    },
    Broken {
        source: b"void f(void) { while (NULL) { break; x = 1; } } int main(void) { return 0; }",
        at: 15,
        rule: 12,
    },
    Broken {
        source: b"void f(int a) { int *a = 1; } int main(void) { return 0; }",
        at: 20,
        rule: 5,
    },
    Broken {
        source: b"struct s { int a, a; }; int f(void) { return x; } int main(void) { return 0; }",
        at: 18,
        rule: 2,
    },
    Broken {
        source: b"int f(void) { return x; } struct s { int a, a; }; int main(void) { return 0; }",
        at: 21,
        rule: 6,
    },
    Broken {
        source: b"int *f(int n); int *f(int n); int main(void) { return 0; }",
        at: 0,
        rule: 4,
    },
    Broken {
        source: b"void f(int *a) { { int a; free(a); } } int main(void) { return 0; }",
        at: 26,
        rule: 15,
    },
    Broken {
        source: b"void f(int a) { { int *a; free(a); } free(a); } int main(void) { return 0; }",
        at: 37,
        rule: 15,
    },
    Broken {
        source: b"void f(int *a) { { int a; { char *a; a = NULL; } a = NULL; } } int main(void) { return 0; }",
        at: 49,
        rule: 13,
    },
    Broken {
        source: b"void f(void) { { int x; x = 1; } { int *x; x = 1; } } int main(void) { return 0; }",
        at: 43,
        rule: 13,
    },
    Broken {
        source: b"void f(int x) { { free(x); int *x; } } int main(void) { return 0; }",
        at: 18,
        rule: 15,
    },
    Broken {
        source: b"int f(void) { return NULL[0]; } int main(void) { return 0; }",
        at: 21,
        rule: 9,
    },
    Broken {
        source: b"int f(void) { return -NULL; } int main(void) { return 0; }",
        at: 21,
        rule: 10,
    },
    Broken {
        source: b"int f(void) { return NULL < 1; } int main(void) { return 0; }",
        at: 21,
        rule: 10,
    },
    Broken {
        source: b"int f(int n) { return NULL || n; } int main(void) { return 0; }",
        at: 22,
        rule: 12,
    },
    Broken {
        source: b"void f(void) { int *p = -0; } int main(void) { return 0; }",
        at: 19,
        rule: 13,
    },
    Broken {
        source: b"void f(int *p) { p[0] = NULL; } int main(void) { return 0; }",
        at: 17,
        rule: 13,
    },
    Broken {
        source: b"void f(void) { char *p = malloc(NULL); } int main(void) { return 0; }",
        at: 25,
        rule: 14,
    },
    Broken {
        source: b"void f(void) { int *p = malloc(NULL * sizeof(int)); } int main(void) { return 0; }",
        at: 24,
        rule: 14,
    },
    Broken {
        source: b"void f(void) { return NULL; } int main(void) { return 0; }",
        at: 15,
        rule: 16,
    },
    Broken {
        source: b"void g(void); void f(void) { g(NULL); } int main(void) { return 0; }",
        at: 29,
        rule: 7,
    },
    Broken {
        source: b"void f(void) { h(NULL); } int main(void) { return 0; }",
        at: 15,
        rule: 6,
    },
];

/// Sources that break no rule.
const NEAR: [&[u8]; 26] = [
    b"struct s { int a; }; struct t { int a; }; int main(void) { return 0; }",
    b"int f(int a); int f(const int b); static int f(int c) { return c; } int main(void) { return 0; }",
    b"int *f(int n); int *f(int n) { return 0; } int main(void) { return 0; }",
    b"void f(int a) { { int a; a = 1; } for (int a = 0; a < 2; a++) { int a; a = 1; } } int main(void) { return 0; }",
    b"int f(void) { int x = x; return g(x); } int g(int n); int main(void) { return 0; }",
    b"void g(int *a, char c); void f(void) { g(0, 300); g(NULL, 'c'); } int main(void) { return 0; }",
    b"struct s { struct s *n; int a; }; int f(struct s *p) { return p->n->n->a; } int main(void) { return 0; }",
    b"int f(char *p, char c) { return p[c] + \"ab\"[0]; } int main(void) { return 0; }",
    b"int f(char c) { return -c + 1 * 2 % 3; } int main(void) { return 0; }",
    b"int f(int *p) { return p == 0 && NULL != p && '\\0' == p && p == p; } int main(void) { return 0; }",
    b"int f(int *p) { if (p) return 0; while (p && 1) ; for (; p; ) ; return !p || 0; } int main(void) { return 0; }",
    b"void f(void) { int *p = 0, *q = NULL; char c; c = 300; p = q; p = '\\0'; } int main(void) { return 0; }",
    b"struct t { int a; }; void f(int n) { struct t *p; int *q; char *s; p = (struct t *)calloc(1, sizeof *p); q = malloc(n * sizeof(int)); s = calloc(n, 1); s = malloc(n); free(p); } int main(void) { return 0; }",
    b"void f(struct u *q) { q = malloc(sizeof *q); } int main(void) { return 0; }",
    b"void f(int *p) { free(p); free(malloc(1)); } int main(void) { return 0; }",
    b"int *f(int n) { if (n) return 0; return NULL; } void g(void) { return; } int main(void) { return 0; }",
    b"void f(int n) { while (n) { if (n) break; continue; } for (;;) break; } int main(void) { return 0; }",
    b"void g(void); void f(void) { g(); } int main(void) { return 0; }",
    b"int f(int *p) { return NULL == p; } int main(void) { return 0; }",
    b"int main(void) { int x; { int x; x = 1; } return x; }",
    b"int f(void) { return g(1); } int g(int n) { return n; } int main(void) { return 0; }",
    b"void f(struct a *p) { p = p->b; } struct a { struct a *b; }; int main(void) { return 0; }",
    b"int f(int f) { struct f *g; g = NULL; return f; } struct f { int f; }; int main(void) { return 0; }",
    b"void f(int *x) { { free(x); int x = x; x = 1; } free(x); } int main(void) { return 0; }",
    b"void f(char *x) { for (int x = 0; x < 2; x++) { int *x; x = NULL; } x = NULL; } int main(void) { return 0; }",
    b"struct s { struct s *n; }; void f(struct s *p) { p->n = NULL; if (NULL != p->n) p->n = 0; } int main(void) { return 0; }",
];

#[test]
fn the_first_broken_rule_is_named(rt: HostRuntime) -> Result<(), Fail> {
    for broken in &BREACHES {
        let (column, rule) = (broken.at as u64 + 1, broken.rule);
        let line = format!(in rt.alloc(); "1:{column}: type rule {rule}\n")?;
        let given = refused_with(rt.alloc(), broken.source)?;
        assert_eq!(rt; given.as_slice(), line.as_bytes());
    }
    for source in &NEAR {
        let given = refused_with(rt.alloc(), source)?;
        assert_eq!(rt; given.len(), 0);
    }
    Ok(())
}
