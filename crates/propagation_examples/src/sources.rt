// Sources that several tables use.
use example_sources::{CONSTRUCTOR, JOIN, KEPT_CYCLE, LIST, MUTUAL};

pub const FREED: &str = "int main(void) { int *p; p = malloc(sizeof(int)); free(p); return 0; }";

/// An object that is lost at the end of `main`.
pub const LEAK: &str = "int main(void) { int *p; p = malloc(sizeof(int)); return 0; }";

pub const TWICE: &str =
    "int main(void) { int *p; p = malloc(sizeof(int)); free(p); free(p); return 0; }";

const COPIED: &str =
    "int main(void) { int *p; int *q; p = malloc(sizeof(int)); q = p; free(q); return 0; }";

/// An object that `mk` hands out and `main` loses.
pub const MADE: &str =
    "int *mk(void) { int *p; p = malloc(sizeof(int)); return p; } int main(void) { int *q; q = mk(); return 0; }";

/// An object that is handed on by a call.
pub const HANDED: &str =
    "int *id(int *p) { return p; } int main(void) { int *a; a = malloc(sizeof(int)); a = id(a); free(a); return 0; }";

/// One procedure that is called with an owner and without.
const TWO_WAYS: &str =
    "int *id(int *p) { return p; } int main(void) { int *a; int *b; int *c; a = malloc(sizeof(int)); b = id(a); c = id(b); free(b); return 0; }";

pub const TWO_BASES: &str = "
struct node { int v; struct node *next; };
void cut(struct node *prev) {
  struct node *cur;
  struct node *rest;
  cur = prev->next;
  rest = cur->next;
  prev->next = rest;
  free(cur);
}
int main(void) { return 0; }";

const TREE: &str = "
struct tree { struct tree *l; struct tree *r; };
void tree_free(struct tree *t) {
  if (t == NULL) return;
  tree_free(t->l);
  tree_free(t->r);
  free(t);
}
int main(void) { return 0; }";

const READ_FREED: &str =
    "struct s { int v; }; int main(void) { struct s *p; int n; p = malloc(sizeof(struct s)); free(p); n = p->v; return n; }";

/// One procedure fills a field with an object of its own, another with a text; no procedure calls both.
pub const APART: &str = "
struct box { char *s; };
struct box *own(void) {
  struct box *b = malloc(sizeof(struct box));
  char *t = malloc(1);
  if (b == NULL) { free(t); return NULL; }
  b->s = t;
  return b;
}
struct box *lend(void) {
  struct box *b = malloc(sizeof(struct box));
  if (b == NULL) return NULL;
  b->s = \"x\";
  return b;
}
int main(void) { return 0; }";

/// Sources in which the owners can be told.
pub const ACCEPTED: [&str; 10] = [
    FREED,
    COPIED,
    JOIN,
    CONSTRUCTOR,
    LIST,
    TWO_WAYS,
    MUTUAL,
    TREE,
    KEPT_CYCLE,
    READ_FREED,
];
