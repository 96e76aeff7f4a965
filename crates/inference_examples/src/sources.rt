// Sources that several tests use.

/// An object that is handed on by a call.
pub const HANDED: &str =
    "int *id(int *p) { return p; } int main(void) { int *a; a = malloc(sizeof(int)); a = id(a); free(a); return 0; }";

/// An object that is handed on by two calls of one procedure, and lost at the end.
pub const LOST_AFTER_TWO_CALLS: &str =
    "int *id(int *p) { return p; } int main(void) { int *a; int *b; int *c; a = malloc(sizeof(int)); b = id(a); c = id(b); return 0; }";

/// An object that a field of each of three structs holds, of which just one can own it.
pub const THREE_FIELDS: &str = "
struct a { char *s; struct b *b; };
struct b { char *s; struct c *c; };
struct c { char *s; };
struct a *make(void) {
  struct a *x = malloc(sizeof(struct a));
  struct b *y = malloc(sizeof(struct b));
  struct c *z = malloc(sizeof(struct c));
  char *t = malloc(4);
  x->s = t;
  y->s = t;
  z->s = t;
  y->c = z;
  x->b = y;
  return x;
}
int main(void) { return 0; }";

/// An object that is lost at the end.
pub const LEAK: &str = "int main(void) { int *p; p = malloc(sizeof(int)); return 0; }";

/// One that is freed twice.
pub const FREED_TWICE: &str =
    "int main(void) { int *p; p = malloc(sizeof(int)); free(p); free(p); return 0; }";

/// One whose owner is overwritten.
pub const OVERWRITTEN: &str =
    "int main(void) { int *p; p = malloc(sizeof(int)); p = malloc(sizeof(int)); free(p); return 0; }";

/// One that a called procedure has freed.
pub const FREED_BY_CALL: &str =
    "void drop(int *p) { free(p); } int main(void) { int *a; a = malloc(sizeof(int)); drop(a); free(a); return 0; }";

pub const CONFLICTS: [&str; 4] = [LEAK, FREED_TWICE, OVERWRITTEN, FREED_BY_CALL];

/// One procedure fills a field with an object of its own, another with a text; no procedure calls both.
pub const APART: &str = "
struct box { char *s; };
struct box *own(void) {
  struct box *b = malloc(sizeof(struct box));
  char *t = malloc(1);
  if (b == NULL) { free(t); return NULL; }
  b->s = t;
  return b;
}
struct box *lend(void) {
  struct box *b = malloc(sizeof(struct box));
  if (b == NULL) return NULL;
  b->s = \"x\";
  return b;
}
int main(void) { return 0; }";
