//! Sources that several examples use.
//!
//! This crate has constants alone; the crates of examples stand on it.
#![tactic(auto)]

/// The most bytes that a source may have.
pub const MOST_BYTES: usize = 4_194_304;

/// A node that refers to itself.
pub const KEPT_CYCLE: &str =
    "struct node { int v; struct node *next; };\nint main(void) {\n  struct node *a = malloc(sizeof(struct node));\n  if (a == NULL) return 0;\n  a->next = a;\n  return 0;\n}";

/// A pointer that is null or has an object.
pub const JOIN: &str =
    "int pick(void);\nint main(void) {\n  int *p = NULL;\n  if (pick()) p = malloc(sizeof(int));\n  free(p);\n  return 0;\n}";

/// A struct whose field is filled by a call.
pub const CONSTRUCTOR: &str =
    "struct person { char *name; };\nchar *dup(char *s) { char *d; d = malloc(8); return d; }\nstruct person *person_new(char *s) {\n  struct person *p = malloc(sizeof(struct person));\n  if (!p) return NULL;\n  p->name = dup(s);\n  if (p->name == NULL) { free(p); return NULL; }\n  return p;\n}\nint main(void) {\n  struct person *q = person_new(\"ada\");\n  char *n;\n  if (q == NULL) return 0;\n  n = q->name;\n  free(n);\n  free(q);\n  return 0;\n}";

/// A list that is built and released in loops.
pub const LIST: &str =
    "struct node { int v; struct node *next; };\nstruct node *push(struct node *list, int v) {\n  struct node *n = malloc(sizeof(struct node));\n  if (n == NULL) return list;\n  n->v = v;\n  n->next = list;\n  return n;\n}\nvoid list_free(struct node *list) {\n  struct node *next;\n  while (list != NULL) {\n    next = list->next;\n    free(list);\n    list = next;\n  }\n}\nint main(void) {\n  struct node *list = NULL;\n  int i;\n  for (i = 0; i < 10; i++)\n    list = push(list, i);\n  list_free(list);\n  return 0;\n}";

/// Two calls of one procedure.
pub const TWICE: &str =
    "int *id(int *p) { return p; } int main(void) { int *a; int *b; int *c; a = malloc(sizeof(int)); b = id(a); c = id(b); free(b); return 0; }";

/// Two procedures that call one another.
pub const MUTUAL: &str =
    "struct node { int v; struct node *next; }; void odd(struct node *p); void even(struct node *p) { struct node *q; if (p == NULL) return; q = p->next; free(p); odd(q); } void odd(struct node *p) { struct node *q; if (p == NULL) return; q = p->next; free(p); even(q); } int main(void) { even(NULL); return 0; }";
