// Sources that several tables use.

pub const FREED: &str = "int main(void) { int *p; p = malloc(sizeof(int)); free(p); return 0; }";

pub const HANDED: &str =
    "int *id(int *p) { return p; } int main(void) { int *a; a = malloc(sizeof(int)); a = id(a); free(a); return 0; }";

/// A call of a body and one of an external procedure. At the first the base c is Fresh and the last argument is NULL; at the
/// second two arguments have the type of the bases.
pub const CALLED: &str = "
struct node { int v; struct node *next; };
void give(int n, struct node *p, struct node *q) { }
void tell(int n, struct node *p, struct node *q);
int main(void) {
  struct node *a = malloc(sizeof(struct node));
  struct node *b = a;
  struct node *c = malloc(sizeof(struct node));
  give(1, a, NULL);
  tell(2, b, c);
  return 0;
}";
