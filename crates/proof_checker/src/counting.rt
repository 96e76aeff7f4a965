use transfer_rules::Scope;

/// Which constraints count: all, or those of a scope.
#[derive(Clone, Copy)]
pub(crate) enum Counting<'a> {
    All,
    In(&'a Scope),
}
