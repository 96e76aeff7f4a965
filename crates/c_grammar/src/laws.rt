ghost use Rattle.c_grammar.specs.Laws.{HasOneTree, HasFormedTree, HasSmallTree};

/// Tokens spell at most one tree of a depth of at most 200; it is formed where each name token holds a name, and its parts
/// are at most four times as many as the tokens.
pub fn spelling_laws()
    ensures one { HasOneTree }
    ensures formed { HasFormedTree }
    ensures small { HasSmallTree }
{}
