//! Laws of sources, as contracts of calls that take no time.
ghost use Rattle.std.specs.Prelude.{◌≡◌, ◌≤◌, List, length};
ghost use Rattle.v_lexer.specs.Lexeme.{Lexeme};
ghost use Rattle.v_syntax.specs.ModuleTree.{PlainModule, parts_of};
ghost use Rattle.v_parser.specs.Modules.{IsSource};

/// Tokens have at most one tree.
pub fn one_source()
    ensures { (tokens : List Lexeme) (s r : List PlainModule) → IsSource tokens s → IsSource tokens r → s ≡ r }
{}

/// A tree has no more modules, ports and items than there are tokens.
pub fn few_parts()
    ensures { (tokens : List Lexeme) (s : List PlainModule) → IsSource tokens s → parts_of s ≤ length tokens }
{}
