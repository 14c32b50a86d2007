// What the name at a node denotes (C99 6.2.1).
ghost use Rattle.std.specs.Prelude.{◌≡◌, ◌<◌, None, get_or, length};
ghost use Rattle.c_names.specs.Denoted.{IsDenoted};
ghost use Rattle.c_symbols.specs.Symbols.{AreSymbols};
ghost use Rattle.c_uses.specs.Uses.{IsUsedName};

use c_names::DeclaredName;
use c_nodes::Nodes;
use c_symbols::Symbols;

/// A name that is used.
#[derive(Clone, Copy, Debug, PartialEq, Eq)]
pub struct UsedName {
    /// The node that declares it.
    pub node: usize,
    pub name: DeclaredName,
}

/// The node that declares what the name at a node denotes; at a node that is no use of a name, none.
pub fn denoted_at(nodes: &Nodes, symbols: &Symbols, number: usize) -> Option<usize>
    requires within { number < length nodes.now }
    requires symbols { AreSymbols nodes.now symbols.now }
    ensures { IsDenoted nodes.now number result }
{
    symbols.names.denoted[number]
}

/// What the name at a node denotes; at a node that is no use of a name, nothing.
pub fn used_name(nodes: &Nodes, symbols: &Symbols, number: usize) -> Option<UsedName>
    requires within { number < length nodes.now }
    requires symbols { AreSymbols nodes.now symbols.now }
    ensures { IsUsedName nodes.now number result }
{
    let Some(node) = denoted_at(nodes, symbols, number) else {
        return None;
    };
    match declared_by(&symbols.names.declared, node) {
        Some(name) => Some(UsedName { node, name }),
        None => None,
    }
}

fn declared_by(names: &[Option<DeclaredName>], node: usize) -> Option<DeclaredName>
    requires { node < length names.now }
    ensures { result ≡ get_or names.now node None }
{
    names[node]
}
