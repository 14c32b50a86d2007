// What is told of a tag.
ghost use Rattle.std.specs.Prelude.{◌≡◌, Option, option_map};
ghost use Rattle.c_typing.specs.Places.{Node, has_kid};
ghost use Rattle.c_typing.specs.Names as names;
ghost use Rattle.c_typing.specs.Names.{Places};
ghost use Rattle.c_typing.specs.Declarators as rules;
ghost use Rattle.c_typing.specs.Declarators.{tag_faults, tag_names};
ghost use Rattle.c_typing.specs.Rules as faults;
ghost use Rattle.c_tags.specs.Tags.{told};

/// A tag at its node.
#[derive(Clone, Copy, Debug, PartialEq, Eq)]
pub struct Tag {
    /// The node that declares what it names.
    pub names: usize,
    /// None was in scope before, or a new one is declared.
    pub is_new: bool,
    /// What it names was declared as the other kind.
    pub clashes: bool,
    /// It has a body, and what it names had one before.
    pub has_second_body: bool,
}

/// The node that declares what the specifier at a node names.
pub fn names_of(node: usize, tag: Option<Tag>) -> usize
    ensures { (p : Places) (m : Node) (e : Option names.Tag) → m.id ≡ node → tag ≡ option_map (told p) e → result ≡ tag_names m e }
{
    match tag {
        Some(tag) => tag.names,
        None => node,
    }
}

/// The tag names what was declared as the other kind, or what has a body already.
pub fn stands_twice(tag: Option<Tag>) -> bool
    ensures { (p : Places) (m : Node) (e : Option names.Tag) → tag ≡ option_map (told p) e → tag_faults p m e ≡ faults.stands_twice result m.id }
{
    match tag {
        Some(tag) => tag.clashes || tag.has_second_body,
        None => false,
    }
}

/// An enum has a body, or its tag names one that is in scope.
pub fn is_known_enum(has_body: bool, tag: Option<Tag>) -> bool
    ensures { (p : Places) (m : Node) (e : Option names.Tag) → has_kid m 0 ≡ has_body → tag ≡ option_map (told p) e → result ≡ rules.is_known_enum m e }
{
    match tag {
        Some(tag) => has_body || !tag.is_new,
        None => true,
    }
}
