// The tags of units. The expected values are worked by hand from C99 6.2.1 and 6.7.2.3.
use crate::nodes::tree_of;
use c_nodes::Nodes;
use c_syntax::SynKind;
use c_tags::{Tag, by_first_token, is_known_enum, names_of, stands_twice, tags_of};
use std::alloc::{AllocError, Global};

// What a tag is to be: the index of the tag that declares what it names, and whether it is new, whether it clashes, and
// whether it has a second body.
type Wanted = (usize, bool, bool, bool);

// 0 `int`, 1 specs, 2 `a`, 3 the declarator with its initializer, 4 the declaration; 5 to 9 of `b`; 10 the unit.
static TWO: &str = "int a;int b;";

#[test]
fn roots_come_before_what_is_below_them(rt: HostRuntime) {
    let alloc = rt.alloc();
    assert!(rt; order_is(alloc, TWO, &[10, 4, 1, 0, 3, 2, 9, 6, 5, 8, 7]));
}

fn order_is(alloc: Global, text: &str, wanted: &[usize]) -> bool {
    let Some(syntax) = tree_of(alloc, text) else {
        return false;
    };
    let Ok(nodes) = Nodes::of(alloc, &syntax) else {
        return false;
    };
    matches!(by_first_token(alloc, &nodes), Ok(order) if order.as_slice() == wanted)
}

// The nodes of structs and enums that have a tag, in the order of their first tokens.
fn tagged(alloc: Global, nodes: &Nodes) -> Result<Vec<usize>, AllocError> {
    let order = by_first_token(alloc, nodes)?;
    let mut found = Vec::new(alloc);
    for number in &order {
        if *number < nodes.len() && has_tag(nodes, *number) {
            found.push(*number)?;
        }
    }
    Ok(found)
}

fn has_tag(nodes: &Nodes, number: usize) -> bool {
    if number < nodes.len() {
        matches!(
            nodes.kind_at(number),
            SynKind::StructSpec | SynKind::EnumSpec
        ) && nodes.node(number).text.as_slice().len() > 0
    } else {
        false
    }
}

fn is_tag(tag: Option<Tag>, numbers: &[usize], wanted: Wanted) -> bool {
    let Some(tag) = tag else {
        return false;
    };
    matches!(numbers.get(wanted.0), Some(number) if *number == tag.names)
        && tag.is_new == wanted.1
        && tag.clashes == wanted.2
        && tag.has_second_body == wanted.3
}

fn all_are(tags: &[Option<Tag>], numbers: &[usize], wanted: &[Wanted]) -> bool {
    for (index, number) in numbers.iter().enumerate() {
        let (Some(tag), Some(one)) = (tags.get(*number), wanted.get(index)) else {
            return false;
        };
        if !is_tag(*tag, numbers, *one) {
            return false;
        }
    }
    numbers.len() == wanted.len()
}

// The tags of a unit are these, and no other node has one.
fn tags_are(alloc: Global, text: &str, wanted: &[Wanted]) -> bool {
    let Some(syntax) = tree_of(alloc, text) else {
        return false;
    };
    let Ok(nodes) = Nodes::of(alloc, &syntax) else {
        return false;
    };
    let (Ok(tags), Ok(numbers)) = (tags_of(alloc, &nodes), tagged(alloc, &nodes)) else {
        return false;
    };
    all_are(&tags, &numbers, wanted)
        && tags.iter().filter(|tag| tag.is_some()).count() == numbers.len()
}

#[test]
fn tags_name_what_is_in_scope(rt: HostRuntime) {
    let alloc = rt.alloc();
    let first = (0, true, false, false);
    let again = (0, false, false, false);
    assert!(rt; tags_are(alloc, "int x;struct{int a;}y;", &[]));
    assert!(rt; tags_are(alloc, "struct s{int a;};struct s x;", &[first, again]));
    assert!(rt;
        tags_are(
            alloc,
            "struct s{struct s*n;};struct s x;",
            &[first, again, again]
        )
    );
    assert!(rt; tags_are(alloc, "enum e{A};enum e x;", &[first, again]));
    assert!(rt;
        tags_are(
            alloc,
            "struct s;void f(void){struct s*p;{struct s*q;}}",
            &[first, again, again]
        )
    );
}

#[test]
fn inner_scopes_have_tags_of_their_own(rt: HostRuntime) {
    let alloc = rt.alloc();
    let new = |index: usize| (index, true, false, false);
    let again = |index: usize| (index, false, false, false);
    let lone = "struct s;void f(void){struct s;struct s*p;}struct s*r;";
    assert!(rt; tags_are(alloc, lone, &[new(0), new(1), again(1), again(0)]));
    let body = "struct s*o;void f(void){struct s*p;struct s{int a;};struct s*q;}struct s*r;";
    assert!(rt; tags_are(alloc, body, &[new(0), again(0), new(2), again(2), again(0)]));
    let block = "void f(void){struct s*p;}struct s{int a;};";
    assert!(rt; tags_are(alloc, block, &[new(0), new(1)]));
    let parameters = "void f(struct s*p){struct s*q;}struct s*r;";
    assert!(rt; tags_are(alloc, parameters, &[new(0), again(0), new(2)]));
    let prototype = "void f(struct s*p);struct s*r;";
    assert!(rt; tags_are(alloc, prototype, &[new(0), new(1)]));
}

#[test]
fn kinds_clash_and_bodies_come_once(rt: HostRuntime) {
    let alloc = rt.alloc();
    let first = (0, true, false, false);
    let clash = (0, false, true, false);
    let twice = (0, false, false, true);
    assert!(rt; tags_are(alloc, "enum e{A};struct e x;", &[first, clash]));
    assert!(rt; tags_are(alloc, "struct s{int a;};struct s{int b;};", &[first, twice]));
    assert!(rt;
        tags_are(
            alloc,
            "struct s;struct s{int b;};",
            &[first, (0, false, false, false)]
        )
    );
    assert!(rt;
        tags_are(
            alloc,
            "struct s{int a;};enum s{A};struct s x;",
            &[first, (0, false, true, true), clash]
        )
    );
}

#[test]
fn what_a_tag_says(rt: HostRuntime) {
    let tag = Tag {
        names: 3,
        is_new: true,
        clashes: false,
        has_second_body: false,
    };
    assert_eq!(rt; names_of(7, Some(tag)), 3);
    assert_eq!(rt; names_of(7, None), 7);
    assert!(rt; !stands_twice(Some(tag)) && !stands_twice(None));
    assert!(rt;
        stands_twice(Some(Tag {
            clashes: true,
            ..tag
        }))
    );
    assert!(rt;
        stands_twice(Some(Tag {
            has_second_body: true,
            ..tag
        }))
    );
    assert!(rt; is_known_enum(true, Some(tag)) && !is_known_enum(false, Some(tag)));
    assert!(rt;
        is_known_enum(
            false,
            Some(Tag {
                is_new: false,
                ..tag
            })
        ) && is_known_enum(false, None)
    );
}
