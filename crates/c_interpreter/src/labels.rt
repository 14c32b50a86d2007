// The group of a `switch` that a word jumps to.
ghost use Rattle.std.specs.Prelude.{◌≡◌, ◌==◌};
ghost use Rattle.std.specs.List.{list_any};
ghost use Rattle.c_meaning.specs.Meaning.{passed, groups_before};

use c_types::Group;

/// How many groups a jump to the label of this word passes.
pub fn passed(word: u32, groups: &[Group]) -> usize
    ensures { result ≡ passed word groups.now }
{
    let found = labelled(word, groups);
    if found < groups.len() {
        found
    } else {
        defaulted(groups)
    }
}

fn labelled(word: u32, groups: &[Group]) -> usize
    ensures { result ≡ groups_before (λ g. list_any (λ label. label == word) g.labels) groups.now }
{
    let mut before = 0;
    for group in groups {
        if has_label(group, word) {
            return before;
        }
        before += 1;
    }
    before
}

fn has_label(group: &Group, word: u32) -> bool
    ensures { result ≡ list_any (λ label. label == word) group.now.labels }
{
    group.labels.as_slice().iter().any(|label| *label == word)
}

fn defaulted(groups: &[Group]) -> usize
    ensures { result ≡ groups_before (λ g. g.other) groups.now }
{
    let mut before = 0;
    for group in groups {
        if group.other {
            return before;
        }
        before += 1;
    }
    before
}
