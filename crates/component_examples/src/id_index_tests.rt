use id_index::Index;

/// An id gets a label in place of one that it had, where room for it was made before.
fn label(index: &mut Index, id: u32, before: Option<u64>, after: Option<u64>) -> bool {
    if index.make_key(id, after).is_err() {
        return false;
    }
    index.relabel(id, before, after);
    true
}

/// The index tells that this is the least id with the label, or that there is none.
fn first_is(index: &Index, label: u64, id: Option<u32>) -> bool {
    index.first(label) == Some(id)
}

/// Two ids get a label, the lesser one last.
fn labels_two(index: &mut Index) -> bool {
    let is_first = label(index, 9, None, Some(70)) && first_is(index, 70, Some(9));
    let is_alone = first_is(index, 71, None);
    is_first && is_alone && label(index, 4, None, Some(70)) && first_is(index, 70, Some(4))
}

/// The lesser one gets another label.
fn labels_anew(index: &mut Index) -> bool {
    let is_given = label(index, 4, Some(70), Some(71));
    is_given && first_is(index, 70, Some(9)) && first_is(index, 71, Some(4))
}

/// Nothing is told where room for an id that hasn't the label yet stands first.
fn waits_for_its_label(index: &mut Index) -> bool {
    if index.make_key(3, Some(71)).is_err() {
        return false;
    }
    let before = index.first(71);
    index.relabel(3, None, Some(71));
    before == None && first_is(index, 71, Some(3))
}

/// What an index tells as ids get labels, one after the other.
fn tells_the_least(index: &mut Index) -> [bool; 5] {
    [
        first_is(index, 70, None),
        labels_two(index),
        labels_anew(index),
        waits_for_its_label(index),
        label(index, 9, Some(70), None) && first_is(index, 70, None),
    ]
}

#[test]
fn the_least_id_with_a_label_is_told(rt: HostRuntime) {
    let mut index = Index::new(rt.alloc());
    assert!(rt; tells_the_least(&mut index) == [true; 5]);
}
