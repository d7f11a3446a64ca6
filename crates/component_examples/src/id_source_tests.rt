use id_source::*;

/// What is drawn of a space up to 65,535 whose last number alone is left: before its ceiling rises, and twice then.
fn draws_of_the_last_number() -> [Result<u32, IdError>; 3] {
    let mut sessions = Ids::from_ceiling(65_535, 65_534);
    let before = sessions.draw();
    sessions.raise(65_535);
    [before, sessions.draw(), sessions.draw()]
}

/// What is drawn of a new space, before its ceiling rises and then.
fn draws_of_the_first_number() -> [Result<u32, IdError>; 2] {
    let mut draws = Ids::new(u32::MAX);
    let before = draws.draw();
    draws.raise(64);
    [before, draws.draw()]
}

fn ceiling_of_a_raised_space() -> u32 {
    let mut draws = Ids::new(u32::MAX);
    draws.raise(64);
    let _ = draws.draw();
    draws.ceiling()
}

#[test]
fn a_space_ends_at_its_last_number(rt: HostRuntime) {
    let last = [
        Err(IdError::NeedCeiling { next: 65_535 }),
        Ok(65_535),
        Err(IdError::NoIds { drawn: 65_535 }),
    ];
    assert!(rt; draws_of_the_last_number() == last);
    let first = [Err(IdError::NeedCeiling { next: 1 }), Ok(1)];
    assert!(rt; draws_of_the_first_number() == first);
    assert!(rt; ceiling_of_a_raised_space() == 64);
}
