use crate::Session;
use dn_word::{Deed, DeedState, Position};
use std::test::Fail;

/// The word of a deed in epoch 3 with floor 7.
fn deed(state: DeedState, lane: u8) -> u64 {
    let deed = Deed {
        state,
        epoch: 3,
        lane,
        floor: 7,
    };
    deed.word()
}

#[test]
fn routes_after_deeds(rt: HostRuntime) -> Result<(), Fail> {
    let mut session = Session::new(rt.alloc(), 4);
    assert_eq!(rt; session.route(34), 0);
    session.refresh(33, deed(DeedState::Owned, 63));
    let deeds = [
        (DeedState::Owned, 5, 5),
        (DeedState::Leaving, 6, 6),
        (DeedState::Released, 7, 7),
        (DeedState::Nobody, 0, 0),
        (DeedState::Owned, 2, 2),
    ];
    for (state, lane, route) in deeds {
        session.refresh(34, deed(state, lane));
        assert_eq!(rt; session.route(34), route);
    }
    assert_eq!(rt; session.route(33), 63);
    assert_eq!(rt; session.route(35), 0);
    Ok(())
}

#[test]
fn views_of_calls(rt: HostRuntime) -> Result<(), Fail> {
    let mut session = Session::new(rt.alloc(), 9);
    session.hints(&[(5, 1), (6, 2), (5, 3)])?;
    let view = session.view(5);
    assert_eq!(rt; (view.session, view.number, view.hint), (9, 1, Some(1)));
    assert_eq!(rt; session.again(6).hint, Some(2));
    assert_eq!(rt; session.again(7).hint, None);
    assert_eq!(rt; session.again(5).number, 1);
    session.hints(&[(7, 0)])?;
    let view = session.view(5);
    assert_eq!(rt; (view.number, view.hint), (2, None));
    assert_eq!(rt; session.again(7).hint, Some(0));
    Ok(())
}

#[test]
fn the_greatest_position_stays(rt: HostRuntime) -> Result<(), Fail> {
    let mut session = Session::new(rt.alloc(), 2);
    let at = |stamp, rank, session| Position {
        stamp,
        rank,
        session,
    };
    assert_eq!(rt; session.last(), at(0, 0, 2));
    let heard = [
        (at(1, 0, 2), at(1, 0, 2)),
        (at(1, 0, 1), at(1, 0, 2)),
        (at(1, 3, 1), at(1, 3, 1)),
        (at(1, 2, 9), at(1, 3, 1)),
        (at(2, 0, 1), at(2, 0, 1)),
        (at(1, 9, 9), at(2, 0, 1)),
    ];
    for (position, last) in heard {
        session.told(position);
        assert_eq!(rt; session.last(), last);
        assert_eq!(rt; session.again(8).last, last);
    }
    Ok(())
}
