ghost use Rattle.std.specs.Prelude.{◌≡◌, ◌≢◌, ◌<◌, ◌≤◌, [], unsigned_abs};

use super::*;
use std::test::Fail;
use std::thread;

// The master, a member and a member's note over the words of one scenario.
#[test]
fn two_seats_share_a_word(rt: HostRuntime) -> Result<(), Fail> {
    let (words, mut master) = Words::make(rt.alloc(), 1)?;
    let mut member = words.member(rt.alloc(), &mut master)?;
    assert_eq!(rt; words.offer(&mut master, 0, 5), None);
    assert_eq!(rt; words.offer(&mut member, 0, 9), Some(5));
    assert_eq!(rt; words.look(&mut member, 0), Some(5));
    let note = words.note(rt.alloc(), &mut member)?;
    assert_eq!(rt; note.cap(0), Some(5));
    assert!(rt; note.best(0).is_none() && !note.is_master());
    words.join(&mut master, note);
    assert_eq!(rt; master.best(0), Some(5));
    Ok(())
}

// A look sees what was offered after the last one.
#[test]
fn a_look_sees_a_later_offer(rt: HostRuntime) -> Result<(), Fail> {
    let (words, mut master) = Words::make(rt.alloc(), 2)?;
    let mut member = words.member(rt.alloc(), &mut master)?;
    words.offer(&mut master, 1, 5);
    assert_eq!(rt; words.look(&mut member, 1), Some(5));
    assert_eq!(rt; words.offer(&mut master, 1, 4), Some(5));
    assert_eq!(rt; words.look(&mut member, 1), Some(4));
    assert_eq!(rt; words.look(&mut member, 0), None);
    words.join(&mut master, member);
    assert!(rt; master.is_master() && master.width() == 2);
    assert_eq!(rt; words.close(master, 1), Some(4));
    Ok(())
}

// Offers the values from a hundred above one down to it.
fn offer_down(words: &Words, mut seat: WordSeat, value: i64) -> WordSeat
    requires table { seat.table ≡ words.now }
    requires words { 0 < words.now.words }
    requires number { seat.view.numbers ≢ [] }
    requires value { unsigned_abs value ≤ 1000 }
    ensures { result.table ≡ words.now }
{
    for step in 0..101u32 {
        words.offer(&mut seat, 0, value + 100 - i64::from(step));
    }
    seat
}

// Two threads offer at once; whatever their order, the master's look answers the least value.
#[test]
fn threads_offer_at_once(rt: HostRuntime) -> Result<(), Fail> {
    let (words, mut master) = Words::make(rt.alloc(), 1)?;
    let first = words.member(rt.alloc(), &mut master)?;
    let second = words.member(rt.alloc(), &mut master)?;
    let (first, second) = thread::join(
        &rt,
        || offer_down(&words, first, 7),
        || offer_down(&words, second, -3),
    );
    assert_eq!(rt; first.best(0), Some(7));
    words.join(&mut master, first);
    words.join(&mut master, second);
    assert_eq!(rt; master.best(0), Some(-3));
    assert_eq!(rt; words.look(&mut master, 0), Some(-3));
    Ok(())
}
