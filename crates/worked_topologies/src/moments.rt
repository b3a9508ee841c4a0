//! Moments, their texts, and calendars.
use dom_base::List;
use dom_edge::{Calendar, MemoryCalendar, Moment, WallCalendar};
use std::test::Fail;

fn now<C: Calendar>(calendar: &mut C) -> u64 {
    calendar.now().seconds()
}

#[test]
fn moments_have_texts(rt: HostRuntime) -> Result<(), Fail> {
    for (seconds, day, text) in [
        (0, 0, b"19700101T000000Z"),
        (951_782_400, 11_016, b"20000229T000000Z"),
        (1_796_059_680, 20_787, b"20261130T172800Z"),
        (253_402_300_799, 2_932_896, b"99991231T235959Z"),
    ] {
        let Some(moment) = Moment::new(seconds) else {
            return Err(Fail::from("it is before the year 10000"));
        };
        assert_eq!(rt; &moment.text(), text);
        assert_eq!(rt; moment.day(), day);
    }
    assert!(rt; Moment::new(253_402_300_800).is_none());
    Ok(())
}

#[test]
fn calendars_tell_moments(rt: HostRuntime) -> Result<(), Fail> {
    let mut later = List::new(rt.alloc());
    for seconds in [7, 5] {
        if let Some(moment) = Moment::new(seconds) {
            later.push(moment)?;
        }
    }
    let mut calendar = MemoryCalendar::new(later);
    let told = [now(&mut calendar), now(&mut calendar), now(&mut calendar)];
    assert_eq!(rt; &told, &[7, 5, 5]);
    assert!(rt;
        1_700_000_000 < now(&mut WallCalendar::new(rt)),
        "before 2023"
    );
    Ok(())
}
