ghost use Rattle.std.specs.Prelude.{◌≡◌, ◌+◌, ◌≤◌, length};

use crate::{Gate, Seat};
use std::test::Fail;
use std::thread::join_mut;

// Draws five numbers, which it notes.
fn draw_five(gate: &Gate, s: &mut Seat, noted: &mut [u64; 5])
    requires gate { s.old.gate ≡ gate.now }
    requires none { length s.old.drawn ≡ 0 }
    requires left { 5 ≤ s.old.left }
    ensures gate { s.new.gate ≡ s.old.gate }
    ensures left { s.new.left + 5 ≡ s.old.left }
{
    *noted = [
        gate.draw(s),
        gate.draw(s),
        gate.draw(s),
        gate.draw(s),
        gate.draw(s),
    ];
}

#[test]
fn two_threads_draw_each_number_once(rt: HostRuntime) -> Result<(), Fail> {
    let (gate, mut s) = Gate::new(rt.alloc())?;
    let mut other = gate.split(rt.alloc(), &mut s)?;
    let mut first = [0; 5];
    let mut second = [0; 5];
    join_mut(
        &rt,
        &mut || draw_five(&gate, &mut s, &mut first),
        &mut || draw_five(&gate, &mut other, &mut second),
    );
    gate.join(&mut s, other);
    assert_eq!(rt; s.drawn(), 10);
    for number in 0..10 {
        assert!(rt;
            first.contains(&number) != second.contains(&number),
            "at {number}"
        );
    }
    Ok(())
}

#[test]
fn a_raised_gate_stops_each_seat(rt: HostRuntime) -> Result<(), Fail> {
    let (gate, mut s) = Gate::new(rt.alloc())?;
    let mut other = gate.split(rt.alloc(), &mut s)?;
    assert!(rt; !gate.look(&mut s) && !gate.look(&mut other));
    gate.raise(&mut other);
    assert!(rt; gate.look(&mut s) && gate.look(&mut other));
    assert!(rt; other.raised() && !s.raised());
    gate.join(&mut s, other);
    assert!(rt; s.raised());
    Ok(())
}

#[test]
fn splitting_and_joining_keeps_counts(rt: HostRuntime) -> Result<(), Fail> {
    let (gate, mut s) = Gate::new(rt.alloc())?;
    assert_eq!(rt; gate.draw(&mut s), 0);
    let mut other = gate.split(rt.alloc(), &mut s)?;
    assert_eq!(rt; (s.drawn(), other.drawn()), (1, 0));
    assert_eq!(rt;
        (
            gate.draw(&mut other),
            gate.draw(&mut s),
            gate.draw(&mut other)
        ),
        (1, 2, 3)
    );
    assert_eq!(rt; (s.drawn(), other.drawn()), (2, 2));
    gate.join(&mut s, other);
    assert_eq!(rt; (s.drawn(), gate.draw(&mut s), s.drawn()), (4, 4, 5));
    assert!(rt; !s.raised() && !gate.look(&mut s));
    Ok(())
}
