// The watchers at their limits, and what a caller learns of a list that it lent.
ghost use Rattle.std.specs.Prelude.{◌≡◌, ◌<◌, [], ◌∷◌, length, take};

use crate::allowance::Allowance;
use crate::roll::Roll;
use crate::tally::Tally;
use crate::watchers::Watcher;

#[test]
fn largest_count_declines(rt: HostRuntime) {
    let mut tally = Tally {
        count: 4294967294,
        latest: 5,
    };
    assert!(rt; tally.offer(6));
    assert!(rt; !tally.offer(7));
    assert_eq!(rt; tally.count, 4294967295);
    assert_eq!(rt; tally.latest, 6);
}

// The list has room for two places, and three are allowed.
#[test]
fn full_roll_declines(rt: HostRuntime) {
    let mut list = [0usize; 2];
    let mut allowed = Allowance::new(3, Roll::new(&mut list));
    assert!(rt; allowed.offer(4));
    assert!(rt; allowed.offer(9));
    assert!(rt; !allowed.offer(1));
    assert_eq!(rt; allowed.left, 1);
    assert_eq!(rt; list[0], 4);
    assert_eq!(rt; list[1], 9);
}

// The caller's list ends with what was written.
fn write_one(list: &mut [usize]) -> usize
    requires { 0 < length list.old }
    ensures { take result list.new ≡ 7 ∷ [] }
{
    let mut roll = Roll::new(list);
    let _ = roll.offer(7);
    roll.len
}

#[test]
fn lent_list_is_written(rt: HostRuntime) {
    let mut list = [0usize; 1];
    assert_eq!(rt; write_one(&mut list), 1);
    assert_eq!(rt; list[0], 7);
}
