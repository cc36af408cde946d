// What no clause says: that the calls succeed, what is printed, and that values may cross threads.
ghost use Rattle.std.specs.Prelude.{◌≡◌, ◌<◌};

use crate::ids::{
    CallId, ClassId, ExitId, FieldId, LocId, MethodId, Mode, NoMemory, NodeId, SiteId, Statement,
};
use crate::limits::{
    DEPTH, FILE_BYTES, FILES, LINE_BYTES, LOCATIONS, LimitKind, MEMO_WORDS, METHODS, NODES,
    SCRIPT_BYTES, SCRIPT_LINES, SCRIPTS, SITES, TOTAL_BYTES,
};
use crate::list::List;
use crate::name::{Name, Text};
use crate::steps::Steps;
use std::marker::Brand;
use std::sync::ledger::{Blank, Ledger};
use std::test::Fail;

#[test]
fn keeps_what_it_was_given(rt: HostRuntime) -> Result<(), Fail> {
    let list = List::from_vec(vec![in rt.alloc(); 3u32, 1, 2]?);
    assert_eq!(rt; list.items(), [3, 1, 2].as_slice());
    assert_eq!(rt; list.into_vec().as_slice(), [3, 1, 2].as_slice());
    let text = Text::from_string(String::from_str(rt.alloc(), "a/b")?);
    assert_eq!(rt; text.as_str(), "a/b");
    assert_eq!(rt; text.into_string().as_str(), "a/b");
    let low = Name::from_bytes(rt.alloc(), b"Box")?;
    let high = Name::from_bytes(rt.alloc(), b"Box$1")?;
    assert_eq!(rt; low.bytes(), b"Box".as_slice());
    assert!(rt; low < high);
    assert!(rt; low == low);
    assert_eq!(rt;
        Name::from_vec(high.into_vec()).bytes(),
        b"Box$1".as_slice()
    );
    Ok(())
}

#[test]
fn says_what_is_wrong(rt: HostRuntime) -> Result<(), Fail> {
    let said = NoMemory.to_string(rt.alloc())?;
    assert_eq!(rt; said.as_str(), "out of memory");
    Ok(())
}

#[test]
fn orders_statements_by_method_first(rt: HostRuntime) {
    let first = Statement {
        method: MethodId(1),
        pc: 9,
    };
    let second = Statement {
        method: MethodId(2),
        pc: 0,
    };
    assert!(rt; first < second);
}

#[test]
fn has_the_stated_limits(rt: HostRuntime) {
    let powers = [
        (DEPTH, 6),
        (FILES, 14),
        (FILE_BYTES, 24),
        (TOTAL_BYTES, 26),
        (METHODS, 16),
        (SITES, 20),
        (LOCATIONS, 20),
        (NODES, 24),
        (MEMO_WORDS, 25),
        (SCRIPTS, 6),
        (LINE_BYTES, 12),
        (SCRIPT_LINES, 20),
        (SCRIPT_BYTES, 28),
    ];
    for (limit, power) in powers {
        assert_eq!(rt; limit, 1u64 << power, "2^{power}");
    }
}

fn three_turns<L: Ledger>(blank: Blank)
    requires { (blank.name ≡ L.name) × (blank.parts ≡ L.parts) × (0 < L.parts) }
{
    let mut steps = Steps::<L>::new(blank);
    steps.turn();
    steps.turns(2);
}

#[test]
fn counts_for_nobody() {
    three_turns::<Brand>(Blank::new(1));
}

fn is_shared<T: Sync>(_value: Option<&T>) {}

fn is_sent<T: Send>(_value: Option<&T>) {}

fn crosses<T: Send + Sync>(value: Option<&T>) {
    is_sent(value);
    is_shared(value);
}

#[test]
fn may_cross_threads() {
    crosses::<ClassId>(None);
    crosses::<MethodId>(None);
    crosses::<SiteId>(None);
    crosses::<LocId>(None);
    crosses::<NodeId>(None);
    crosses::<ExitId>(None);
    crosses::<CallId>(None);
    crosses::<FieldId>(None);
    crosses::<Statement>(None);
    crosses::<Mode>(None);
    crosses::<NoMemory>(None);
    crosses::<LimitKind>(None);
    crosses::<List<Statement>>(None);
    crosses::<List<Name>>(None);
    crosses::<Name>(None);
    crosses::<Text>(None);
}
